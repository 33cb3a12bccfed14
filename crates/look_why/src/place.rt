// Where the lines of a text stand.
ghost use Rattle.std.specs.Prelude.{◌≡◌, ◌^◌, ◌<◌, IfSome, length};
ghost use Rattle.look_why.specs.Places.{HasCount, Leads};

use crate::few::Few;
use crate::lines::split_line;
use mix_bits::{Isa, onward};
use mix_text::{check_text, put_text};

/// The address behind so many lines of a text, the first at an address; none where one of them is refused.
pub fn place_behind(set: Isa, text: &[u8], at: u32, lines: u32) -> Option<u32>
    requires { length text.now < 2 ^ 31 }
    ensures { IfSome result (λ address. Leads set lines text.now at address) }
{
    let mut rest = text;
    let mut left = lines;
    let mut next = at;
    'lines: while left > 0 {
        let (line, behind) = split_line(rest);
        match count_bytes(set, line, next) {
            Some(count) => next = onward(next, count),
            None => return None,
        }
        rest = behind;
        left -= 1;
    }
    Some(next)
}

/// How many bytes a line gives at its address, if it is not refused.
fn count_bytes(set: Isa, line: &[u8], at: u32) -> Option<u32>
    requires { length line.now < 2 ^ 31 }
    ensures { IfSome result (λ count. HasCount set line.now at count) }
{
    match check_text(set, line, at) {
        Ok(()) => {
            let mut out = Few::new();
            match put_text(set, line, at, &mut out) {
                Ok(()) => Some(out.bytes.len() as u32),
                Err(_) => None,
            }
        }
        Err(_) => None,
    }
}
