// The pieces of a line, read from its front.
ghost use Rattle.std.specs.Prelude.{◌≡◌, ◌+◌, ◌≤◌, ◌<◌, IfSome, drop, length};
ghost use Rattle.std.specs.Option.{option_and_then, option_map};
ghost use Rattle.mix_bits.specs.Sizes.{bytes_of};
ghost use Rattle.trace_lines.specs.inner.Pieces.{after_mark, first_space, hex_front, marked_value, marked_width, set_front};

use mix_bits::{Isa, Size, read_hexadecimal};

/// What stands behind a mark at the front of a text.
pub fn after<'a>(text: &'a [u8], mark: &str) -> Option<&'a [u8]>
    ensures rest { option_map (λ s. s.now) result ≡ after_mark mark.now text.now }
    ensures length { IfSome result (λ s. length s.now + length mark.now ≡ length text.now) }
{
    behind(text, mark.as_bytes())
}

fn behind<'a>(text: &'a [u8], mark: &[u8]) -> Option<&'a [u8]>
    ensures rest { option_map (λ s. s.now) result ≡ after_mark mark.now text.now }
    ensures length { IfSome result (λ s. length s.now + length mark.now ≡ length text.now) }
{
    match mark {
        [] => Some(text),
        [first, mark @ ..] => match text {
            [] => None,
            [byte, text @ ..] => {
                if byte == first {
                    behind(text, mark)
                } else {
                    None
                }
            }
        },
    }
}

/// What stands behind the first `n` bytes.
pub fn past(text: &[u8], n: usize) -> &[u8]
    requires { n ≤ length text.now }
    ensures rest { result.now ≡ drop n text.now }
    ensures length { length result.now + n ≡ length text.now }
{
    &text[n..]
}

/// The number in so many hexadecimal digits at the front of a text.
#[tactic(auto, using(crate::proofs::Short::short_hex))]
pub fn front_hex(text: &[u8], digits: usize) -> Option<u32>
    requires { digits ≤ 8 }
    ensures number { result ≡ hex_front digits text.now }
    ensures inside { IfSome result (λ n. digits ≤ length text.now) }
{
    if text.len() < digits {
        None
    } else {
        read_hexadecimal(&text[..digits], digits)
    }
}

/// The set whose name and a space stand at the front of a text, in four bytes.
pub fn front_set(text: &[u8]) -> Option<Isa>
    ensures set { result ≡ set_front text.now }
    ensures inside { IfSome result (λ set. 4 ≤ length text.now) }
{
    if after(text, "68k ").is_some() {
        Some(Isa::M68)
    } else if after(text, "ppc ").is_some() {
        Some(Isa::Ppc)
    } else {
        None
    }
}

/// How many bytes a value of this size takes behind a mark; without a size there is no mark.
pub fn width(mark: &str, size: Size) -> usize
    requires { length mark.now ≤ 2 }
    ensures value { result ≡ marked_width mark.now size }
    ensures small { result ≤ 10 }
{
    match size {
        Size::Zero => 0,
        Size::One => mark.len() + 2,
        Size::Two => mark.len() + 4,
        Size::Four => mark.len() + 8,
    }
}

/// The value of this size behind a mark at the front of a text, 0 without a size.
pub fn front_value(text: &[u8], mark: &str, size: Size) -> Option<u32>
    ensures value { result ≡ marked_value mark.now size text.now }
    ensures inside { IfSome result (λ n. marked_width mark.now size ≤ length text.now) }
{
    match size {
        Size::Zero => Some(0),
        Size::One => front_digits(text, mark, 2),
        Size::Two => front_digits(text, mark, 4),
        Size::Four => front_digits(text, mark, 8),
    }
}

/// The number in so many hexadecimal digits behind a mark at the front of a text.
#[inline(always)]
fn front_digits(text: &[u8], mark: &str, digits: usize) -> Option<u32>
    requires { digits ≤ 8 }
    ensures value { result ≡ option_and_then (hex_front digits) (after_mark mark.now text.now) }
    ensures inside { IfSome result (λ n. length mark.now + digits ≤ length text.now) }
{
    front_hex(after(text, mark)?, digits)
}

/// The place of the first space.
pub fn space(text: &[u8]) -> Option<usize>
    ensures place { result ≡ first_space text.now }
    ensures inside { IfSome result (λ k. k < length text.now) }
{
    text.iter().position(|byte| *byte == b' ')
}
