// What is said of the lines of a script or of a text.
ghost use Rattle.std.specs.Prelude.{◌≡◌, ◌+◌, ◌*◌, ◌<◌, ◌≤◌, ◌++◌, length, take};
ghost use Rattle.look_why.specs.Reports.{address_text, place_text, shown as shown_of, shown_byte, shown_line};

use crate::rule::Rule;
use arrayvec::ArrayVec;
use mix_bits::{Line, append};

/// How many bytes a report has at most.
const REPORT_BYTES: usize = 640;

/// How many bytes of a line are shown.
const SHOWN_BYTES: usize = 80;

type Text = ArrayVec<u8, REPORT_BYTES>;

/// What is said, and whether every line is taken.
#[derive(Drop)]
pub struct Report {
    pub text: ArrayVec<u8, 640>,
    pub is_taken: bool,
}

impl Report {
    ghost use Rattle.std.specs.Prelude.{◌≡◌, true, false};
    ghost use Rattle.look_why.specs.Reports.{refused_text, taken_text};

    /// That every line is taken.
    pub fn taken() -> Report
        ensures text { result.text.items ≡ taken_text }
        ensures is { result.is_taken ≡ true }
    {
        let mut text = ArrayVec::new();
        append(&mut text, b"every line is taken\n");
        Report {
            text,
            is_taken: true,
        }
    }

    /// That a line, which has a number, breaks a rule, and where it stands, if that is told.
    pub fn refused(number: u32, line: &[u8], rule: Rule, place: Option<u32>) -> Report
        ensures text { result.text.items ≡ refused_text number line.now rule place }
        ensures is { result.is_taken ≡ false }
    {
        let mut digits = Line::new();
        digits.add_dec(number);
        let mut text = ArrayVec::new();
        append(&mut text, b"line ");
        append(&mut text, digits.bytes());
        append(&mut text, b": ");
        add_line(&mut text, line);
        append(&mut text, b"\n");
        append(&mut text, rule.text().as_bytes());
        add_place(&mut text, place);
        append(&mut text, b"\n");
        Report {
            text,
            is_taken: false,
        }
    }
}

/// Appends the first bytes of a line, and dots where it goes on.
fn add_line(text: &mut Text, line: &[u8])
    requires { length text.old.items + 322 ≤ 640 }
    ensures is { text.new.items ≡ text.old.items ++ shown_line line.now }
    ensures short { length text.new.items ≤ length text.old.items + 322 }
{
    if line.len() <= SHOWN_BYTES {
        add_bytes(text, line);
    } else {
        add_bytes(text, front(line));
        append(text, b"..");
    }
}

/// As many bytes of a line as are shown.
fn front(line: &[u8]) -> &[u8]
    requires { 80 < length line.now }
    ensures is { result.now ≡ take 80 line.now }
    ensures long { length result.now ≡ 80 }
{
    &line[..SHOWN_BYTES]
}

/// Appends bytes, those that are not printable as digits.
fn add_bytes(text: &mut Text, bytes: &[u8])
    requires { length text.old.items + 4 * length bytes.now ≤ 640 }
    ensures is { text.new.items ≡ text.old.items ++ shown_of bytes.now }
    ensures short { length text.new.items ≤ length text.old.items + 4 * length bytes.now }
{
    match bytes {
        [] => (),
        [byte, rest @ ..] => {
            add_byte(text, *byte);
            add_bytes(text, rest);
        }
    }
}

fn add_byte(text: &mut Text, byte: u8)
    requires { length text.old.items + 4 ≤ 640 }
    ensures is { text.new.items ≡ text.old.items ++ shown_byte byte }
    ensures short { length text.new.items ≤ length text.old.items + 4 }
{
    if b' ' <= byte && byte <= b'~' {
        append(text, &[byte]);
    } else {
        let mut digits = Line::new();
        digits.add_hex(u32::from(byte), 2);
        append(text, b"\\x");
        append(text, digits.bytes());
    }
}

/// Appends where a line stands, if that is told.
fn add_place(text: &mut Text, place: Option<u32>)
    requires { length text.old.items + 29 ≤ 640 }
    ensures is { text.new.items ≡ text.old.items ++ place_text place }
    ensures short { length text.new.items ≤ length text.old.items + 29 }
{
    if let Some(address) = place {
        add_address(text, address);
    }
}

/// Appends an address as that of a line.
fn add_address(text: &mut Text, address: u32)
    requires { length text.old.items + 29 ≤ 640 }
    ensures is { text.new.items ≡ text.old.items ++ address_text address }
    ensures short { length text.new.items ≤ length text.old.items + 29 }
{
    let mut digits = Line::new();
    digits.add_hex(address, 8);
    append(text, b" The line stands at ");
    append(text, digits.bytes());
    append(text, b".");
}
