// The operands of a line.
ghost use Rattle.std.specs.Prelude.{◌≡◌, ◌≤◌, length, false};
ghost use Rattle.asm_m68.specs.laws.Operands.{behind, comma as comma_of, front_of, read_all, within as within_of};

use super::reading::read;
use m68_text::Operand;

/// Up to three operands of a line. One that is missing is the number 0.
#[derive(Clone, Copy)]
pub struct Parsed {
    pub first: Operand,
    pub second: Operand,
    pub third: Operand,
}

/// The operands of a text.
pub fn read_operands(text: &[u8]) -> Parsed
    ensures { result ≡ read_all text.now }
{
    let (first, rest) = split_at_comma(text);
    let (second, third) = split_at_comma(rest);
    Parsed {
        first: read(first),
        second: read(second),
        third: read(third),
    }
}

/// The text before the first comma outside parentheses, and the one behind it.
fn split_at_comma(text: &[u8]) -> (&[u8], &[u8])
    ensures front { result.0.now ≡ front_of text.now }
    ensures rest { result.1.now ≡ behind text.now }
{
    let end = comma(text);
    if end < text.len() {
        (&text[..end], &text[end + 1..])
    } else {
        (text, &[])
    }
}

/// How many bytes stand before the first comma outside parentheses.
fn comma(text: &[u8]) -> usize
    ensures value { result ≡ comma_of false text.now }
    ensures within { result ≤ length text.now }
{
    let mut inside = false;
    for (i, b) in text.iter().enumerate() {
        if *b == b',' && !inside {
            return i;
        }
        inside = is_inside(inside, *b);
    }
    text.len()
}

/// Whether what follows on a byte is inside parentheses.
fn is_inside(inside: bool, byte: u8) -> bool
    ensures { result ≡ within_of inside byte }
{
    match byte {
        b'(' => true,
        b')' => false,
        _ => inside,
    }
}
