//! Numbers read from texts, as `Line` writes them.
ghost use Rattle.std.specs.Prelude.{◌≡◌, ◌≤◌, length, true};
ghost use Rattle.std.specs.Char.{digit_value};
ghost use Rattle.std.specs.List.{list_all};
ghost use Rattle.std.specs.Str.Parse.{digits_value};
ghost use Rattle.mix_bits.specs.Numbers.{decimal_number, hexadecimal_number, is_hex_digit};

use itoa::Buffer;
use std::str::from_utf8;

/// The number whose decimal digits a text is: no sign, no leading zero, below 2^32.
pub fn read_decimal(text: &[u8]) -> Option<u32>
    ensures { result ≡ decimal_number text.now }
{
    match from_utf8(text) {
        Ok(word) => read_word(word),
        Err(_) => None,
    }
}

fn read_word(word: &str) -> Option<u32>
    ensures { result ≡ decimal_number word.now }
{
    match word.parse::<u32>() {
        Ok(n) if Buffer::new().format(n) == word => Some(n),
        _ => None,
    }
}

/// The number whose `count` hexadecimal digits in upper case a text is.
#[tactic(auto, unfolding(crate::specs::Numbers::hexadecimal_number))]
pub fn read_hexadecimal(text: &[u8], count: usize) -> Option<u32>
    requires { count ≤ 8 }
    ensures { result ≡ hexadecimal_number count text.now }
{
    if text.len() == count && are_digits(text) {
        Some(value(text))
    } else {
        None
    }
}

/// Whether all bytes are hexadecimal digits in upper case.
fn are_digits(text: &[u8]) -> bool
    ensures { result ≡ list_all is_hex_digit text.now }
{
    text.iter().all(|&byte| is_upper_digit(byte))
}

/// Whether a byte is a hexadecimal digit in upper case.
fn is_upper_digit(byte: u8) -> bool
    ensures { result ≡ is_hex_digit byte }
{
    b'0' <= byte && byte <= b'9' || b'A' <= byte && byte <= b'F'
}

/// The number of at most eight hexadecimal digits in upper case.
#[tactic(auto, using(crate::proofs::ReadHexadecimals::more_fits, crate::proofs::ReadHexadecimals::one_more))]
fn value(text: &[u8]) -> u32
    requires short { length text.now ≤ 8 }
    requires digits { list_all is_hex_digit text.now ≡ true }
    ensures { result ≡ digits_value 16 text.now }
{
    let mut n = 0;
    for &byte in text {
        n = n * 16 + digit_of(byte);
    }
    n
}

fn digit_of(byte: u8) -> u32
    requires { is_hex_digit byte ≡ true }
    ensures { result ≡ digit_value byte }
{
    if byte <= b'9' {
        u32::from(byte - b'0')
    } else {
        u32::from(byte - b'A') + 10
    }
}
