// Images and traces, as texts.
ghost use Rattle.std.specs.Prelude.{◌<◌};

use std::alloc::Global;
use std::process::Abort;

/// The bytes that a text spells: words of hexadecimal digits, one after the other. `@PLACE` goes on at a
/// place, with zeros up to it.
pub fn image(rt: &impl Abort, alloc: Global, text: &str) -> Vec<u8> {
    let mut bytes = Vec::new(alloc);
    let mut at = 0;
    for word in text.split_whitespace() {
        at = match word.strip_prefix('@') {
            Some(place) => go_to(rt, &mut bytes, number(place)),
            None => put_digits(rt, &mut bytes, at, word),
        };
    }
    bytes
}

/// Goes on at a place.
fn go_to(rt: &impl Abort, bytes: &mut Vec<u8>, place: u16) -> u16 {
    for _ in bytes.len()..place as usize {
        bytes.push(0).expect(rt, "no room");
    }
    place
}

/// The number of hexadecimal digits.
fn number(digits: &str) -> u16 {
    u16::from_str_radix(digits, 16).unwrap_or(0)
}

/// Puts the bytes of hexadecimal digits from a place on, and answers where they end.
fn put_digits(rt: &impl Abort, bytes: &mut Vec<u8>, at: u16, digits: &str) -> u16 {
    let mut at = at;
    for pair in digits.as_bytes().chunks(2) {
        if let [high, low] = pair {
            put(rt, bytes, at as usize, nibble(*high) * 16 + nibble(*low));
        }
        at = at.saturating_add(1);
    }
    at
}

/// Puts a byte at a place that is there, or behind all others.
fn put(rt: &impl Abort, bytes: &mut Vec<u8>, at: usize, byte: u8) {
    if at < bytes.len() {
        bytes[at] = byte;
    } else {
        bytes.push(byte).expect(rt, "no room");
    }
}

/// The value of a hexadecimal digit.
fn nibble(digit: u8) -> u8
    ensures { result < 16 }
{
    match digit {
        b'0'..=b'9' => digit - b'0',
        b'A'..=b'F' => digit - b'A' + 10,
        _ => 0,
    }
}

/// How many lines of a trace begin with a byte.
pub fn count_lines(trace: &[u8], first: u8) -> u32 {
    let mut count = 0u32;
    let mut before = b'\n';
    for byte in trace {
        if before == b'\n' && *byte == first {
            count = count.saturating_add(1);
        }
        before = *byte;
    }
    count
}
