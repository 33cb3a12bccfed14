// An operand by its text.
ghost use Rattle.std.specs.Prelude.{◌≡◌, ◌<◌, ◌^◌, slice_index};
ghost use Rattle.asm_m68.specs.Reading.{digit as digit_of, hex_2 as hex_2_of, hex_4 as hex_4_of, hex_8 as hex_8_of, index_in as index_in_text, nibble as nibble_of, read as read_of, read_2 as read_2_of, read_3 as read_3_of, read_4 as read_4_of, read_5 as read_5_of, read_9 as read_9_of, read_indexed as read_indexed_of, register as register_of};

use m68_isa::Index;
use m68_text::Operand::{
    self, Address, Byte, ConditionCodes, Data, Displaced, Indexed, Indirect, Long, LongAddress,
    Number, Pair, PcDisplaced, PcIndexed, PostIncrement, PreDecrement, ShortAddress,
    StatusRegister, Target, Word,
};

/// The byte at a place, 0 behind the last one.
fn byte_at(text: &[u8], at: usize) -> u8
    ensures { result ≡ slice_index text.now at }
{
    if at < text.len() { text[at] } else { 0 }
}

/// A hexadecimal digit.
fn nibble(byte: u8) -> u32
    ensures value { result ≡ nibble_of byte }
    ensures below { result < 16 }
{
    let code = u32::from(byte);
    if code < 64 {
        code % 16
    } else {
        (code + 9) % 16
    }
}

/// Two hexadecimal digits from a place on.
fn hex_2(text: &[u8], at: usize) -> u32
    requires { at < 50 }
    ensures value { result ≡ hex_2_of text.now at }
    ensures below { result < 2 ^ 8 }
{
    nibble(byte_at(text, at)) * 16 + nibble(byte_at(text, at + 1))
}

/// Four of them.
fn hex_4(text: &[u8], at: usize) -> u32
    requires { at < 48 }
    ensures value { result ≡ hex_4_of text.now at }
    ensures below { result < 2 ^ 16 }
{
    hex_2(text, at) * 0x100 + hex_2(text, at + 2)
}

/// Eight of them.
fn hex_8(text: &[u8], at: usize) -> u32
    requires { at < 44 }
    ensures { result ≡ hex_8_of text.now at }
{
    hex_4(text, at) * 0x1_0000 + hex_4(text, at + 4)
}

/// The number of a register.
fn register(text: &[u8], at: usize) -> u8
    ensures value { result ≡ register_of text.now at }
    ensures below { result < 8 }
{
    byte_at(text, at) % 8
}

/// A decimal digit.
fn digit(text: &[u8], at: usize) -> u8
    ensures value { result ≡ digit_of text.now at }
    ensures below { result < 16 }
{
    byte_at(text, at) % 16
}

fn read_2(text: &[u8]) -> Operand
    ensures { result ≡ read_2_of text.now }
{
    match byte_at(text, 0) {
        b'd' => Data(register(text, 1)),
        b'a' => Address(register(text, 1)),
        b'#' => Number(digit(text, 1)),
        _ => StatusRegister,
    }
}

fn read_3(text: &[u8]) -> Operand
    ensures { result ≡ read_3_of text.now }
{
    if byte_at(text, 0) == b'#' {
        Number(digit(text, 1) * 10 + digit(text, 2))
    } else {
        ConditionCodes
    }
}

fn read_4(text: &[u8]) -> Operand
    ensures { result ≡ read_4_of text.now }
{
    if byte_at(text, 0) == b'#' {
        Byte(hex_2(text, 2))
    } else {
        Indirect(register(text, 2))
    }
}

fn read_5(text: &[u8]) -> Operand
    ensures { result ≡ read_5_of text.now }
{
    match byte_at(text, 0) {
        b'-' => PreDecrement(register(text, 3)),
        b'(' => PostIncrement(register(text, 2)),
        b'd' => Pair(register(text, 1), register(text, 4)),
        _ => Word(hex_4(text, 1)),
    }
}

fn read_9(text: &[u8]) -> Operand
    ensures { result ≡ read_9_of text.now }
{
    if byte_at(text, 5) == b'(' {
        if byte_at(text, 6) == b'a' {
            Displaced(register(text, 7), hex_4(text, 1))
        } else {
            PcDisplaced(hex_4(text, 1))
        }
    } else {
        Target(hex_8(text, 1))
    }
}

/// The index with its displacement, in the texts that have one.
fn index_in(text: &[u8], scale: u32) -> Index
    ensures { result ≡ index_in_text text.now scale }
{
    Index {
        reg: register(text, 8),
        address: byte_at(text, 7) == b'a',
        long: byte_at(text, 10) == b'l',
        scale,
        disp: hex_2(text, 1),
    }
}

fn read_indexed(text: &[u8], scale: u32) -> Operand
    ensures { result ≡ read_indexed_of text.now scale }
{
    if byte_at(text, 4) == b'a' {
        Indexed(register(text, 5), index_in(text, scale))
    } else {
        PcIndexed(index_in(text, scale))
    }
}

/// The operand with this text, and something else for a text of none.
pub fn read(text: &[u8]) -> Operand
    ensures { result ≡ read_of text.now }
{
    match text.len() {
        2 => read_2(text),
        3 => read_3(text),
        4 => read_4(text),
        5 => read_5(text),
        6 => Word(hex_4(text, 2)),
        7 => ShortAddress(hex_4(text, 1)),
        9 => read_9(text),
        10 => Long(hex_8(text, 2)),
        11 => LongAddress(hex_8(text, 1)),
        12 => read_indexed(text, 1),
        14 => read_indexed(text, u32::from(digit(text, 12))),
        _ => Number(0),
    }
}
