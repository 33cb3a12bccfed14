//! Bytes and numbers in hexadecimal digits: written in lower case, read in both.
ghost use Rattle.std.specs.Prelude.{◌≡◌, ◌<◌, ◌++◌, IfOk, IfSome, None, OnOk, Some, if◌then◌else◌};
ghost use Rattle.std.specs.List.{flat_map};
ghost use Rattle.std.specs.Int.{to_be_bytes, w32};
ghost use Rattle.gdb_packets.specs.Hex.{byte_said, digit_of, number_from, number_said, one_more, pair_of, said_behind, value_of};

use mix_bits::NoMemory;

/// The digit of a number below 16, in lower case.
pub fn hex_digit(n: u8) -> u8
    requires { n < 16 }
    ensures { result ≡ digit_of n }
{
    if n < 10 { b'0' + n } else { b'a' - 10 + n }
}

/// What a digit stands for, in either case.
pub fn hex_value(digit: u8) -> Option<u8>
    ensures value { result ≡ value_of digit }
    ensures small { IfSome result (λ n. n < 16) }
{
    if b'0' <= digit && digit <= b'9' {
        Some(digit - b'0')
    } else if b'a' <= digit && digit <= b'f' {
        Some(digit - b'a' + 10)
    } else if b'A' <= digit && digit <= b'F' {
        Some(digit - b'A' + 10)
    } else {
        None
    }
}

/// The byte whose two digits these are.
pub fn hex_byte(high: u8, low: u8) -> Option<u8>
    ensures { result ≡ byte_said high low }
{
    match (hex_value(high), hex_value(low)) {
        (Some(high), Some(low)) => Some(16 * high + low),
        _ => None,
    }
}

/// The number below 2^32 whose digits a text is.
pub fn read_number(text: &[u8]) -> Option<u32>
    ensures { result ≡ number_said text.now }
{
    if text.is_empty() {
        None
    } else {
        number_of(text)
    }
}

fn number_of(text: &[u8]) -> Option<u32>
    ensures { result ≡ number_from (Some 0) text.now }
{
    let mut number = 0;
    for &digit in text {
        number = with_digit(number, digit)?;
    }
    Some(number)
}

fn with_digit(number: u32, digit: u8) -> Option<u32>
    ensures { result ≡ one_more number (value_of digit) }
{
    let value = hex_value(digit)?;
    if number < 0x1000_0000 {
        Some(16 * number + u32::from(value))
    } else {
        None
    }
}

/// Appends two digits for each byte.
pub fn append_hex(buffer: &mut Vec<u8>, bytes: &[u8]) -> Result<(), NoMemory>
    ensures { OnOk result (buffer.new.items ≡ buffer.old.items ++ flat_map pair_of bytes.now) }
{
    for &byte in bytes {
        append_pair(buffer, byte)?;
    }
    Ok(())
}

fn append_pair(buffer: &mut Vec<u8>, byte: u8) -> Result<(), NoMemory>
    ensures { OnOk result (buffer.new.items ≡ buffer.old.items ++ pair_of byte) }
{
    buffer.extend_from_slice(&[hex_digit(byte / 16), hex_digit(byte % 16)])?;
    Ok(())
}

/// Appends the eight digits of a register.
pub fn append_register(buffer: &mut Vec<u8>, value: u32) -> Result<(), NoMemory>
    ensures { OnOk result (buffer.new.items ≡ buffer.old.items ++ flat_map pair_of (to_be_bytes w32 value)) }
{
    append_hex(buffer, &value.to_be_bytes())
}

/// Appends the bytes whose digits these are, and says whether they are digits of whole bytes; if not, what is appended means nothing.
pub fn append_said(buffer: &mut Vec<u8>, digits: &[u8]) -> Result<bool, NoMemory>
    ensures { IfOk result (λ whole. said_behind buffer.old.items digits.now ≡ (if whole then Some buffer.new.items else None)) }
{
    let mut rest = digits;
    while let [high, low, behind @ ..] = rest {
        match hex_byte(*high, *low) {
            Some(byte) => buffer.push(byte)?,
            None => return Ok(false),
        }
        rest = behind;
    }
    Ok(rest.is_empty())
}
