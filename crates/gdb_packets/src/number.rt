//! Numbers written without leading zeros.
ghost use Rattle.std.specs.Prelude.{◌≡◌, ◌/◌, ◌%◌, ◌<◌, ◌++◌, OnOk};
ghost use Rattle.gdb_packets.specs.Hex.{digit_of, digits, number_text, shortened};

use super::hex::hex_digit;
use mix_bits::NoMemory;

/// Appends a number's digits without leading zeros.
#[tactic(auto, unfolding(crate::specs::Hex::number_text))]
pub fn append_number(buffer: &mut Vec<u8>, number: u32) -> Result<(), NoMemory>
    ensures { OnOk result (buffer.new.items ≡ buffer.old.items ++ number_text number) }
{
    buffer.extend_from_slice(without_zeros(&all_digits(number)))?;
    Ok(())
}

fn without_zeros(digits: &[u8]) -> &[u8]
    ensures { result.now ≡ shortened digits.now }
{
    for (i, digit) in digits.iter().enumerate() {
        if *digit != b'0' {
            return &digits[i..];
        }
    }
    b"0"
}

fn all_digits(number: u32) -> [u8; 8]
    ensures { result ≡ digits 8 number }
{
    [
        digit_at(number, 0x1000_0000),
        digit_at(number, 0x100_0000),
        digit_at(number, 0x10_0000),
        digit_at(number, 0x1_0000),
        digit_at(number, 0x1000),
        digit_at(number, 0x100),
        digit_at(number, 0x10),
        digit_at(number, 1),
    ]
}

fn digit_at(number: u32, power: u32) -> u8
    requires { 0 < power }
    ensures { result ≡ digit_of (number / power % 16) }
{
    hex_digit((number / power % 16) as u8)
}
