ghost use Rattle.std.specs.Prelude.{◌≡◌};
ghost use Rattle.crc16.specs.Checksum.{checksum_of, remainder as remainder_of, shifted as shifted_once, shifted_twice as twice_shifted, with_byte as with_one_byte};

/// The check sum of bytes.
#[tactic(auto, using(crate::proofs::Behind::two_behind))]
pub fn checksum(bytes: &[u8]) -> u16
    ensures { result ≡ checksum_of bytes.now }
{
    with_byte(with_byte(remainder(bytes), 0), 0)
}

/// The remainder of the number that has these bytes.
fn remainder(bytes: &[u8]) -> u16
    ensures { result ≡ remainder_of bytes.now }
{
    let mut sum = 0;
    for byte in bytes {
        sum = with_byte(sum, *byte);
    }
    sum
}

/// The remainder with one byte more. It is 0 of no byte, and the check sum is that with two zeros behind the bytes.
pub fn with_byte(sum: u16, byte: u8) -> u16
    ensures { result ≡ with_one_byte sum byte }
{
    let first = shifted_twice(shifted_twice(sum));
    shifted_twice(shifted_twice(first)) ^ u16::from(byte)
}

fn shifted_twice(sum: u16) -> u16
    ensures { result ≡ twice_shifted sum }
{
    shifted(shifted(sum))
}

/// The remainder with one bit more, a zero: twice the number, less the polynomial where it comes to 16 bits more.
#[tactic(auto, unfolding(crate::specs::Checksum::shifted))]
fn shifted(sum: u16) -> u16
    ensures { result ≡ shifted_once sum }
{
    if sum < 0x8000 {
        sum * 2
    } else {
        ((sum - 0x8000) * 2) ^ 0x1021
    }
}
