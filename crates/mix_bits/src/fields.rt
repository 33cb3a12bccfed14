// The fields of Macintosh files, as of resource forks and PEF containers: big-endian numbers, each read at the place of
// its first byte in the file.
ghost use Rattle.std.specs.Prelude.{◌≡◌, ◌+◌, ◌≤◌, length};
ghost use Rattle.mix_bits.specs.Fields.{long_at, three_at, word_at};

use byteorder::{BigEndian, ByteOrder};

/// The number in two bytes.
pub fn word_at(bytes: &[u8], place: u32) -> u16
    requires { place + 2 ≤ length bytes.now }
    ensures { result ≡ word_at bytes.now place }
{
    let start = place as usize;
    BigEndian::read_u16(&bytes[start..start + 2])
}

/// The number in three bytes.
pub fn three_at(bytes: &[u8], place: u32) -> u32
    requires { place + 3 ≤ length bytes.now }
    ensures { result ≡ three_at bytes.now place }
{
    let start = place as usize;
    BigEndian::read_u24(&bytes[start..start + 3])
}

/// The number in four bytes.
pub fn long_at(bytes: &[u8], place: u32) -> u32
    requires { place + 4 ≤ length bytes.now }
    ensures { result ≡ long_at bytes.now place }
{
    let start = place as usize;
    BigEndian::read_u32(&bytes[start..start + 4])
}
