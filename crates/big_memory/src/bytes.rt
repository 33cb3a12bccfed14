// Numbers and pieces in a list of bytes.
ghost use Rattle.std.specs.Prelude.{◌≡◌, ◌+◌, ◌*◌, ◌<◌, ◌≤◌, length, replicate};
ghost use Rattle.byteorder.specs.Endian.{big_bytes};
ghost use Rattle.mix_bits.specs.Sizes.{bytes_of, modulus};
ghost use Rattle.big_memory.specs.Lists.{part, put};
ghost use Rattle.big_memory.specs.Numbers.{AreBytes, bytes_of_longs, longs_at, number_at};

use byteorder::{BigEndian, ByteOrder};
use mix_bits::Size;

/// The number in the bytes from `at` on, the most significant byte first.
#[inline(always)]
pub fn read_number(bytes: &[u8], at: usize, s: Size) -> u32
    requires { at + bytes_of s ≤ length bytes.now }
    ensures is { result ≡ number_at at (bytes_of s) bytes.now }
    ensures fits { result < modulus s }
{
    match s {
        Size::Zero => 0,
        Size::One => u32::from(bytes[at]),
        Size::Two => u32::from(BigEndian::read_u16(&bytes[at..at + 2])),
        Size::Four => BigEndian::read_u32(&bytes[at..at + 4]),
    }
}

/// Writes the low bytes of `v` from `at` on, the most significant byte first.
#[inline(always)]
pub fn write_number(bytes: &mut [u8], at: usize, s: Size, v: u32)
    requires { at + bytes_of s ≤ length bytes.old }
    ensures { bytes.new ≡ put at (big_bytes (bytes_of s) v) bytes.old }
{
    match s {
        Size::Zero => {}
        Size::One => bytes[at] = (v & 0xFF) as u8,
        Size::Two => BigEndian::write_u16(&mut bytes[at..at + 2], (v & 0xFFFF) as u16),
        Size::Four => BigEndian::write_u32(&mut bytes[at..at + 4], v),
    }
}

/// Writes a piece from `at` on.
pub fn write_piece(bytes: &mut [u8], at: usize, piece: &[u8])
    requires { at + length piece.now ≤ length bytes.old }
    ensures { bytes.new ≡ put at piece.now bytes.old }
{
    bytes[at..at + piece.len()].copy_from_slice(piece);
}

/// Writes `n` zeros from `at` on.
pub fn zero(bytes: &mut [u8], at: usize, n: usize)
    requires { at + n ≤ length bytes.old }
    ensures { bytes.new ≡ put at (replicate n 0) bytes.old }
{
    bytes[at..at + n].fill(0);
}

/// Copies `n` bytes to another place, also where the two overlap.
pub fn copy(bytes: &mut [u8], from: usize, to: usize, n: usize)
    requires source { from + n ≤ length bytes.old }
    requires place { to + n ≤ length bytes.old }
    ensures { bytes.new ≡ put to (part from n bytes.old) bytes.old }
{
    bytes.copy_within(from..from + n, to);
}

/// Reads as many longs from `at` on as there is place for.
#[inline(always)]
pub fn read_longs(bytes: &[u8], at: usize, to: &mut [u32])
    requires { at + 4 * length to.old ≤ length bytes.now }
    ensures longs { to.new ≡ longs_at (length to.old) at bytes.now }
    ensures len { length to.new ≡ length to.old }
{
    BigEndian::read_u32_into(&bytes[at..at + 4 * to.len()], to);
}

/// Writes longs one after another from `at` on.
#[inline(always)]
#[tactic(auto, unfolding(crate::specs::Numbers::bytes_of_longs))]
pub fn write_longs(bytes: &mut [u8], at: usize, longs: &[u32])
    requires { at + 4 * length longs.now ≤ length bytes.old }
    ensures { bytes.new ≡ put at (bytes_of_longs longs.now) bytes.old }
{
    BigEndian::write_u32_into(longs, &mut bytes[at..at + 4 * longs.len()]);
}

/// What every slice of bytes meets. It does nothing: the clause is its point.
#[inline(always)]
pub fn are_bytes(bytes: &[u8])
    ensures { AreBytes bytes.now }
{}
