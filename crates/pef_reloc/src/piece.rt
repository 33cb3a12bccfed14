// What an instruction of pattern data writes.
ghost use Rattle.std.specs.Prelude.{◌≡◌, ◌<◌, ◌≤◌, length, IfSome};
ghost use Rattle.mix_bits.specs.declared.file.TheConstants.{MOST_BYTES};
ghost use Rattle.std.specs.Option.{option_map};
ghost use Rattle.pef_reloc.specs.Pattern.{bytes_in, mixed_in, mixed_zeros_in, opcode_in, repeated_in, with_rest};
ghost use Rattle.pef_reloc.specs.PatternClauses.{piece_in};
ghost use Rattle.pef_reloc.specs.inner.Pieces.{IsSmall, bytes_of};

use crate::number::{read_count, read_number};

/// The custom parts of an interleaved block, each of one size.
#[derive(Clone, Copy)]
pub struct Parts<'a> {
    pub size: u32,
    pub count: u32,
    pub bytes: &'a [u8],
}

/// What an instruction writes.
#[derive(Clone, Copy)]
pub enum Piece<'a> {
    /// So many zeros.
    Zeros(u32),
    /// A block.
    Block(&'a [u8]),
    /// A block, and how many further times it is written.
    Again(&'a [u8], u32),
    /// A common block, and then each part with the common block behind it.
    Mixed(&'a [u8], Parts<'a>),
    /// The same with so many zeros as the common block.
    MixedZeros(u32, Parts<'a>),
}

/// A piece, and the pattern data behind its instruction.
type Read<'a> = (Piece<'a>, &'a [u8]);

/// The first bytes, and those behind them.
fn read_bytes(n: u64, from: &[u8]) -> Option<(&[u8], &[u8])>
    ensures is { option_map (λ read. with_rest read.0.now read.1.now) result ≡ bytes_in n from.now }
    ensures whole { IfSome result (λ read. length read.0.now ≡ n) }
    ensures part { IfSome result (λ read. length read.0.now ≤ length from.now) }
    ensures less { IfSome result (λ read. length read.1.now ≤ length from.now) }
{
    if n <= from.len() as u64 {
        Some(from.split_at(n as usize))
    } else {
        None
    }
}

fn read_block(count: u32, from: &[u8]) -> Option<Read<'_>>
    requires { length from.now < MOST_BYTES }
    ensures is { option_map (λ read. with_rest (bytes_of read.0) read.1.now) result ≡ bytes_in count from.now }
    ensures small { IfSome result (λ read. IsSmall read.0) }
    ensures less { IfSome result (λ read. length read.1.now ≤ length from.now) }
{
    let (block, rest) = read_bytes(u64::from(count), from)?;
    Some((Piece::Block(block), rest))
}

fn read_again(count: u32, from: &[u8]) -> Option<Read<'_>>
    requires { length from.now < MOST_BYTES }
    ensures is { option_map (λ read. with_rest (bytes_of read.0) read.1.now) result ≡ repeated_in count from.now }
    ensures small { IfSome result (λ read. IsSmall read.0) }
    ensures less { IfSome result (λ read. length read.1.now ≤ length from.now) }
{
    let (further, behind) = read_number(from)?;
    let (block, rest) = read_bytes(u64::from(count), behind)?;
    Some((Piece::Again(block, further), rest))
}

fn read_mixed(common: u32, from: &[u8]) -> Option<Read<'_>>
    requires { length from.now < MOST_BYTES }
    ensures is { option_map (λ read. with_rest (bytes_of read.0) read.1.now) result ≡ mixed_in common from.now }
    ensures small { IfSome result (λ read. IsSmall read.0) }
    ensures less { IfSome result (λ read. length read.1.now ≤ length from.now) }
{
    let (size, behind) = read_number(from)?;
    let (count, blocks) = read_number(behind)?;
    let (block, behind) = read_bytes(u64::from(common), blocks)?;
    let (bytes, rest) = read_bytes(u64::from(count) * u64::from(size), behind)?;
    Some((Piece::Mixed(block, Parts { size, count, bytes }), rest))
}

fn read_mixed_zeros(common: u32, from: &[u8]) -> Option<Read<'_>>
    requires { length from.now < MOST_BYTES }
    ensures is { option_map (λ read. with_rest (bytes_of read.0) read.1.now) result ≡ mixed_zeros_in common from.now }
    ensures small { IfSome result (λ read. IsSmall read.0) }
    ensures less { IfSome result (λ read. length read.1.now ≤ length from.now) }
{
    let (size, behind) = read_number(from)?;
    let (count, behind) = read_number(behind)?;
    let (bytes, rest) = read_bytes(u64::from(count) * u64::from(size), behind)?;
    Some((
        Piece::MixedZeros(common, Parts { size, count, bytes }),
        rest,
    ))
}

fn read_opcode(opcode: u8, count: u32, from: &[u8]) -> Option<Read<'_>>
    requires { length from.now < MOST_BYTES }
    ensures is { option_map (λ read. with_rest (bytes_of read.0) read.1.now) result ≡ opcode_in opcode count from.now }
    ensures small { IfSome result (λ read. IsSmall read.0) }
    ensures less { IfSome result (λ read. length read.1.now ≤ length from.now) }
{
    match opcode {
        0 => Some((Piece::Zeros(count), from)),
        1 => read_block(count, from),
        2 => read_again(count, from),
        3 => read_mixed(count, from),
        4 => read_mixed_zeros(count, from),
        _ => None,
    }
}

/// What the first instruction writes, and the pattern data behind it.
pub fn read_piece(from: &[u8]) -> Option<Read<'_>>
    requires { length from.now ≤ MOST_BYTES }
    ensures is { option_map (λ read. with_rest (bytes_of read.0) read.1.now) result ≡ piece_in from.now }
    ensures small { IfSome result (λ read. IsSmall read.0) }
    ensures less { IfSome result (λ read. length read.1.now < length from.now) }
{
    let [byte, rest @ ..] = from else {
        return None;
    };
    let (count, behind) = read_count(*byte, rest)?;
    read_opcode(*byte / 32, count, behind)
}
