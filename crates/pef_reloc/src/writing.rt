// Writing a piece.
ghost use Rattle.std.specs.Prelude.{◌≡◌, ℕ, suc, ◌+◌, ◌*◌, ◌^◌, ◌<◌, ◌≤◌, List, length, replicate, take};
ghost use Rattle.mix_bits.specs.declared.file.TheConstants.{MOST_BYTES};
ghost use Rattle.pef_reloc.specs.Lists.{times};
ghost use Rattle.big_memory.specs.Lists.{put};
ghost use Rattle.pef_reloc.specs.inner.Pieces.{AreWhole, IsSmall, bytes_of, mixed};

use crate::piece::{Parts, Piece};

/// How many bytes a piece has.
#[tactic(auto, using(crate::proofs::Written::length_zeros))]
pub fn size_of(piece: Piece) -> u64
    requires { IsSmall piece }
    ensures { result ≡ length (bytes_of piece.entry) }
{
    match piece {
        Piece::Zeros(n) => u64::from(n),
        Piece::Block(block) => block.len() as u64,
        Piece::Again(block, further) => again_size(block, further),
        Piece::Mixed(common, parts) => mixed_size(common.len() as u64, parts),
        Piece::MixedZeros(n, parts) => mixed_size(u64::from(n), parts),
    }
}

#[tactic(auto, using(crate::proofs::Written::length_again))]
fn again_size(block: &[u8], further: u32) -> u64
    requires { length block.now ≤ MOST_BYTES }
    ensures { result ≡ length (times (suc further) block.now) }
{
    block.len() as u64 * (u64::from(further) + 1)
}

#[tactic(auto, using(crate::proofs::Written::length_mixed))]
fn mixed_size(common: u64, parts: Parts) -> u64
    requires whole { AreWhole parts }
    requires small { common < 2 ^ 32 }
    ensures { (block : List ℕ) → length block ≡ common → result ≡ length (mixed block parts.entry) }
{
    common + (parts.bytes.len() as u64 + u64::from(parts.count) * common)
}

/// Fills `to` with a piece of its size.
fn fill_piece(to: &mut [u8], piece: Piece)
    requires small { IsSmall piece }
    requires room { length to.old ≡ length (bytes_of piece) }
    ensures { to.new ≡ bytes_of piece.entry }
{
    match piece {
        Piece::Zeros(_) => to.fill(0),
        Piece::Block(block) => to.copy_from_slice(block),
        Piece::Again(block, further) => write_again(to, block, further),
        Piece::Mixed(common, parts) => write_mixed(to, common, parts),
        Piece::MixedZeros(n, parts) => write_mixed_zeros(to, n as usize, parts),
    }
}

/// Writes a piece of this size at a place.
pub fn write_piece(to: &mut [u8], at: usize, size: usize, piece: Piece)
    requires small { IsSmall piece }
    requires whole { size ≡ length (bytes_of piece) }
    requires room { at + size ≤ length to.old }
    ensures { to.new ≡ put at (bytes_of piece.entry) to.old }
{
    fill_piece(&mut to[at..at + size], piece);
}

/// Writes a block at a place.
fn write_block(to: &mut [u8], at: usize, block: &[u8])
    requires { at + length block.now ≤ length to.old }
    ensures { to.new ≡ put at block.now to.old }
{
    to[at..at + block.len()].copy_from_slice(block);
}

/// Writes `n` zeros in front.
fn write_zeros(to: &mut [u8], n: usize)
    requires { n ≤ length to.old }
    ensures { to.new ≡ put 0 (replicate n 0) to.old }
{
    to[..n].fill(0);
}

/// Writes the first `n` bytes at another place, too.
fn write_front(to: &mut [u8], at: usize, n: usize)
    requires { at + n ≤ length to.old }
    ensures { to.new ≡ put at (take n to.old) to.old }
{
    to.copy_within(..n, at);
}

/// Fills `to` with a block again and again.
fn write_again(to: &mut [u8], block: &[u8], further: u32)
    requires { length to.old ≡ length (times (suc further) block.now) }
    ensures { to.new ≡ times (suc further) block.now }
{
    if to.is_empty() {
        return;
    }
    let turns = u64::from(further) + 1;
    let mut at = 0;
    for _turn in 0..turns {
        write_block(to, at, block);
        at += block.len();
    }
}

/// Fills `to` with a common block, and the parts with the common block behind each.
fn write_mixed(to: &mut [u8], common: &[u8], parts: Parts)
    requires whole { AreWhole parts }
    requires room { length to.old ≡ length (mixed common.now parts) }
    ensures { to.new ≡ mixed common.now parts.entry }
{
    write_block(to, 0, common);
    write_parts(to, common.len(), parts);
}

/// The same with zeros as the common block.
fn write_mixed_zeros(to: &mut [u8], zeros: usize, parts: Parts)
    requires whole { AreWhole parts }
    requires room { length to.old ≡ length (mixed (replicate zeros 0) parts) }
    ensures { to.new ≡ mixed (replicate zeros 0) parts.entry }
{
    write_zeros(to, zeros);
    write_parts(to, zeros, parts);
}

/// Writes the parts behind the common block that `to` begins with, and that block behind each.
fn write_parts(to: &mut [u8], common: usize, parts: Parts)
    requires whole { AreWhole parts }
    requires room { length to.old ≡ length (mixed (take common to.old) parts) }
    requires front { common ≤ length to.old }
    ensures { to.new ≡ mixed (take common to.old) parts.entry }
{
    if to.is_empty() {
        return;
    }
    let size = parts.size as usize;
    let mut at = common;
    let mut rest = parts.bytes;
    for _part in 0..parts.count {
        let (part, behind) = rest.split_at(size);
        write_block(to, at, part);
        write_front(to, at + size, common);
        at += size + common;
        rest = behind;
    }
}
