// What a step changed, found beside a copy of what stood before it.
ghost use Rattle.std.specs.Prelude.{◌≡◌, ◌+◌, ◌<◌, ◌≤◌, length};
ghost use Rattle.std.specs.Bool.{OnTrue};
ghost use Rattle.big_memory.specs.Lists.{part};
ghost use Rattle.mix_debug.specs.inner.WrittenBack.{Covers};
ghost use Rattle.mix_reach.specs.laws.Ranges.{Beside};
ghost use Rattle.mix_debug.specs.inner.Entries.{block_between, first_other, frame_between};
ghost use Rattle.mix_debug.specs.inner.Reaches.{stored_in as stored_in_of};

use crate::head::{BlockChange, FrameChange};
use host_heap::Block;
use mix_bits::Isa;
use mix_reach::{Reach, Stores, makes_frame, step_reach};
use switch_frame::{Active, frame_size};

/// How many bytes are compared at once in a large range.
const PIECE: usize = 1024;

/// How many bytes are compared at once in any other.
const WORD: usize = 8;

/// A range of bytes outside which none has changed.
#[derive(Clone, Copy)]
pub struct Range {
    pub low: usize,
    pub high: usize,
}

/// Where a step stored: in the block that it made, or by what was told before it, where the innermost frame began before
/// and after it, and the registers after it.
pub fn stored_in(change: BlockChange, next: Stores, old: u32, new: u32, active: &Active) -> Reach
    ensures { result ≡ stored_in_of change next old new active.now }
{
    match change {
        BlockChange::Made(block) => {
            let low = block.address as usize;
            Reach {
                low,
                high: low + next.filled as usize,
            }
        }
        _ => step_reach(next, old, new, active),
    }
}

/// The part of a reach that lies in memory.
pub fn in_memory(reach: Reach, old: &[u8], new: &[u8]) -> Range
    requires { Beside reach old.now new.now }
    ensures { Covers result.low result.high old.now new.now }
{
    let high = reach.high.min(new.len());
    Range {
        low: reach.low.min(high),
        high,
    }
}

/// The range without the pieces at both ends in which no byte has changed.
#[inline(always)]
pub fn narrowed(old: &[u8], new: &[u8], range: Range) -> Range
    requires { Covers range.low range.high old.now new.now }
    ensures { Covers result.low result.high old.now new.now }
{
    if range.high - range.low < WORD {
        range
    } else {
        without_same(old, new, range)
    }
}

/// The same where the range has a word at least.
#[inline(never)]
fn without_same(old: &[u8], new: &[u8], range: Range) -> Range
    requires { Covers range.low range.high old.now new.now }
    ensures { Covers result.low result.high old.now new.now }
{
    let large = without_pieces(old, new, range, PIECE);
    without_pieces(old, new, large, WORD)
}

/// The range without the pieces of a size in which no byte has changed.
#[inline(always)]
fn without_pieces(old: &[u8], new: &[u8], range: Range, size: usize) -> Range
    requires covers { Covers range.low range.high old.now new.now }
    requires some { 0 < size }
    ensures { Covers result.low result.high old.now new.now }
{
    let low = skip_front(old, new, range, size);
    let high = skip_back(old, new, Range { low, ..range }, size);
    Range { low, high }
}

/// Where the first piece begins that has changed.
#[inline(always)]
fn skip_front(old: &[u8], new: &[u8], range: Range, size: usize) -> usize
    requires covers { Covers range.low range.high old.now new.now }
    requires some { 0 < size }
    ensures { Covers result range.high old.now new.now }
{
    let mut low = range.low;
    'front: while size <= range.high - low && is_same(old, new, low, size) {
        low += size;
    }
    low
}

/// Where the last piece ends that has changed.
#[inline(always)]
fn skip_back(old: &[u8], new: &[u8], range: Range, size: usize) -> usize
    requires covers { Covers range.low range.high old.now new.now }
    requires some { 0 < size }
    ensures { Covers range.low result old.now new.now }
{
    let mut high = range.high;
    'back: while size <= high - range.low && is_same(old, new, high - size, size) {
        high -= size;
    }
    high
}

/// Whether the piece at an address is the same in both lists.
#[inline(always)]
fn is_same(old: &[u8], new: &[u8], at: usize, size: usize) -> bool
    requires old_long { at + size ≤ length old.now }
    requires new_long { at + size ≤ length new.now }
    ensures { OnTrue result (part at size old.now ≡ part at size new.now) }
{
    &old[at..at + size] == &new[at..at + size]
}

/// What a step did to the frames, from where the innermost one began before and after it, and from the
/// sets that were active.
pub fn frame_between(old: u32, new: u32, old_set: Isa, new_set: Isa) -> FrameChange
    requires old_small { old ≤ 16777216 }
    requires new_small { new ≤ 16777216 }
    ensures { result ≡ frame_between old new old_set new_set }
{
    if new == old {
        FrameChange::Stays
    } else if makes_frame(old, new) {
        FrameChange::Made {
            lo: new,
            hi: new + frame_size(old_set),
        }
    } else {
        FrameChange::GivenUp {
            lo: old,
            hi: old + frame_size(new_set),
        }
    }
}

/// What a step did to the blocks of the heap.
pub fn block_between(old: &[Block], new: &[Block]) -> BlockChange
    ensures { result ≡ block_between old.now new.now }
{
    if new.len() == old.len() {
        BlockChange::Stays
    } else if old.len() < new.len() {
        first_other(new, old).map_or(BlockChange::Stays, BlockChange::Made)
    } else {
        first_other(old, new).map_or(BlockChange::Stays, BlockChange::Freed)
    }
}

/// The first block that does not begin at the same address as the one at its place in another list.
fn first_other(blocks: &[Block], others: &[Block]) -> Option<Block>
    ensures { result ≡ first_other blocks.now others.now }
{
    let mut at = 0;
    'same: while at < blocks.len() {
        if others.len() <= at {
            return Some(blocks[at]);
        }
        if blocks[at].address != others[at].address {
            return Some(blocks[at]);
        }
        at += 1;
    }
    None
}
