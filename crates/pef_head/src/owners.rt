//! Which libraries have a symbol. Each symbol must be in exactly one.
//!
//! The libraries may stand in any order and there may be millions of symbols, so a walk over the libraries
//! marks the symbols of one block at a time.
ghost use Rattle.std.specs.Prelude.{◌≡◌, ◌+◌, ◌-◌, ◌≤◌, ◌<◌, IfSome};
ghost use Rattle.pef_head.specs.PlacesClauses.{HasTables};
ghost use Rattle.pef_head.specs.Places.{symbols_end, symbols_start};
ghost use Rattle.pef_head.specs.inner.Owners.{IsFirstLost, Marked};
ghost use Rattle.pef_head.specs.Owners.{is_lost, owners};
ghost use Rattle.mix_bits.specs.Search.{least};

use crate::loader::Loader;
use crate::marks::Marks;
use crate::places::{symbols_end, symbols_start};

/// How many symbols are marked at a time.
const BLOCK: u32 = 65536;

/// Marks the symbols from `from` on that a library has, up to the first that is marked already. That one
/// is the new limit.
fn mark(marks: &mut Marks, bytes: &[u8], l: Loader, j: u32, from: u32, limit: u32) -> u32
    requires tables { HasTables bytes.now l }
    requires below { j < l.libraries }
    requires order { from ≤ limit }
    requires short { limit ≤ from + BLOCK }
    requires marked { Marked bytes.now l j from limit marks.old }
    ensures marked { Marked bytes.now l (j + 1) from result marks.new }
    ensures low { from ≤ result }
    ensures high { result ≤ limit }
    ensures twice { result < limit → 2 ≤ owners bytes.now l (j + 1) result }
{
    let first = symbols_start(bytes, l, j).max(from);
    let end = symbols_end(bytes, l, j).min(limit as u64) as u32;
    for i in first..end {
        let place = (i - from) as u16;
        if marks.is_set(place) {
            return i;
        }
        marks.set(place);
    }
    limit
}

/// The first symbol of a block that is not in one library, by the marks below the limit and the fact that
/// a symbol at a limit before the block's end is in two.
fn first_lost(marks: &Marks, bytes: &[u8], l: Loader, from: u32, to: u32, limit: u32) -> Option<u32>
    requires low { from ≤ limit }
    requires high { limit ≤ to }
    requires short { to ≤ from + BLOCK }
    requires marked { Marked bytes.now l l.libraries from limit marks.now }
    requires twice { limit < to → 2 ≤ owners bytes.now l l.libraries limit }
    ensures { IsFirstLost bytes.now l from to result }
{
    for i in from..limit {
        if !marks.is_set((i - from) as u16) {
            return Some(i);
        }
    }
    if limit < to { Some(limit) } else { None }
}

/// The first symbol of a block that is not in one library.
fn lost_in(bytes: &[u8], l: Loader, from: u32, to: u32) -> Option<u32>
    requires tables { HasTables bytes.now l }
    requires low { from ≤ to }
    requires short { to ≤ from + BLOCK }
    ensures { IsFirstLost bytes.now l from to result }
{
    let mut marks = Marks::none();
    let mut limit = to;
    for j in 0..l.libraries {
        limit = mark(&mut marks, bytes, l, j, from, limit);
    }
    first_lost(&marks, bytes, l, from, to, limit)
}

/// The first symbol that is not in one library.
pub fn lost_symbol(bytes: &[u8], l: Loader) -> Option<u32>
    requires { HasTables bytes.now l }
    ensures is { result ≡ least (is_lost bytes.now l) l.symbols }
    ensures below { IfSome result (λ i. i < l.symbols) }
{
    let mut from = 0;
    while from < l.symbols {
        let to = l.symbols.min(from + BLOCK);
        if let Some(i) = lost_in(bytes, l, from, to) {
            return Some(i);
        }
        from = to;
    }
    None
}
