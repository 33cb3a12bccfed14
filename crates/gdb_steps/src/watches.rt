// Ranges of memory whose bytes are watched.
ghost use Rattle.std.specs.Prelude.{◌≡◌, ◌==◌, ◌&&◌, ◌++◌, ◌∷◌, [], All, IfOk, filter, bytes_eq, if◌then◌else◌, length, map, nat_le, nat_lt, not, vec_capacity, vec_len};
ghost use Rattle.std.specs.List.{list_any};
ghost use Rattle.big_memory.specs.Lists.{part};
ghost use Rattle.gdb_steps.specs.Points.{Range, is_same_range, range_of};
ghost use Rattle.gdb_steps.specs.inner.Looks.{HasSeen, first_unlike};

use crate::watch::{BYTES, Watch};
use arrayvec::ArrayVec;
use mix_bits::NoMemory;
use std::alloc::Global;
use std::marker::Model;

/// At most so many ranges are watched.
const MOST: usize = 16;

impl Watch {
    /// Sees the bytes that are there.
    fn look(&mut self, ram: &[u8])
        ensures range { range_of self.new ≡ range_of self.old }
        ensures seen { HasSeen ram.now self.new }
    {
        self.seen.clear();
        let _ = self
            .seen
            .try_extend_from_slice(part(ram, self.at, self.count));
    }

    /// Whether it is this range.
    #[inline(always)]
    fn is(&self, at: u32, count: u32) -> bool
        ensures { result ≡ is_same_range (record { at = at; count = count }) (range_of self.now) }
    {
        self.at == at && self.count == count
    }

    /// Whether other bytes are there than were seen.
    #[inline(always)]
    fn is_changed(&self, ram: &[u8]) -> bool
        ensures { result ≡ not (bytes_eq self.now.seen.items (part self.now.at self.now.count ram.now)) }
    {
        self.seen.as_slice() != part(ram, self.at, self.count)
    }
}

/// The bytes of a range that lie in memory.
#[inline(always)]
fn part(ram: &[u8], at: u32, count: u32) -> &[u8]
    ensures { result.now ≡ part at count ram.now }
{
    let low = ram.len().min(at as usize);
    let high = ram.len().min(at as usize + count as usize);
    &ram[low..high]
}

/// The ranges that are watched, in the order in which they were set.
#[derive(Drop)]
pub struct Watches {
    list: Vec<Watch>,
}

impl Model for Watches {
    ghost use Rattle.std.specs.Prelude.{◌≤◌, List, vec_capacity, vec_len};
    ghost use Rattle.gdb_steps.specs.declared.watch.Watch.{Watch};

    ghost Value = { List Watch };

    ghost view = { λ w. w.list.items };

    ghost invariant = { λ w. (16 ≤ vec_capacity w.list) × (vec_len w.list ≤ 16) };
}

impl Watches {
    /// No range.
    pub fn new(alloc: Global) -> Result<Watches, NoMemory>
        ensures { IfOk result (λ w. w ≡ []) }
    {
        Ok(Watches {
            list: Vec::with_capacity(alloc, MOST)?,
        })
    }

    /// Sees the bytes of all ranges.
    pub fn look(&mut self, ram: &[u8])
        ensures ranges { map range_of self.new ≡ map range_of self.old }
        ensures seen { All (HasSeen ram.now) self.new }
    {
        for watch in self.list.iter_mut() {
            watch.look(ram);
        }
    }

    /// The address of the first range that has other bytes now than were seen.
    #[inline(always)]
    pub fn changed(&self, ram: &[u8]) -> Option<u32>
        ensures { result ≡ first_unlike self.now ram.now }
    {
        for watch in &self.list {
            if watch.is_changed(ram) {
                return Some(watch.at);
            }
        }
        None
    }

    /// Watches a range of 1 to 64 bytes. It is false, and all stays as it is, for another count, where the range is
    /// watched already, or where 16 are.
    pub fn set(&mut self, at: u32, count: u32) -> bool
        ensures exact { result ≡ (nat_le 1 count && (nat_le count 64 && (not (list_any (is_same_range (record { at = at; count = count })) (map range_of self.old)) && nat_lt (length self.old) 16))) }
        ensures after { map range_of self.new ≡ (if result then map range_of self.old ++ record { at = at; count = count } ∷ [] else map range_of self.old) }
    {
        if count == 0 || count > BYTES as u32 || self.has(at, count) || self.list.len() == MOST {
            return false;
        }
        self.list.push_reserved(Watch {
            at,
            count,
            seen: ArrayVec::new(),
        });
        true
    }

    /// Watches it no more. It is false where it is not watched.
    pub fn clear(&mut self, at: u32, count: u32) -> bool
        ensures exact { result ≡ list_any (is_same_range (record { at = at; count = count })) (map range_of self.old) }
        ensures after { map range_of self.new ≡ filter (λ r. not (is_same_range (record { at = at; count = count }) r)) (map range_of self.old) }
    {
        let found = self.has(at, count);
        self.list.retain(|watch| !watch.is(at, count));
        found
    }

    /// Whether a range is watched.
    fn has(&self, at: u32, count: u32) -> bool
        ensures { result ≡ list_any (is_same_range (record { at = at; count = count })) (map range_of self.now) }
    {
        is_among(&self.list, at, count)
    }
}

/// Whether a range is one of these.
fn is_among(list: &[Watch], at: u32, count: u32) -> bool
    ensures { result ≡ list_any (λ w. is_same_range (record { at = at; count = count }) (range_of w)) list.now }
{
    list.iter().any(|watch| watch.is(at, count))
}
