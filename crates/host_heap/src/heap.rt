//! The heap's own calls: each keeps its blocks in it, apart, in order of address and at multiples of 8.
ghost use Rattle.std.specs.Prelude.{◌≡◌, ◌<◌, ◌≤◌, ◌+◌, ◌%◌, ◌^◌, [], IfOk, IfSome, IfNone, length};
ghost use Rattle.std.specs.Bool.{OnFalse, OnTrue};
ghost use Rattle.host_heap.specs.Space.{Space};
ghost use Rattle.host_heap.specs.PlaceClauses.{IsBlockAt, IsPlace};
ghost use Rattle.host_heap.specs.Place.{place_for, can_append, can_place, placed, taken, begins_at, freed};
ghost use Rattle.host_heap.specs.Sound.{IsSound};

use crate::block::Block;
use crate::blocks::{add, can_append, can_place, lowest_fit, remove, rounded};
use mix_bits::NoMemory;
use std::alloc::Global;
use std::marker::Model;

/// How many blocks a heap holds at the most.
pub const BLOCK_LIMIT: usize = 4096;

/// A range of addresses and the blocks of it that are in use. Contracts see its bounds and the list of its blocks.
#[derive(Drop)]
pub struct Heap {
    low: u32,
    high: u32,
    blocks: Vec<Block>,
}

impl Model for Heap {
    ghost use Rattle.std.specs.Prelude.{◌≤◌, vec_capacity};
    ghost use Rattle.host_heap.specs.Space.{Space, block_limit};
    ghost use Rattle.host_heap.specs.Sound.{IsSound};

    ghost Value = { Space };

    ghost view = { λ h. record { low = h.low; high = h.high; blocks = h.blocks.items } };

    ghost invariant = { λ h. IsSound (record { low = h.low; high = h.high; blocks = h.blocks.items }) × (block_limit ≤ vec_capacity h.blocks) };
}

impl Heap {
    /// A heap with no block, from `lo` up to but without `hi`. It reserves the room for all blocks that it may ever hold.
    pub fn new(alloc: Global, lo: u32, hi: u32) -> Result<Heap, NoMemory>
        requires low { lo % 16 ≡ 0 }
        requires high { hi % 16 ≡ 0 }
        requires order { lo ≤ hi }
        ensures { IfOk result (λ heap. heap ≡ record { low = lo; high = hi; blocks = [] }) }
    {
        Ok(Heap {
            low: lo,
            high: hi,
            blocks: Vec::with_capacity(alloc, BLOCK_LIMIT)?,
        })
    }

    /// Makes a block of `size` bytes, rounded up to a multiple of 8 and at least 8, at the lowest address that has room for it.
    pub fn get(&mut self, size: u32) -> Option<u32>
        ensures place { IsPlace self.old size result }
        ensures value { result ≡ place_for self.old size }
        ensures after { self.new ≡ taken self.old size }

        ensures aligned { IfSome result (λ address. address % 8 ≡ 0) }
        ensures unchanged { IfNone result (self.new ≡ self.old) }
    {
        if self.blocks.len() == BLOCK_LIMIT {
            return None;
        }
        let rounded_size = rounded(size);
        let address = lowest_fit(&self.blocks, self.low, self.high, rounded_size)?;
        let block = Block {
            address,
            size: rounded_size as u32,
        };
        add(&mut self.blocks, block);
        Some(address)
    }

    /// Makes a block of exactly `size` bytes at the address `a`, and says whether it may stand there: the address and the size
    /// are multiples of 8, the size is not 0, the bytes lie in the heap and meet no block, and there is room for one more block.
    pub fn place(&mut self, a: u32, size: u32) -> bool
        ensures exact { result ≡ can_place self.old size a }
        ensures after { OnTrue result (self.new ≡ placed self.old size a) }
        ensures unchanged { OnFalse result (self.new ≡ self.old) }
        ensures within { OnTrue result (a + size < 2 ^ 32) }
    {
        let possible = can_place(&self.blocks, self.low, self.high, size, a);
        if possible {
            add(&mut self.blocks, Block { address: a, size });
            true
        } else {
            false
        }
    }

    /// The same behind all other blocks alone, of which it looks only at the last one.
    pub fn append(&mut self, a: u32, size: u32) -> bool
        ensures exact { result ≡ can_append self.old size a }
        ensures after { OnTrue result (self.new ≡ placed self.old size a) }
        ensures unchanged { OnFalse result (self.new ≡ self.old) }
    {
        let possible = can_append(&self.blocks, self.low, self.high, size, a);
        if possible {
            add(&mut self.blocks, Block { address: a, size });
            true
        } else {
            false
        }
    }

    /// Gives up the block that begins at the address `a`, and says whether there was one.
    pub fn free(&mut self, a: u32) -> bool
        ensures found { result ≡ begins_at self.old.blocks a }
        ensures after { self.new ≡ freed self.old a }
        ensures unchanged { OnFalse result (self.new ≡ self.old) }
    {
        remove(&mut self.blocks, a)
    }

    /// The heap's first address, and the one behind its last.
    pub fn bounds(&self) -> (u32, u32)
        ensures { result ≡ (self.now.low, self.now.high) }
    {
        (self.low, self.high)
    }

    /// How many blocks are in use.
    pub fn count(&self) -> u32
        ensures { result ≡ length self.now.blocks }
    {
        self.blocks.len() as u32
    }

    /// The address and the size of block `k`, in order of address from 0 on.
    pub fn block(&self, k: u32) -> (u32, u32)
        requires { k < length self.now.blocks }
        ensures { IsBlockAt self.now.blocks k result }
    {
        let block = &self.blocks[k as usize];
        (block.address, block.size)
    }

    /// The blocks in use, in order of address.
    pub fn blocks(&self) -> &[Block]
        ensures { result.now ≡ self.now.blocks }
    {
        &self.blocks
    }

    /// What holds of every heap: its blocks lie in it, apart, in order of address, at multiples of 8, and are at most 4096.
    pub fn every_heap_is_sound(&self)
        ensures { IsSound self.now }
    {
        let _low = &self.low;
    }
}
