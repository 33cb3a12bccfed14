// What is kept beside a machine: a copy of its memory and of its list of blocks, and the steps that can be taken back.
ghost use Rattle.std.specs.Prelude.{◌≡◌, ◌==◌, ◌<◌, ◌≤◌, ◌∷◌, [], IfOk, length, vec_capacity};
ghost use Rattle.host_heap.specs.Sound.{IsSound as IsSoundHeap};
ghost use Rattle.host_heap.specs.Space.{block_limit};
ghost use Rattle.mix_debug.specs.Entries.{Entry, heap_before, within};
ghost use Rattle.mix_debug.specs.Pasts.{IsPast, entries_in};
ghost use Rattle.mix_debug.specs.inner.Pasts.{Waits, ready_in};
ghost use Rattle.mix_debug.specs.Machines.{IsSound, before};
ghost use Rattle.mix_debug.specs.Histories.{IsHistory};
ghost use Rattle.mix_debug.specs.inner.Histories.{entry_of};
ghost use Rattle.mix_debug.specs.inner.Reaches.{SameBlocks, stored_in as stored_in_of};
ghost use Rattle.mix_reach.specs.laws.Ranges.{Beside};
ghost use Rattle.mix_debug.specs.inner.Entries.{block_between as block_between_of};

use crate::compare::{Range, block_between, frame_between, in_memory, narrowed, stored_in};
use crate::head::{BlockChange, FrameChange};
use crate::past::{Past, ROOM};
use crate::undo::{copy_range, undo_block, undo_frame};
use host_heap::{BLOCK_LIMIT, Block, Heap};
use mix_bits::NoMemory;
use mix_engine::Machine;
use mix_reach::{Reach, Stores};
use std::alloc::Global;
use switch_frame::Active;

/// What is kept beside a machine.
#[derive(Drop)]
pub struct History {
    /// The bytes of its memory.
    copy: Vec<u8>,
    /// The blocks of its heap.
    blocks: Vec<Block>,
    past: Past,
}

impl History {
    /// What is kept beside a machine before its first step.
    pub fn new(alloc: Global, machine: &Machine) -> Result<History, NoMemory>
        requires { IsSound machine.now }
        ensures history { IfOk result (IsHistory machine.now) }
        ensures empty { IfOk result (λ h. entries_in h.past ≡ []) }
    {
        let mut blocks = Vec::with_capacity(alloc, BLOCK_LIMIT)?;
        copy_blocks(&mut blocks, &machine.body.heap);
        Ok(History {
            copy: Vec::from_slice(alloc, machine.body.ram.bytes())?,
            blocks,
            past: Past::new(alloc, &machine.active)?,
        })
    }

    /// How many steps are kept.
    pub fn len(&self) -> u32
        requires { IsPast self.now.past }
        ensures { result ≡ length (entries_in self.now.past) }
    {
        self.past.len()
    }

    /// Whether none is kept.
    pub fn is_empty(&self) -> bool
        ensures { result ≡ (length (entries_in self.now.past) == 0) }
    {
        self.past.is_empty()
    }

    /// Writes the registers before a step, and where the innermost frame begins, where they are kept if it is done.
    #[inline(always)]
    pub fn prepare(&mut self, file: &Active, top: u32)
        requires { IsPast self.old.past }
        ensures past { IsPast self.new.past }
        ensures entries { entries_in self.new.past ≡ entries_in self.old.past }
        ensures beside { self.new ≡ record self.old { past = self.new.past } }
        ensures ready { ready_in self.new.past ≡ file.now }
        ensures waits { Waits self.new.past top }
    {
        self.past.prepare(file, top);
    }

    /// Keeps the step that led to a machine from the registers that were written and from the frame that began at `top`. What
    /// the step changed of memory is looked for where it stored.
    #[inline(always)]
    pub fn keep(&mut self, machine: &Machine, top: u32, next: &Stores)
        requires copied { length self.old.copy.items ≡ length machine.now.body.ram.bytes }
        requires stored { Beside (stored_in_of (block_between_of self.old.blocks.items machine.now.body.heap.blocks) next.now top machine.now.body.top machine.now.active)
            self.old.copy.items machine.now.body.ram.bytes }
        requires same_blocks { SameBlocks self.old.blocks.items machine.now.body.heap.blocks }
        requires room { block_limit ≤ vec_capacity self.old.blocks }
        requires past { IsPast self.old.past }
        requires waits { Waits self.old.past top }
        requires old_small { top ≤ 16777216 }
        requires new_small { machine.now.body.top ≤ 16777216 }
        ensures copied { self.new.copy.items ≡ machine.now.body.ram.bytes }
        ensures blocks { self.new.blocks.items ≡ machine.now.body.heap.blocks }
        ensures heap { IsSoundHeap machine.now.body.heap }
        ensures room { block_limit ≤ vec_capacity self.new.blocks }
        ensures past { IsPast self.new.past }
        ensures entries { entries_in self.new.past
            ≡ within ROOM (entry_of (ready_in self.old.past) top self.old.copy.items self.old.blocks.items machine.now ∷ entries_in self.old.past) }
    {
        let body = &machine.body;
        body.heap.every_heap_is_sound();
        let same_frames = body.top == top;
        let same_blocks = body.heap.blocks().len() == self.blocks.len();
        if same_frames & same_blocks {
            self.keep_stored(machine, top, next.reach);
        } else {
            self.keep_changes(machine, top, *next);
        }
    }

    /// The same for a step that left the frames and the blocks.
    #[inline(always)]
    fn keep_stored(&mut self, machine: &Machine, top: u32, reach: Reach)
        requires copied { length self.old.copy.items ≡ length machine.now.body.ram.bytes }
        requires stored { Beside reach self.old.copy.items machine.now.body.ram.bytes }
        requires blocks { self.old.blocks.items ≡ machine.now.body.heap.blocks }
        requires frames { machine.now.body.top ≡ top }
        requires past { IsPast self.old.past }
        requires waits { Waits self.old.past top }
        ensures copied { self.new.copy.items ≡ machine.now.body.ram.bytes }
        ensures blocks { self.new.blocks ≡ self.old.blocks }
        ensures past { IsPast self.new.past }
        ensures entries { entries_in self.new.past
            ≡ within ROOM (entry_of (ready_in self.old.past) top self.old.copy.items self.old.blocks.items machine.now ∷ entries_in self.old.past) }
    {
        if reach.low == reach.high {
            self.past.keep_still();
            return;
        }
        let bytes = machine.body.ram.bytes();
        let range = narrowed(&self.copy, bytes, in_memory(reach, &self.copy, bytes));
        self.past.keep(
            top,
            FrameChange::Stays,
            BlockChange::Stays,
            &self.copy,
            bytes,
            range.low,
            range.high,
        );
        copy_range(&mut self.copy, bytes, range.low, range.high);
    }

    /// The same for any step.
    #[inline(never)]
    fn keep_changes(&mut self, machine: &Machine, top: u32, next: Stores)
        requires copied { length self.old.copy.items ≡ length machine.now.body.ram.bytes }
        requires stored { Beside (stored_in_of (block_between_of self.old.blocks.items machine.now.body.heap.blocks) next top machine.now.body.top machine.now.active)
            self.old.copy.items machine.now.body.ram.bytes }
        requires same_blocks { SameBlocks self.old.blocks.items machine.now.body.heap.blocks }
        requires room { block_limit ≤ vec_capacity self.old.blocks }
        requires past { IsPast self.old.past }
        requires old_small { top ≤ 16777216 }
        requires new_small { machine.now.body.top ≤ 16777216 }
        ensures copied { self.new.copy.items ≡ machine.now.body.ram.bytes }
        ensures blocks { self.new.blocks.items ≡ machine.now.body.heap.blocks }
        ensures heap { IsSoundHeap machine.now.body.heap }
        ensures room { block_limit ≤ vec_capacity self.new.blocks }
        ensures past { IsPast self.new.past }
        ensures entries { entries_in self.new.past
            ≡ within ROOM (entry_of (ready_in self.old.past) top self.old.copy.items self.old.blocks.items machine.now ∷ entries_in self.old.past) }
    {
        let bytes = machine.body.ram.bytes();
        let block = block_between(&self.blocks, machine.body.heap.blocks());
        let reach = stored_in(block, next, top, machine.body.top, &machine.active);
        let range = narrowed(&self.copy, bytes, in_memory(reach, &self.copy, bytes));
        let set = self.past.ready_isa();
        let frame = frame_between(top, machine.body.top, set, machine.active.isa());
        self.past.keep(top, frame, block, &self.copy, bytes, range.low, range.high);
        copy_range(&mut self.copy, bytes, range.low, range.high);
        follow_blocks(&mut self.blocks, &machine.body.heap);
    }

    /// Takes the newest step back.
    pub fn undo(&mut self, machine: &mut Machine)
        requires history { IsHistory machine.old self.old }
        requires some { 0 < length (entries_in self.old.past) }
        ensures history { IsHistory machine.new self.new }
        ensures before { (e : Entry) × (entries_in self.old.past ≡ e ∷ entries_in self.new.past) × (machine.new ≡ before e machine.old) }
    {
        let head = self.past.take(&mut machine.body.ram, &mut self.copy);
        undo_frame(&mut machine.body.ram, head.frame);
        undo_blocks(&mut self.blocks, &mut machine.body.heap, head.block);
        machine.body.top = head.top;
        machine.active = head.file;
    }
}

/// Takes back what a step did to the blocks of a heap, and to the list of them.
fn undo_blocks(blocks: &mut Vec<Block>, heap: &mut Heap, change: BlockChange)
    requires same { blocks.old.items ≡ heap.old.blocks }
    requires room { block_limit ≤ vec_capacity blocks.old }
    ensures after { heap.new ≡ heap_before change heap.old }
    ensures blocks { blocks.new.items ≡ heap.new.blocks }
    ensures heap { IsSoundHeap heap.new }
    ensures room { block_limit ≤ vec_capacity blocks.new }
{
    heap.every_heap_is_sound();
    if let BlockChange::Stays = change {
        return;
    }
    undo_block(heap, change);
    copy_blocks(blocks, heap);
}

/// Makes a list of blocks that of a heap after one step: where there are as many, they are the same.
fn follow_blocks(blocks: &mut Vec<Block>, heap: &Heap)
    requires same { SameBlocks blocks.old.items heap.now.blocks }
    requires room { block_limit ≤ vec_capacity blocks.old }
    ensures blocks { blocks.new.items ≡ heap.now.blocks }
    ensures heap { IsSoundHeap heap.now }
    ensures room { block_limit ≤ vec_capacity blocks.new }
{
    heap.every_heap_is_sound();
    if blocks.len() != heap.blocks().len() {
        copy_blocks(blocks, heap);
    }
}

/// Makes a list of blocks that of a heap.
fn copy_blocks(blocks: &mut Vec<Block>, heap: &Heap)
    requires { block_limit ≤ vec_capacity blocks.old }
    ensures blocks { blocks.new.items ≡ heap.now.blocks }
    ensures heap { IsSoundHeap heap.now }
    ensures room { block_limit ≤ vec_capacity blocks.new }
{
    heap.every_heap_is_sound();
    blocks.clear();
    blocks.extend_from_slice(heap.blocks()).unwrap();
}
