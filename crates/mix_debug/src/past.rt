// The steps that are kept, in three rings: heads, runs, and old bytes. The newest step stands in front. Older steps than those
// for which there is room in the history may stand behind them, until they are overwritten or a step is taken back.
ghost use Rattle.std.specs.Prelude.{◌≡◌, ◌==◌, ◌<◌, ◌≤◌, ◌∷◌, [], ℕ, All, IfOk, length, take, true};
ghost use Rattle.circular_buffer.specs.Buffer.{buffer};
ghost use Rattle.mix_debug.specs.inner.WrittenBack.{runs_in};
ghost use Rattle.mix_debug.specs.WrittenBack.{undone};
ghost use Rattle.mix_debug.specs.Entries.{IsInside, all_olds, all_spans, head_cost, within};
ghost use Rattle.mix_debug.specs.inner.Entries.{effect_of, head_with, newest, still as still_of};
ghost use Rattle.mix_debug.specs.Costs.{file_cost as file_cost_of};
ghost use Rattle.switch_frame.specs.Records.{isa_of};
ghost use Rattle.mix_debug.specs.Pasts.{IsPast, entries_in};
ghost use Rattle.mix_debug.specs.inner.Pasts.{Waits, ready_in};

use crate::changes::push_changes;
use crate::head::{BlockChange, Effect, FrameChange, Head, Span};
use crate::registers::put_file;
use crate::undo::undo_runs;
use big_memory::Ram;
use circular_buffer::HeapCircularBuffer;
use mix_bits::{Isa, NoMemory};
use std::alloc::Global;
use switch_frame::Active;

/// How many bytes of history are kept.
pub const ROOM: u32 = 1_048_576;

/// How many steps fit at most: each takes at least 98 bytes.
const MOST_HEADS: usize = 10_700;

/// How many runs fit at most: each takes at least 8 bytes.
const MOST_SPANS: usize = 131_072;

/// Steps that can be taken back.
#[derive(Drop)]
pub struct Past {
    /// What is kept of the step that is run: its registers are written before it.
    ready: Head,
    heads: HeapCircularBuffer<Head>,
    spans: HeapCircularBuffer<Span>,
    olds: HeapCircularBuffer<u8>,
    /// Whether there is room for all steps that stand in the rings.
    trimmed: bool,
}

/// How many steps there is room for, and how many runs and bytes they changed.
#[derive(Clone, Copy)]
struct Counts {
    steps: usize,
    spans: usize,
    olds: usize,
}

impl Past {
    /// No step. All room that the steps will take is taken here.
    pub fn new(alloc: Global, file: &Active) -> Result<Past, NoMemory>
        ensures past { IfOk result IsPast }
        ensures empty { IfOk result (λ p. entries_in p ≡ []) }
    {
        Ok(Past {
            ready: Head {
                file: *file,
                top: 0,
                frame: FrameChange::Stays,
                block: BlockChange::Stays,
                runs: 0,
                olds: 0,
            },
            heads: HeapCircularBuffer::with_capacity(alloc, MOST_HEADS)?,
            spans: HeapCircularBuffer::with_capacity(alloc, MOST_SPANS)?,
            olds: HeapCircularBuffer::with_capacity(alloc, ROOM as usize)?,
            trimmed: true,
        })
    }

    /// How many steps are kept.
    pub fn len(&self) -> u32
        requires { IsPast self.now }
        ensures { result ≡ length (entries_in self.now) }
    {
        self.fitting().steps as u32
    }

    /// Whether none is kept.
    pub fn is_empty(&self) -> bool
        ensures { result ≡ (length (entries_in self.now) == 0) }
    {
        match self.heads.get(0) {
            None => true,
            Some(head) => cost(head) > u64::from(ROOM),
        }
    }

    /// Writes the registers before a step, and where the innermost frame begins, where they are kept if it is done.
    #[inline(always)]
    pub fn prepare(&mut self, file: &Active, top: u32)
        requires { IsPast self.old }
        ensures past { IsPast self.new }
        ensures entries { entries_in self.new ≡ entries_in self.old }
        ensures ready { ready_in self.new ≡ file.now }
        ensures waits { Waits self.new top }
    {
        put_file(&mut self.ready.file, file);
        put_effect(&mut self.ready, still(top));
    }

    /// The set of the registers that were written.
    pub fn ready_isa(&self) -> Isa
        requires { IsPast self.now }
        ensures { result ≡ isa_of (ready_in self.now) }
    {
        self.ready.file.isa()
    }

    /// Keeps a step that changed nothing but registers, as it was prepared.
    #[inline(always)]
    pub fn keep_still(&mut self)
        requires { IsPast self.old }
        ensures past { (top : ℕ) → Waits self.old top → IsPast self.new }
        ensures entries { (top : ℕ) → Waits self.old top
            → entries_in self.new ≡ within ROOM (record { head = head_with (ready_in self.old) (still_of top); runs = [] } ∷ entries_in self.old) }
    {
        self.trimmed = false;
        push_head(&mut self.heads, &self.ready);
    }

    /// Keeps a step whose changed bytes lie in [`low`, `high`), and what it did to the frames and the blocks. The registers
    /// before it were written.
    #[inline(always)]
    pub fn keep(
        &mut self,
        top: u32,
        frame: FrameChange,
        block: BlockChange,
        old: &[u8],
        new: &[u8],
        low: usize,
        high: usize,
    )
        requires past { IsPast self.old }
        requires order { low ≤ high }
        requires old_long { high ≤ length old.now }
        requires new_long { high ≤ length new.now }
        requires small { high ≤ 16777216 }
        ensures past { IsPast self.new }
        ensures entries { entries_in self.new
            ≡ within ROOM (record { head = head_with (ready_in self.old) (effect_of top frame block (runs_in low high old.now new.now)); runs = runs_in low high old.now new.now } ∷ entries_in self.old) }
    {
        self.trimmed = false;
        let changes = push_changes(&mut self.spans, &mut self.olds, old, new, low, high);
        let effect = Effect {
            top,
            frame,
            block,
            runs: changes.runs,
            olds: changes.bytes,
        };
        put_effect(&mut self.ready, effect);
        push_head(&mut self.heads, &self.ready);
    }

    /// Which of the newest steps there is room for.
    fn fitting(&self) -> Counts
        requires { IsPast self.now }
        ensures steps { result.steps ≡ length (entries_in self.now) }
        ensures spans { result.spans ≡ length (all_spans (entries_in self.now)) }
        ensures olds { result.olds ≡ length (all_olds (entries_in self.now)) }
        ensures few { result.steps ≤ 10700 }
    {
        let mut steps = 0;
        let mut spans = 0;
        let mut olds = 0;
        let mut left = u64::from(ROOM);
        'steps: while let Some(head) = self.heads.get(steps) {
            let cost = cost(head);
            if cost > left {
                return Counts { steps, spans, olds };
            }
            left -= cost;
            steps += 1;
            spans += head.runs as usize;
            olds += head.olds as usize;
        }
        Counts { steps, spans, olds }
    }

    /// Forgets the steps for which there is no room.
    fn trim(&mut self)
        requires { IsPast self.old }
        ensures past { IsPast self.new }
        ensures entries { entries_in self.new ≡ entries_in self.old }
        ensures trimmed { self.new.trimmed ≡ true }
    {
        if self.trimmed {
            return;
        }
        let counts = self.fitting();
        self.heads.truncate_back(counts.steps);
        self.spans.truncate_back(counts.spans);
        self.olds.truncate_back(counts.olds);
        self.trimmed = true;
    }

    /// Gives up the newest step: its old bytes are written to both memories.
    pub fn take(&mut self, ram: &mut Ram, copy: &mut [u8]) -> Head
        requires past { IsPast self.old }
        requires some { 0 < length (entries_in self.old) }
        requires inside { All (IsInside (length ram.old.bytes)) (newest (entries_in self.old)) }
        requires copied { copy.old ≡ ram.old.bytes }
        ensures past { IsPast self.new }
        ensures entries { entries_in self.old ≡ record { head = result; runs = newest (entries_in self.old) } ∷ entries_in self.new }
        ensures ram { ram.new ≡ record ram.old { bytes = undone (newest (entries_in self.old)) ram.old.bytes } }
        ensures copied { copy.new ≡ ram.new.bytes }
    {
        self.trim();
        match self.heads.pop_front() {
            Some(head) => {
                undo_runs(&mut self.spans, &mut self.olds, head.runs, ram, copy);
                head
            }
            None => unreachable!(),
        }
    }
}

/// How many bytes of history a step takes.
fn cost(head: &Head) -> u64
    ensures { result ≡ head_cost head.now }
{
    file_cost(&head.file) + 8 * u64::from(head.runs) + u64::from(head.olds)
}

/// How many of them its register file takes, with top and block.
fn file_cost(file: &Active) -> u64
    ensures { result ≡ file_cost_of file.now }
{
    match file {
        Active::M68(_) => 98,
        Active::Ppc(_) => 174,
    }
}

/// What a step does that changes nothing but registers.
#[inline(always)]
fn still(top: u32) -> Effect
    ensures { result ≡ still_of top }
{
    Effect {
        top,
        frame: FrameChange::Stays,
        block: BlockChange::Stays,
        runs: 0,
        olds: 0,
    }
}

/// Writes what a step does, beside its registers.
#[inline(always)]
fn put_effect(head: &mut Head, effect: Effect)
    ensures { head.new ≡ head_with head.old.file effect }
{
    head.top = effect.top;
    head.frame = effect.frame;
    head.block = effect.block;
    head.runs = effect.runs;
    head.olds = effect.olds;
}

/// Puts a step in front. Where as many are held as can be, the oldest is forgotten.
#[inline(always)]
fn push_head(heads: &mut HeapCircularBuffer<Head>, head: &Head)
    ensures { heads.new ≡ buffer (take heads.old.capacity (head.now ∷ heads.old.items)) heads.old.capacity }
{
    let _ = heads.push_front(*head);
}
