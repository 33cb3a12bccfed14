// Old bytes are written back.
ghost use Rattle.std.specs.Prelude.{◌≡◌, ◌+◌, ◌-◌, ◌≤◌, All, drop, length, take};
ghost use Rattle.circular_buffer.specs.Buffer.{buffer};
ghost use Rattle.big_memory.specs.Lists.{part, put};
ghost use Rattle.big_memory.specs.Memory.{with_bytes};
ghost use Rattle.mix_debug.specs.WrittenBack.{undone};
ghost use Rattle.mix_debug.specs.Entries.{IsFrame, IsInside, heap_before, marks_before, runs_of};
ghost use Rattle.mix_debug.specs.inner.Entries.{count_of};

use crate::head::{BlockChange, FrameChange, Span};
use big_memory::Ram;
use circular_buffer::HeapCircularBuffer;
use host_heap::Heap;

/// How many bytes most steps store: so many are copied at once.
const WORD: usize = 4;

/// Takes the first runs out of the rings, and writes them to both memories.
pub fn undo_runs(
    spans: &mut HeapCircularBuffer<Span>,
    olds: &mut HeapCircularBuffer<u8>,
    runs: u32,
    ram: &mut Ram,
    copy: &mut [u8],
)
    requires few { runs ≤ length spans.old.items }
    requires whole { count_of (take runs spans.old.items) ≤ length olds.old.items }
    requires inside { All (IsInside (length ram.old.bytes)) (runs_of (take runs spans.old.items) olds.old.items) }
    requires copied { copy.old ≡ ram.old.bytes }
    ensures spans { spans.new ≡ buffer (drop runs spans.old.items) spans.old.capacity }
    ensures olds { olds.new ≡ buffer (drop (count_of (take runs spans.old.items)) olds.old.items) olds.old.capacity }
    ensures ram { ram.new ≡ record ram.old { bytes = undone (runs_of (take runs spans.old.items) olds.old.items) ram.old.bytes } }
    ensures copied { copy.new ≡ ram.new.bytes }
{
    let mut left = runs;
    'runs: while left > 0 {
        match spans.pop_front() {
            Some(span) => {
                undo_run(olds, span, ram);
                let low = span.at as usize;
                copy_range(copy, ram.bytes(), low, low + span.count as usize);
            }
            None => unreachable!(),
        }
        left -= 1;
    }
}

/// Takes the bytes of one run out of the ring, and writes them to memory.
fn undo_run(olds: &mut HeapCircularBuffer<u8>, span: Span, ram: &mut Ram)
    requires whole { span.count ≤ length olds.old.items }
    requires inside { span.at + span.count ≤ length ram.old.bytes }
    ensures olds { olds.new ≡ buffer (drop span.count olds.old.items) olds.old.capacity }
    ensures ram { ram.new ≡ with_bytes span.at (take span.count olds.old.items) ram.old }
{
    write_front(olds, span, ram);
    olds.truncate_front(olds.len() - span.count as usize);
}

/// Writes the first bytes of the ring to memory, those of one run.
fn write_front(olds: &HeapCircularBuffer<u8>, span: Span, ram: &mut Ram)
    requires whole { span.count ≤ length olds.now.items }
    requires inside { span.at + span.count ≤ length ram.old.bytes }
    ensures { ram.new ≡ with_bytes span.at (take span.count olds.now.items) ram.old }
{
    ram.meets_invariant();
    let (front, behind) = olds.as_slices();
    let count = span.count as usize;
    let first = count.min(front.len());
    ram.fix(span.at, &front[..first]);
    ram.fix(span.at + first as u32, &behind[..count - first]);
}

/// Makes the bytes of [`low`, `high`) those of another memory.
#[inline(always)]
pub fn copy_range(copy: &mut [u8], bytes: &[u8], low: usize, high: usize)
    requires order { low ≤ high }
    requires copy_long { high ≤ length copy.old }
    requires bytes_long { high ≤ length bytes.now }
    ensures { copy.new ≡ put low (part low (high - low) bytes.now) copy.old }
{
    if high - low == WORD {
        copy[low..low + WORD].copy_from_slice(&bytes[low..low + WORD]);
    } else {
        copy_any(copy, bytes, low, high);
    }
}

/// The same of a range of any length.
fn copy_any(copy: &mut [u8], bytes: &[u8], low: usize, high: usize)
    requires order { low ≤ high }
    requires copy_long { high ≤ length copy.old }
    requires bytes_long { high ≤ length bytes.now }
    ensures { copy.new ≡ put low (part low (high - low) bytes.now) copy.old }
{
    if low == high {
        return;
    }
    copy[low..high].copy_from_slice(&bytes[low..high]);
}

/// Takes back the guard of a frame that a step made, or gives back that of a frame that it gave up.
pub fn undo_frame(ram: &mut Ram, change: FrameChange)
    requires { IsFrame (length ram.old.bytes) change }
    ensures { ram.new ≡ record ram.old { marks = marks_before change ram.old.marks } }
{
    match change {
        FrameChange::Stays => {}
        FrameChange::Made { lo, hi } => ram.unguard(lo, hi),
        FrameChange::GivenUp { lo, hi } => ram.guard(lo, hi),
    }
}

/// Gives up a block that a step made, or makes one that it gave up.
pub fn undo_block(heap: &mut Heap, change: BlockChange)
    ensures { heap.new ≡ heap_before change heap.old }
{
    match change {
        BlockChange::Stays => {}
        BlockChange::Made(block) => {
            let _ = heap.free(block.address);
        }
        BlockChange::Freed(block) => {
            let _ = heap.place(block.address, block.size);
        }
    }
}
