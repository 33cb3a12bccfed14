// The runs of bytes that a step changed: put in front of those of earlier steps, and counted.
ghost use Rattle.std.specs.Prelude.{◌≡◌, ◌+◌, ◌≤◌, ◌++◌, length, take};
ghost use Rattle.mix_debug.specs.WrittenBack.{olds_of};
ghost use Rattle.mix_debug.specs.inner.WrittenBack.{runs_in};
ghost use Rattle.mix_debug.specs.inner.Entries.{closed, started};
ghost use Rattle.mix_debug.specs.Entries.{spans_of};

use crate::head::Span;
use circular_buffer::HeapCircularBuffer;

/// How many runs of bytes changed, and how many bytes they have.
#[derive(Clone, Copy)]
pub struct Changes {
    pub runs: u32,
    pub bytes: u32,
}

/// Puts the changed bytes of [`low`, `high`) in front of those that are kept, the lowest run first.
#[inline(always)]
pub fn push_changes(
    spans: &mut HeapCircularBuffer<Span>,
    olds: &mut HeapCircularBuffer<u8>,
    old: &[u8],
    new: &[u8],
    low: usize,
    high: usize,
) -> Changes
    requires order { low ≤ high }
    requires old_long { high ≤ length old.now }
    requires new_long { high ≤ length new.now }
    requires small { high ≤ 16777216 }
    requires spans_fit { length spans.old.items ≤ spans.old.capacity }
    requires olds_fit { length olds.old.items ≤ olds.old.capacity }
    ensures runs { result.runs ≡ length (runs_in low high old.now new.now) }
    ensures bytes { result.bytes ≡ length (olds_of (runs_in low high old.now new.now)) }
    ensures spans { spans.new.items ≡ take spans.old.capacity (spans_of (runs_in low high old.now new.now) ++ spans.old.items) }
    ensures span_room { spans.new.capacity ≡ spans.old.capacity }
    ensures olds { olds.new.items ≡ take olds.old.capacity (olds_of (runs_in low high old.now new.now) ++ olds.old.items) }
    ensures old_room { olds.new.capacity ≡ olds.old.capacity }
{
    let mut changes = Changes { runs: 0, bytes: 0 };
    let mut count = 0;
    let mut at = high;
    'bytes: while at > low {
        at -= 1;
        if old[at] != new[at] {
            olds.push_front(old[at]);
            count += 1;
        } else {
            changes = close(spans, at + 1, count, changes);
            count = 0;
        }
    }
    close(spans, low, count, changes)
}

/// Puts the run of `count` bytes from `at` on in front, if it has any, and counts it beside others.
#[inline(always)]
fn close(spans: &mut HeapCircularBuffer<Span>, at: usize, count: u32, others: Changes) -> Changes
    requires at { at ≤ 16777216 }
    requires runs { others.runs ≤ 16777216 }
    requires bytes { others.bytes + count ≤ 16777216 }
    ensures spans { spans.new.items ≡ closed spans.old.capacity at count spans.old.items }
    ensures room { spans.new.capacity ≡ spans.old.capacity }
    ensures runs { result.runs ≡ others.runs + started count }
    ensures bytes { result.bytes ≡ others.bytes + count }
{
    if count > 0 {
        spans.push_front(Span {
            at: at as u32,
            count,
        });
        Changes {
            runs: others.runs + 1,
            bytes: others.bytes + count,
        }
    } else {
        others
    }
}
