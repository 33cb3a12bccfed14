// The guard's marks, packed: bit k % 32 of word k / 32 is the mark of unit k.
ghost use Rattle.std.specs.Prelude.{◌≡◌, ℕ, ◌+◌, ◌-◌, ◌*◌, ◌<◌, ◌≤◌, ◌==◌, false, length, replicate, slice_index_or, slice_range};
ghost use Rattle.std.specs.Int.{bit_at};
ghost use Rattle.std.specs.List.{list_any};
ghost use Rattle.big_memory.specs.Lists.{put};
ghost use Rattle.big_memory.specs.Marks.{marks_of};

/// How many units one word of the guard marks.
pub const UNITS_A_WORD: usize = 32;

/// Whether a unit from `from` up to `to` is marked. Words of unmarked units are passed at once.
pub fn any_marked(guard: &[u32], from: usize, to: usize) -> bool
    requires { to ≤ length (marks_of guard.now) }
    ensures { result ≡ list_any (λ mark. mark) (slice_range (marks_of guard.now) from to) }
{
    let mut unit = from;
    while unit < to {
        if unit % UNITS_A_WORD == 0
            && to - unit >= UNITS_A_WORD
            && guard[unit / UNITS_A_WORD] == 0
        {
            unit += UNITS_A_WORD;
        } else if is_marked(guard, unit) {
            return true;
        } else {
            unit += 1;
        }
    }
    false
}

/// Marks or unmarks the units from `from` up to `to`, those of one word at a time.
pub fn mark(guard: &mut [u32], from: usize, to: usize, on: bool)
    requires order { from ≤ to }
    requires within { to ≤ length (marks_of guard.old) }
    ensures { marks_of guard.new ≡ put from (replicate (to - from) on) (marks_of guard.old) }
{
    let mut unit = from;
    while unit < to {
        let place = unit % UNITS_A_WORD;
        let end = UNITS_A_WORD.min(place + (to - unit));
        mark_run(guard, unit / UNITS_A_WORD, place, end, on);
        unit += end - place;
    }
}

/// Whether a unit is marked.
#[inline(always)]
pub fn is_marked(guard: &[u32], unit: usize) -> bool
    requires { unit < length (marks_of guard.now) }
    ensures { result ≡ slice_index_or (marks_of guard.now) unit false }
{
    guard[unit / UNITS_A_WORD] >> (unit % UNITS_A_WORD) & 1 == 1
}

/// Marks or unmarks the units of one word from its place `place` up to `end`.
#[inline(always)]
fn mark_run(guard: &mut [u32], index: usize, place: usize, end: usize, on: bool)
    requires index { index < length guard.old }
    requires order { place ≤ end }
    requires within { end ≤ 32 }
    ensures { marks_of guard.new ≡ put (32 * index + place) (replicate (end - place) on) (marks_of guard.old) }
{
    guard[index] = with_run(guard[index], place, end, on);
}

/// The word with its marks from `place` up to `end` set or cleared.
#[inline(always)]
fn with_run(word: u32, place: usize, end: usize, on: bool) -> u32
    requires order { place ≤ end }
    requires within { end ≤ 32 }
    ensures inside { (k : ℕ) → place ≤ k → k < end → (bit_at result k == 1) ≡ on }
    ensures below { (k : ℕ) → k < place → bit_at result k ≡ bit_at word k }
    ensures above { (k : ℕ) → end ≤ k → k < 32 → bit_at result k ≡ bit_at word k }
{
    let run = ((1u64 << end) - (1u64 << place)) as u32;
    if on { word | run } else { word & !run }
}
