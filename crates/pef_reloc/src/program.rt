// Running relocation words.
ghost use Rattle.std.specs.Prelude.{◌≡◌, ◌+◌, ◌*◌, ◌%◌, ◌^◌, ◌<◌, ◌≤◌, ◌==◌, true, length, slice_index, if◌then◌else◌, Some, None, IfSome, OnOk};
ghost use Rattle.mix_bits.specs.Fields.{word_at};
ghost use Rattle.mix_bits.specs.declared.file.TheConstants.{MOST_BYTES};
ghost use Rattle.std.specs.Option.{option_copied};
ghost use Rattle.std.specs.Result.{result_err};
ghost use Rattle.big_memory.specs.Memory.{in_memory, with_bytes};
ghost use Rattle.pef_reloc.specs.inner.Held.{Fits, budget, outcome_of, outside_of, section_of, sources_of, state_of};
ghost use Rattle.pef_reloc.specs.inner.Repeating.{repeated_span};
ghost use Rattle.pef_reloc.specs.Program.{relocated, run_span, run_times, start};
ghost use Rattle.pef_reloc.specs.inner.Program.{run_at, run_in_span, run_words};
ghost use Rattle.pef_reloc.specs.ProgramClauses.{can_repeat, span_at, relocated_in};
ghost use Rattle.pef_reloc.specs.Rows.{first_of};

use crate::additions::execute;
use crate::cursor::Cursor;
use crate::error::RelocError;
use crate::instruction::{First, Reading};
use crate::section::Target;
use crate::words::{first_at, is_span, reading_at, width};
use big_memory::Ram;

/// How many instructions one call may run.
const WORK_LIMIT: u32 = 16_777_216;

/// Runs what stands at a place of a span that has no repeat.
fn run_in_span(
    ram: &mut Ram,
    cursor: &mut Cursor,
    target: Target,
    span: &[u8],
    place: usize,
    first: First,
) -> Result<(), RelocError>
    requires fits { Fits target ram.old }
    requires near { budget cursor.old ≤ 2 ^ 60 }
    requires within { place + 2 ≤ length span.now }
    requires small { length span.now ≤ MOST_BYTES }
    requires first { first ≡ first_of (word_at span.now place) }
    ensures is { outcome_of target.entry result ram.new cursor.new ≡ run_in_span (sources_of target.entry) span.now place (state_of target.entry ram.old cursor.old) }
    ensures outside { outside_of target.entry ram.new ≡ outside_of target.entry ram.old }
    ensures len { length ram.new.bytes ≡ length ram.old.bytes }
    ensures bound { OnOk result (budget cursor.new ≤ budget cursor.old) }
{
    match reading_at(span, place, first) {
        Ok(Reading::Whole(instruction)) => execute(ram, cursor, target, instruction),
        Ok(Reading::Again(_, _)) => Ok(()),
        Err(e) => Err(e),
    }
}

/// Runs a span that has no repeat.
fn run_span(
    ram: &mut Ram,
    cursor: &mut Cursor,
    target: Target,
    span: &[u8],
) -> Result<(), RelocError>
    requires fits { Fits target ram.old }
    requires near { budget cursor.old ≤ 2 ^ 60 }
    requires small { length span.now ≤ MOST_BYTES }
    ensures is { outcome_of target.entry result ram.new cursor.new ≡ run_span (sources_of target.entry) span.now (state_of target.entry ram.old cursor.old) }
    ensures outside { outside_of target.entry ram.new ≡ outside_of target.entry ram.old }
    ensures len { length ram.new.bytes ≡ length ram.old.bytes }
    ensures bound { OnOk result (budget cursor.new ≤ budget cursor.old) }
{
    let mut place = 0;
    while place + 2 <= span.len() {
        let first = first_at(span, place);
        run_in_span(ram, cursor, target, span, place, first)?;
        place += width(first);
    }
    Ok(())
}

/// Runs a span so many times.
fn run_times(
    ram: &mut Ram,
    cursor: &mut Cursor,
    target: Target,
    span: &[u8],
    times: u32,
) -> Result<(), RelocError>
    requires fits { Fits target ram.old }
    requires near { budget cursor.old ≤ 2 ^ 60 }
    requires small { length span.now ≤ MOST_BYTES }
    ensures is { outcome_of target.entry result ram.new cursor.new ≡ run_times (sources_of target.entry) span.now times (state_of target.entry ram.old cursor.old) }
    ensures outside { outside_of target.entry ram.new ≡ outside_of target.entry ram.old }
    ensures len { length ram.new.bytes ≡ length ram.old.bytes }
    ensures bound { OnOk result (budget cursor.new ≤ budget cursor.old) }
{
    for _turn in 0..times {
        run_span(ram, cursor, target, span)?;
    }
    Ok(())
}

/// The words that a repeat at a place goes back over, if they can be repeated.
fn span_at(words: &[u8], place: usize, count: u32) -> Option<&[u8]>
    requires within { place ≤ length words.now }
    requires small { length words.now ≤ MOST_BYTES }
    ensures is { option_copied result ≡ (if can_repeat words.now place count then Some (span_at words.now place count) else None) }
    ensures small { IfSome result (λ span. length span.now ≤ MOST_BYTES) }
{
    let len = 2 * count as usize;
    if len > place {
        return None;
    }
    let span = &words[place - len..place];
    if is_span(span) { Some(span) } else { None }
}

/// Runs the span of a repeat so many times more. The repeat counts as an instruction.
fn repeat(
    ram: &mut Ram,
    cursor: &mut Cursor,
    target: Target,
    span: &[u8],
    further: u32,
) -> Result<(), RelocError>
    requires fits { Fits target ram.old }
    requires near { budget cursor.old ≤ 2 ^ 60 }
    requires small { length span.now ≤ MOST_BYTES }
    ensures is { outcome_of target.entry result ram.new cursor.new ≡ repeated_span (sources_of target.entry) span.now further (state_of target.entry ram.old cursor.old) }
    ensures outside { outside_of target.entry ram.new ≡ outside_of target.entry ram.old }
    ensures len { length ram.new.bytes ≡ length ram.old.bytes }
    ensures bound { OnOk result (budget cursor.new ≤ budget cursor.old) }
{
    cursor.begin();
    cursor.finish()?;
    run_times(ram, cursor, target, span, further)
}

/// Runs what stands at a place.
fn run_at(
    ram: &mut Ram,
    cursor: &mut Cursor,
    target: Target,
    words: &[u8],
    place: usize,
    first: First,
) -> Result<(), RelocError>
    requires fits { Fits target ram.old }
    requires near { budget cursor.old ≤ 2 ^ 60 }
    requires within { place + 2 ≤ length words.now }
    requires small { length words.now ≤ MOST_BYTES }
    requires first { first ≡ first_of (word_at words.now place) }
    ensures is { outcome_of target.entry result ram.new cursor.new ≡ run_at (sources_of target.entry) words.now place (state_of target.entry ram.old cursor.old) }
    ensures outside { outside_of target.entry ram.new ≡ outside_of target.entry ram.old }
    ensures len { length ram.new.bytes ≡ length ram.old.bytes }
    ensures bound { OnOk result (budget cursor.new ≤ budget cursor.old) }
{
    match reading_at(words, place, first) {
        Ok(Reading::Whole(instruction)) => execute(ram, cursor, target, instruction),
        Ok(Reading::Again(count, further)) => match span_at(words, place, count) {
            Some(span) => repeat(ram, cursor, target, span, further),
            None => Err(RelocError::RepeatFront(place as u32)),
        },
        Err(e) => Err(e),
    }
}

/// Runs all words.
fn run_words(
    ram: &mut Ram,
    cursor: &mut Cursor,
    target: Target,
    words: &[u8],
) -> Result<(), RelocError>
    requires fits { Fits target ram.old }
    requires near { budget cursor.old ≤ 2 ^ 60 }
    requires small { length words.now ≤ MOST_BYTES }
    ensures is { outcome_of target.entry result ram.new cursor.new ≡ run_words (sources_of target.entry) words.now (state_of target.entry ram.old cursor.old) }
    ensures outside { outside_of target.entry ram.new ≡ outside_of target.entry ram.old }
    ensures len { length ram.new.bytes ≡ length ram.old.bytes }
{
    let mut place = 0;
    while place + 2 <= words.len() {
        let first = first_at(words, place);
        run_at(ram, cursor, target, words, place, first)?;
        place += width(first);
    }
    Ok(())
}

/// The state in which a run begins.
fn start(bases: &[u32]) -> Cursor
    ensures is { result ≡ start bases.now }
    ensures near { budget result ≤ 2 ^ 60 }
{
    let (c, d) = match bases {
        [] => (0, 0),
        [c] => (*c, 0),
        [c, d, ..] => (*c, *d),
    };
    Cursor {
        position: 0,
        index: 0,
        c,
        d,
        left: WORK_LIMIT,
        over: false,
    }
}

/// Relocates a section.
fn relocate_target(ram: &mut Ram, target: Target, words: &[u8]) -> Result<(), RelocError>
    requires fits { Fits target ram.old }
    requires small { length words.now ≤ MOST_BYTES }
    ensures refusal { result_err result ≡ (relocated (sources_of target.entry) words.now (section_of target.entry ram.old)).refusal }
    ensures section { section_of target.entry ram.new ≡ (relocated (sources_of target.entry) words.now (section_of target.entry ram.old)).section }
    ensures memory { ram.new ≡ with_bytes target.entry.base (section_of target.entry ram.new) ram.old }
    ensures len { length ram.new.bytes ≡ length ram.old.bytes }
{
    let mut cursor = start(target.bases);
    run_words(ram, &mut cursor, target, words)
}

/// Where a section stands of which memory has all bytes: one without bytes may be anywhere.
fn base_within(base: u32, total: u32) -> u32
    ensures { result ≡ (if total == 0 then 0 else base) }
{
    if total == 0 { 0 } else { base }
}

/// Relocates the section with a number, in memory, by its relocation words.
///
/// `bases` and `totals` are the address and the size in bytes of each section, `imports` the address of
/// each import. Memory's gate page and guard are passed. At one point of a run the first of these is
/// refused: Unsupported, Short, OutsideSection, ImportIndex or SectionIndex, RepeatFront, Work. The
/// section is then as it was made so far.
pub fn relocate(
    ram: &mut Ram,
    section: u32,
    words: &[u8],
    bases: &[u32],
    totals: &[u32],
    imports: &[u32],
) -> Result<(), RelocError>
    requires small { length words.now ≤ MOST_BYTES }
    requires even { length words.now % 2 ≡ 0 }
    requires few { length imports.now < 2 ^ 32 }
    requires paired { length bases.now ≡ length totals.now }
    requires below { section < length bases.now }
    requires inside { in_memory ram.old (slice_index bases.now section) (slice_index totals.now section) ≡ true }
    ensures refusal { result_err result ≡ (relocated_in section words.now bases.now totals.now imports.now ram.old).refusal }
    ensures memory { ram.new ≡ with_bytes (slice_index bases.now section) (relocated_in section words.now bases.now totals.now imports.now ram.old).section ram.old }
    ensures len { length ram.new.bytes ≡ length ram.old.bytes }
{
    let total = totals[section as usize];
    let target = Target {
        base: base_within(bases[section as usize], total),
        total,
        bases,
        imports,
    };
    relocate_target(ram, target, words)
}
