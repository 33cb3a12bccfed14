// Calls of the program over slices.
ghost use Rattle.std.specs.Prelude.{◌≡◌, ℕ, List, [], Option, Some, IfOk, OnErr, OnOk, map, length, not, ◌==◌};
ghost use Rattle.std.specs.String.{string_bytes};
ghost use Rattle.slice_parts.specs.Buffers.{buffer};
ghost use Rattle.dev_rack.specs.Boxed.{seen};
ghost use Rattle.mix_top.specs.WorldClauses.{two_devices, unasked};
ghost use Rattle.slice_runs.specs.Called.{AreLeft, AreWithin, Called};
ghost use Rattle.slice_parts.specs.Rooms.{empty_keep, empty_room};
ghost use Rattle.slice_parts.specs.Words.{assemble_words as assemble_of, continue_words as continue_of, files_of, list_words as list_of, run_words as run_of};

use super::told::Told;
use dev_rack::{Devices, Rack};
use mix_io::{Counter, Device, MemShelf, MemSource, NoMemory, Shelf, Source, Tape};
use mix_top::mixed_main_counted;
use mix_top::status::NO_MEMORY;
use slice_parts::{
    Program, Streams, assemble_words, continue_words, list_words, run_words, shelf_of,
};
use std::alloc::Global;

/// What a caller lends to a call.
#[derive(Clone, Copy)]
pub struct Lent<'a> {
    /// The flat file, the fork or the container; or the image of a machine.
    pub first: &'a [u8],
    /// The container beside a fork.
    pub second: &'a [u8],
    /// What the program reads.
    pub input: &'a [u8],
}

/// Runs a program from its files, as the words of `run` do. With room in `kept` the machine is kept there at the step limit.
/// The answer is the status, and `told` says how many bytes stand in each buffer, and how many steps were done.
pub fn run(
    alloc: Global,
    program: Program,
    steps: u32,
    lent: Lent,
    out: &mut [u8],
    trace: &mut [u8],
    kept: &mut [u8],
    told: &mut Told,
) -> u8
    ensures called { Called (run_of program.kind program.main program.kib steps (not (length kept.old == 0))) (files_of lent.entry.first.now lent.entry.second.now) lent.entry.input.now
        (buffer out.old out.new told.new.out) (buffer trace.old trace.new told.new.trace) (buffer kept.old kept.new told.new.kept) told.new.steps result }
    ensures within { AreWithin (buffer out.old out.new told.new.out) (buffer trace.old trace.new told.new.trace) (buffer kept.old kept.new told.new.kept) }
{
    match run_words(alloc, program, steps, !kept.is_empty()) {
        Ok(words) => call(alloc, &words, lent, out, trace, kept, told),
        Err(NoMemory) => refuse(told),
    }
}

/// Runs a machine on whose image is the first file, as the words of `continue` do.
pub fn resume(
    alloc: Global,
    steps: u32,
    lent: Lent,
    out: &mut [u8],
    trace: &mut [u8],
    kept: &mut [u8],
    told: &mut Told,
) -> u8
    ensures called { Called (continue_of steps (not (length kept.old == 0))) (files_of lent.entry.first.now lent.entry.second.now) lent.entry.input.now
        (buffer out.old out.new told.new.out) (buffer trace.old trace.new told.new.trace) (buffer kept.old kept.new told.new.kept) told.new.steps result }
    ensures within { AreWithin (buffer out.old out.new told.new.out) (buffer trace.old trace.new told.new.trace) (buffer kept.old kept.new told.new.kept) }
{
    match continue_words(alloc, steps, !kept.is_empty()) {
        Ok(words) => call(alloc, &words, lent, out, trace, kept, told),
        Err(NoMemory) => refuse(told),
    }
}

/// Lists the instructions of a program from an address on, `count` at most, as the words of `list` do.
pub fn list(
    alloc: Global,
    program: Program,
    at: u32,
    count: u32,
    lent: Lent,
    out: &mut [u8],
    trace: &mut [u8],
    told: &mut Told,
) -> u8
    ensures called { Called (list_of program.kind program.main program.kib at count) (files_of lent.entry.first.now lent.entry.second.now) lent.entry.input.now
        (buffer out.old out.new told.new.out) (buffer trace.old trace.new told.new.trace) (buffer [] [] told.new.kept) told.new.steps result }
    ensures within { AreWithin (buffer out.old out.new told.new.out) (buffer trace.old trace.new told.new.trace) (buffer [] [] told.new.kept) }
{
    match list_words(alloc, program, at, count) {
        Ok(words) => call(alloc, &words, lent, out, trace, &mut [], told),
        Err(NoMemory) => refuse(told),
    }
}

/// Assembles the lines of a text, which is the first file, from an address on, as the words of `assemble` do. The set is 1
/// for 68K and 2 for PowerPC.
pub fn assemble(
    alloc: Global,
    set: u32,
    at: u32,
    lent: Lent,
    out: &mut [u8],
    trace: &mut [u8],
    told: &mut Told,
) -> u8
    ensures called { Called (assemble_of set at) (files_of lent.entry.first.now lent.entry.second.now) lent.entry.input.now
        (buffer out.old out.new told.new.out) (buffer trace.old trace.new told.new.trace) (buffer [] [] told.new.kept) told.new.steps result }
    ensures within { AreWithin (buffer out.old out.new told.new.out) (buffer trace.old trace.new told.new.trace) (buffer [] [] told.new.kept) }
{
    match assemble_words(alloc, set, at) {
        Ok(words) => call(alloc, &words, lent, out, trace, &mut [], told),
        Err(NoMemory) => refuse(told),
    }
}

/// The answer where there was no memory to begin.
fn refuse(told: &mut Told) -> u8
    ensures status { result ≡ 9 }
    ensures out { told.new.out ≡ 0 }
    ensures trace { told.new.trace ≡ 0 }
    ensures kept { told.new.kept ≡ 0 }
    ensures steps { told.new.steps ≡ 0 }
{
    *told = Told::default();
    NO_MEMORY
}

/// Calls the program with words.
fn call(
    alloc: Global,
    words: &[String],
    lent: Lent,
    out: &mut [u8],
    trace: &mut [u8],
    kept: &mut [u8],
    told: &mut Told,
) -> u8
    ensures called { Called (map string_bytes words.now) (files_of lent.entry.first.now lent.entry.second.now) lent.entry.input.now
        (buffer out.old out.new told.new.out) (buffer trace.old trace.new told.new.trace) (buffer kept.old kept.new told.new.kept) told.new.steps result }
    ensures within { AreWithin (buffer out.old out.new told.new.out) (buffer trace.old trace.new told.new.trace) (buffer kept.old kept.new told.new.kept) }
{
    match call_beside(alloc, words, lent, out, trace, kept, told) {
        Ok(status) => status,
        Err(NoMemory) => refuse(told),
    }
}

/// Calls the program beside a counter and a tape.
fn call_beside(
    alloc: Global,
    words: &[String],
    lent: Lent,
    out: &mut [u8],
    trace: &mut [u8],
    kept: &mut [u8],
    told: &mut Told,
) -> Result<u8, NoMemory>
    ensures called { IfOk result (Called (map string_bytes words.now) (files_of lent.entry.first.now lent.entry.second.now) lent.entry.input.now
        (buffer out.old out.new told.new.out) (buffer trace.old trace.new told.new.trace) (buffer kept.old kept.new told.new.kept) told.new.steps) }
    ensures within { OnOk result (AreWithin (buffer out.old out.new told.new.out) (buffer trace.old trace.new told.new.trace) (buffer kept.old kept.new told.new.kept)) }
    ensures left { OnErr result (AreLeft (buffer out.old out.new 0) (buffer trace.old trace.new 0) (buffer kept.old kept.new 0)) }
{
    let counter = Counter::new(alloc)?;
    let tape = Tape::new(alloc)?;
    call_with(alloc, words, lent, counter, tape, out, trace, kept, told)
}

/// Puts the counter into slot 0 and the tape into slot 1.
fn call_with(
    alloc: Global,
    words: &[String],
    lent: Lent,
    counter: Counter,
    tape: Tape,
    out: &mut [u8],
    trace: &mut [u8],
    kept: &mut [u8],
    told: &mut Told,
) -> Result<u8, NoMemory>
    requires counter { seen ⟦<Counter as Device>⟧.faults ⟦<Counter as Device>⟧.told counter ≡ unasked }
    requires tape { seen ⟦<Tape as Device>⟧.faults ⟦<Tape as Device>⟧.told tape ≡ unasked }
    ensures called { IfOk result (Called (map string_bytes words.now) (files_of lent.entry.first.now lent.entry.second.now) lent.entry.input.now
        (buffer out.old out.new told.new.out) (buffer trace.old trace.new told.new.trace) (buffer kept.old kept.new told.new.kept) told.new.steps) }
    ensures within { OnOk result (AreWithin (buffer out.old out.new told.new.out) (buffer trace.old trace.new told.new.trace) (buffer kept.old kept.new told.new.kept)) }
    ensures left { OnErr result (AreLeft (buffer out.old out.new 0) (buffer trace.old trace.new 0) (buffer kept.old kept.new 0)) }
{
    let counter: Box<dyn Device> = Box::new(alloc, counter)?;
    let tape: Box<dyn Device> = Box::new(alloc, tape)?;
    let mut rack = Rack::new(alloc, vec![in alloc; counter, tape]?)?;
    call_over(alloc, words, lent, &mut rack, out, trace, kept, told)
}

/// Makes the objects that stand for what the caller lends.
fn call_over<D: Devices>(
    alloc: Global,
    words: &[String],
    lent: Lent,
    rack: &mut D,
    out: &mut [u8],
    trace: &mut [u8],
    kept: &mut [u8],
    told: &mut Told,
) -> Result<u8, NoMemory>
    requires { D.state rack.old ≡ two_devices }
    ensures called { IfOk result (Called (map string_bytes words.now) (files_of lent.entry.first.now lent.entry.second.now) lent.entry.input.now
        (buffer out.old out.new told.new.out) (buffer trace.old trace.new told.new.trace) (buffer kept.old kept.new told.new.kept) told.new.steps) }
    ensures within { OnOk result (AreWithin (buffer out.old out.new told.new.out) (buffer trace.old trace.new told.new.trace) (buffer kept.old kept.new told.new.kept)) }
    ensures left { OnErr result (AreLeft (buffer out.old out.new 0) (buffer trace.old trace.new 0) (buffer kept.old kept.new 0)) }
{
    let shelf = shelf_of(alloc, lent.first, lent.second)?;
    let streams = Streams::new(alloc, lent.input, out.len(), trace.len(), kept.len())?;
    Ok(call_among(alloc, words, shelf, streams, rack, out, trace, kept, told))
}

/// Calls the program, and copies what was put.
fn call_among<D: Devices>(
    alloc: Global,
    words: &[String],
    mut shelf: MemShelf,
    mut streams: Streams,
    rack: &mut D,
    out: &mut [u8],
    trace: &mut [u8],
    kept: &mut [u8],
    told: &mut Told,
) -> u8
    requires rack { D.state rack.old ≡ two_devices }
    requires shelf { (name : List ℕ) → ⟦<MemShelf as Shelf>⟧.faults shelf name ≡ 0 }
    requires excesses { (name : List ℕ) → ⟦<MemShelf as Shelf>⟧.excesses shelf name ≡ 0 }
    requires faults { ⟦<MemSource as Source>⟧.faults streams.input ≡ 0 }
    requires out { streams.out ≡ empty_room (length out.old) }
    requires trace { streams.trace ≡ empty_room (length trace.old) }
    requires kept { streams.keep ≡ empty_keep (length kept.old) }
    ensures called { (files : List ℕ → Option (List ℕ)) (input : List ℕ)
        → ⟦<MemShelf as Shelf>⟧.contents shelf ≡ Some files → ⟦<MemSource as Source>⟧.left streams.input ≡ Some input
        → Called (map string_bytes words.now) files input (buffer out.old out.new told.new.out) (buffer trace.old trace.new told.new.trace) (buffer kept.old kept.new told.new.kept) told.new.steps result }
    ensures within { AreWithin (buffer out.old out.new told.new.out) (buffer trace.old trace.new told.new.trace) (buffer kept.old kept.new told.new.kept) }
{
    let ending = mixed_main_counted(
        alloc,
        words,
        &mut shelf,
        &mut streams.input,
        &mut streams.out,
        &mut streams.trace,
        rack,
        &mut streams.keep,
    );
    told.out = streams.out.copy_to(out);
    told.trace = streams.trace.copy_to(trace);
    told.kept = streams.keep.copy_to(kept);
    told.steps = ending.steps;
    ending.status
}
