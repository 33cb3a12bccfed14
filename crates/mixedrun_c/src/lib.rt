//! The machine for callers in C, and by that in every language: each export is a call of `slice_runs`, and its clauses are that
//! call's. `include/mixedrun.h` says in words what a caller owes: each pointer points to as many bytes as its length says, also
//! where that is 0, and a buffer meets no other slice of the call.
#![tactic(auto)]

ghost use Rattle.std.specs.Prelude.{◌≡◌, ◌-◌, [], length, not, ◌==◌};
ghost use Rattle.slice_runs.specs.Advanced.{Advanced};
ghost use Rattle.slice_parts.specs.Buffers.{IsWithin, buffer};
ghost use Rattle.slice_runs.specs.Called.{AreWithin, Called};
ghost use Rattle.slice_runs.specs.Looks.{Looks};
ghost use Rattle.slice_runs.specs.Told.{Tells};
ghost use Rattle.slice_parts.specs.Words.{assemble_words, continue_words, files_of, list_words, run_words};
ghost use Rattle.look_text.specs.Info.{info_of};

use slice_runs::{
    Lent, Program, Seen, Told, VERSION, advance, assemble, explain, list, look, resume, run,
};
use std::alloc::Global;

/// Runs a program from its files, as the words of `run` do.
#[unsafe(no_mangle)]
pub extern "C" fn mixedrun_run(
    alloc: Global,
    kind: u32,
    main: u32,
    kib: u32,
    steps: u32,
    first: &[u8],
    second: &[u8],
    input: &[u8],
    out: &mut [u8],
    trace: &mut [u8],
    kept: &mut [u8],
    told: &mut Told,
) -> u8
    ensures called { Called (run_words kind main kib steps (not (length kept.old == 0))) (files_of first.now second.now) input.now
        (buffer out.old out.new told.new.out) (buffer trace.old trace.new told.new.trace) (buffer kept.old kept.new told.new.kept) told.new.steps result }
    ensures within { AreWithin (buffer out.old out.new told.new.out) (buffer trace.old trace.new told.new.trace) (buffer kept.old kept.new told.new.kept) }
{
    let program = Program { kind, main, kib };
    let lent = Lent {
        first,
        second,
        input,
    };
    run(alloc, program, steps, lent, out, trace, kept, told)
}

/// Runs a machine on that was kept, as the words of `continue` do.
#[unsafe(no_mangle)]
pub extern "C" fn mixedrun_continue(
    alloc: Global,
    steps: u32,
    image: &[u8],
    input: &[u8],
    out: &mut [u8],
    trace: &mut [u8],
    kept: &mut [u8],
    told: &mut Told,
) -> u8
    ensures called { Called (continue_words steps (not (length kept.old == 0))) (files_of image.now []) input.now
        (buffer out.old out.new told.new.out) (buffer trace.old trace.new told.new.trace) (buffer kept.old kept.new told.new.kept) told.new.steps result }
    ensures within { AreWithin (buffer out.old out.new told.new.out) (buffer trace.old trace.new told.new.trace) (buffer kept.old kept.new told.new.kept) }
{
    let lent = Lent {
        first: image,
        second: &[],
        input,
    };
    resume(alloc, steps, lent, out, trace, kept, told)
}

/// Runs a machine on from its image, keeps the machine that it became, and tells how many steps are left.
#[unsafe(no_mangle)]
pub extern "C" fn mixedrun_advance(
    alloc: Global,
    steps: u32,
    image: &[u8],
    input: &[u8],
    out: &mut [u8],
    trace: &mut [u8],
    kept: &mut [u8],
    told: &mut Told,
    left: &mut u32,
) -> u8
    ensures advanced { Advanced image.now input.now steps left.new (buffer out.old out.new told.new.out) (buffer trace.old trace.new told.new.trace) (buffer kept.old kept.new told.new.kept) result }
    ensures within { AreWithin (buffer out.old out.new told.new.out) (buffer trace.old trace.new told.new.trace) (buffer kept.old kept.new told.new.kept) }
    ensures steps { told.new.steps ≡ steps - left.new }
{
    advance(alloc, image, steps, input, out, trace, kept, told, left)
}

/// Lists the instructions of a program, as the words of `list` do.
#[unsafe(no_mangle)]
pub extern "C" fn mixedrun_list(
    alloc: Global,
    kind: u32,
    main: u32,
    kib: u32,
    at: u32,
    count: u32,
    first: &[u8],
    second: &[u8],
    out: &mut [u8],
    trace: &mut [u8],
    told: &mut Told,
) -> u8
    ensures called { Called (list_words kind main kib at count) (files_of first.now second.now) []
        (buffer out.old out.new told.new.out) (buffer trace.old trace.new told.new.trace) (buffer [] [] told.new.kept) told.new.steps result }
    ensures within { AreWithin (buffer out.old out.new told.new.out) (buffer trace.old trace.new told.new.trace) (buffer [] [] told.new.kept) }
{
    let program = Program { kind, main, kib };
    let lent = Lent {
        first,
        second,
        input: &[],
    };
    list(alloc, program, at, count, lent, out, trace, told)
}

/// Assembles the lines of a text, as the words of `assemble` do.
#[unsafe(no_mangle)]
pub extern "C" fn mixedrun_assemble(
    alloc: Global,
    set: u32,
    at: u32,
    text: &[u8],
    out: &mut [u8],
    trace: &mut [u8],
    told: &mut Told,
) -> u8
    ensures called { Called (assemble_words set at) (files_of text.now []) []
        (buffer out.old out.new told.new.out) (buffer trace.old trace.new told.new.trace) (buffer [] [] told.new.kept) told.new.steps result }
    ensures within { AreWithin (buffer out.old out.new told.new.out) (buffer trace.old trace.new told.new.trace) (buffer [] [] told.new.kept) }
{
    let lent = Lent {
        first: text,
        second: &[],
        input: &[],
    };
    assemble(alloc, set, at, lent, out, trace, told)
}

/// Tells what a procInfo word says.
#[unsafe(no_mangle)]
pub extern "C" fn mixedrun_procinfo(alloc: Global, word: u32, out: &mut [u8], told: &mut Told) -> u8
    ensures tells { Tells (info_of word) (buffer out.old out.new told.new.out) result }
    ensures within { IsWithin (buffer out.old out.new told.new.out) }
    ensures trace { told.new.trace ≡ 0 }
    ensures kept { told.new.kept ≡ 0 }
    ensures steps { told.new.steps ≡ 0 }
{
    explain(alloc, word, out, told)
}

/// Reads registers and memory of a machine from its image.
#[unsafe(no_mangle)]
pub extern "C" fn mixedrun_look(
    alloc: Global,
    image: &[u8],
    at: u32,
    longs: &mut [u32],
    bytes: &mut [u8],
    seen: &mut Seen,
) -> u8
    ensures looks { Looks image.now at (buffer longs.old longs.new seen.new.longs) (buffer bytes.old bytes.new seen.new.bytes) seen.new.set result }
    ensures longs { IsWithin (buffer longs.old longs.new seen.new.longs) }
    ensures bytes { IsWithin (buffer bytes.old bytes.new seen.new.bytes) }
{
    look(alloc, image, at, longs, bytes, seen)
}

/// The version of the library, which is that of the programs: 65536 for each major one, 256 for each minor one, and 1 for each
/// change.
#[unsafe(no_mangle)]
pub extern "C" fn mixedrun_version() -> u32
    ensures { result ≡ 256 }
{
    VERSION
}
