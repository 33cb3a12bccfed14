// A call of the program over the files of the system and two devices.
ghost use Rattle.std.specs.Prelude.{◌≡◌, ◌∷◌, [], MatchResult, map, string_bytes};
ghost use Rattle.mix_io.specs.StreamsClauses.{output};
ghost use Rattle.dev_rack.specs.Boxed.{fresh, seen};
ghost use Rattle.mix_main.specs.Runs.{Runs, RunsIfRoom};
ghost use Rattle.mix_top.specs.WorldClauses.{two_devices};
ghost use Rattle.mix_main.specs.RunsClauses.{outputs};

use dev_rack::{Devices, Rack};
use mix_io::{Counter, Device, FileKeep, FileShelf, NoMemory, Sink, Source, StdSource, Tape};
use mix_top::mixed_main;
use mix_top::status::NO_MEMORY;
use std::io::{BufReader, Read};
use std::rt::Files;

/// Calls the program with the words, and answers the status, or that there was no memory to begin.
pub fn run<R: Files + AllocGlobal, I: Read + Drop, O: Sink, T: Sink>(
    rt: &R,
    words: &[String],
    input: I,
    out: &mut O,
    trace: &mut T,
) -> u8
    ensures { RunsIfRoom (map string_bytes words.now) (I.remaining input)
        (outputs (output (O.held out.old) (O.faults out.old)) (output (T.held trace.old) (T.faults trace.old)))
        (outputs (output (O.held out.new) (O.faults out.new)) (output (T.held trace.new) (T.faults trace.new)))
        result }
{
    match run_buffered(rt, words, input, out, trace) {
        Ok(status) => status,
        Err(NoMemory) => NO_MEMORY,
    }
}

/// Takes the memory for the devices and for a buffer before the input.
fn run_buffered<R: Files + AllocGlobal, I: Read + Drop, O: Sink, T: Sink>(
    rt: &R,
    words: &[String],
    input: I,
    out: &mut O,
    trace: &mut T,
) -> Result<u8, NoMemory>
    ensures { MatchResult result
        (λ status. Runs (map string_bytes words.now) (I.remaining input) 0
        two_devices
        (outputs (output (O.held out.old) (O.faults out.old)) (output (T.held trace.old) (T.faults trace.old)))
        (outputs (output (O.held out.new) (O.faults out.new)) (output (T.held trace.new) (T.faults trace.new)))
        status)
        (λ _. outputs (output (O.held out.new) (O.faults out.new)) (output (T.held trace.new) (T.faults trace.new))
        ≡ outputs (output (O.held out.old) (O.faults out.old)) (output (T.held trace.old) (T.faults trace.old))) }
{
    let alloc = rt.alloc();
    let Ok(reader) = BufReader::new(alloc, input) else {
        return Err(NoMemory);
    };
    let counter = Counter::new(alloc)?;
    let tape = Tape::new(alloc)?;
    run_beside(
        rt,
        words,
        &mut StdSource::new(reader),
        counter,
        tape,
        out,
        trace,
    )
}

/// Puts the counter into slot 0 and the tape into slot 1.
fn run_beside<R: Files + AllocGlobal, I: Source, O: Sink, T: Sink>(
    rt: &R,
    words: &[String],
    input: &mut I,
    counter: Counter,
    tape: Tape,
    out: &mut O,
    trace: &mut T,
) -> Result<u8, NoMemory>
    ensures { MatchResult result
        (λ status. Runs (map string_bytes words.now) (I.left input.old) (I.faults input.old)
        (fresh (seen ⟦<Counter as Device>⟧.faults ⟦<Counter as Device>⟧.told counter ∷ seen ⟦<Tape as Device>⟧.faults ⟦<Tape as Device>⟧.told tape ∷ []))
        (outputs (output (O.held out.old) (O.faults out.old)) (output (T.held trace.old) (T.faults trace.old)))
        (outputs (output (O.held out.new) (O.faults out.new)) (output (T.held trace.new) (T.faults trace.new)))
        status)
        (λ _. outputs (output (O.held out.new) (O.faults out.new)) (output (T.held trace.new) (T.faults trace.new))
        ≡ outputs (output (O.held out.old) (O.faults out.old)) (output (T.held trace.old) (T.faults trace.old))) }
{
    let alloc = rt.alloc();
    let counter: Box<dyn Device> = Box::new(alloc, counter)?;
    let tape: Box<dyn Device> = Box::new(alloc, tape)?;
    let devices = vec![in alloc; counter, tape]?;
    let mut rack = Rack::new(alloc, devices)?;
    Ok(run_over(rt, words, input, out, trace, &mut rack))
}

/// Calls the program over the files of the system, and answers its status.
fn run_over<R: Files + AllocGlobal, I: Source, O: Sink, T: Sink, D: Devices>(
    rt: &R,
    words: &[String],
    input: &mut I,
    out: &mut O,
    trace: &mut T,
    rack: &mut D,
) -> u8
    ensures { Runs (map string_bytes words.now) (I.left input.old) (I.faults input.old) (D.state rack.old)
        (outputs (output (O.held out.old) (O.faults out.old)) (output (T.held trace.old) (T.faults trace.old)))
        (outputs (output (O.held out.new) (O.faults out.new)) (output (T.held trace.new) (T.faults trace.new)))
        result }
{
    let mut shelf = FileShelf::new(rt);
    let mut keep = FileKeep::new(rt);
    mixed_main(
        rt.alloc(),
        words,
        &mut shelf,
        input,
        out,
        trace,
        rack,
        &mut keep,
    )
}
