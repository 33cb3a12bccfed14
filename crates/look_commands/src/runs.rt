// Runs, and how they ended.
ghost use Rattle.std.specs.Prelude.{◌≡◌, ◌≢◌, IfOk, map};
ghost use Rattle.std.specs.String.{string_bytes};
ghost use Rattle.switch_frame.specs.Records.{isa_of};
ghost use Rattle.mixed_machine.specs.Machine.{IsWhole};
ghost use Rattle.mix_load.specs.LoadClauses.{AreLoadable};
ghost use Rattle.job_words.specs.JobsClauses.{IsProperJob};
ghost use Rattle.job_words.specs.Words.{command_of};
ghost use Rattle.look_words.specs.Looks.{run_words as run_words_of};
ghost use Rattle.look_words.specs.Requests.{is_run};
ghost use Rattle.look_commands.specs.inner.Statuses.{status_at};
ghost use Rattle.look_commands.specs.Told.{Loads};

use super::run_keeping;
use crate::counted::Counted;
use crate::maps::refuse;
use crate::said::fail;
use crate::streams::Streams;
use call_trace::{End, put_end};
use dev_rack::{Devices, Rack};
use look_report::{History, Outcome, run_report};
use look_words::status::{INPUT_FAILED, NO_MEMORY, OUTPUT_FAILED, SUCCESS, TRACE_FAILED};
use look_words::{Frames, Request, requested};
use mix_bits::NoMemory;
use mix_engine::{Machine, Stop};
use mix_io::{Counter, Device, Failed, Sink, StdSink, StdSource, Tape};
use mix_load::{LoadError, load};
use std::alloc::Global;
use std::io::{BufReader, Read, Write};
use std::rt::Files;

/// What is told of a run: how many of its last steps, and which frames.
#[derive(Clone, Copy)]
pub struct Shown {
    pub last: u32,
    pub frames: Frames,
}

/// Runs the program that words name, and writes how it ended behind its trace.
#[tactic(auto, using(crate::proofs::Loading::unloaded))]
pub fn end<F: Files, R: Read + Drop, W: Write + Drop, E: Write + Drop>(
    alloc: Global,
    files: &F,
    words: &[String],
    shown: Shown,
    streams: &mut Streams<R, W, E>,
) -> u8
    ensures { Loads (is_run (command_of (run_words_of (map string_bytes words.now)))) (W.contents streams.old.out) (W.contents streams.new.out) result }
{
    match requested(alloc, files, words) {
        Ok(request) => end_job(alloc, &request, shown, streams),
        Err(failure) => fail(&mut streams.errors, failure),
    }
}

/// The same of a job and its files.
fn end_job<R: Read + Drop, W: Write + Drop, E: Write + Drop>(
    alloc: Global,
    request: &Request,
    shown: Shown,
    streams: &mut Streams<R, W, E>,
) -> u8
    requires job { IsProperJob request.now.job }
    requires files { AreLoadable request.now.program request.now.job.main }
    ensures { result ≢ 2 }
{
    let Request { job, program } = request;
    match load(alloc, program, job.main, job.kib) {
        Ok(loaded) => match Machine::start(alloc, loaded) {
            Ok(mut machine) => {
                run(alloc, &mut machine, job.steps, shown, streams).unwrap_or(NO_MEMORY)
            }
            Err(NoMemory) => NO_MEMORY,
        },
        Err(LoadError::NoMemory) => NO_MEMORY,
        Err(error) => refuse(alloc, program, error, &mut streams.errors),
    }
}

/// Runs a machine over the streams, with a counter in slot 0 and a tape in slot 1, as mixedrun does.
fn run<R: Read + Drop, W: Write + Drop, E: Write + Drop>(
    alloc: Global,
    machine: &mut Machine,
    steps: u32,
    shown: Shown,
    streams: &mut Streams<R, W, E>,
) -> Result<u8, NoMemory>
    requires { IsWhole machine.old.body (isa_of machine.old.active) }
    ensures { IfOk result (λ status. status ≢ 2) }
{
    let mut devices: Vec<Box<dyn Device>> = Vec::new(alloc);
    devices.push(Box::new(alloc, Counter::new(alloc)?)?)?;
    devices.push(Box::new(alloc, Tape::new(alloc)?)?)?;
    let mut rack = Rack::new(alloc, devices)?;
    Ok(run_beside(
        alloc,
        machine,
        steps,
        shown,
        &mut streams.input,
        &mut streams.out,
        &mut streams.errors,
        &mut rack,
    ))
}

/// Runs a machine over streams and devices, and keeps its last steps.
fn run_beside<R: Read, W: Write, E: Write, D: Devices>(
    alloc: Global,
    machine: &mut Machine,
    steps: u32,
    shown: Shown,
    input: &mut R,
    out: &mut W,
    errors: &mut E,
    rack: &mut D,
) -> u8
    requires { IsWhole machine.old.body (isa_of machine.old.active) }
    ensures { result ≢ 2 }
{
    let Ok(mut history) = History::new(alloc, shown.last) else {
        return NO_MEMORY;
    };
    let Ok(reader) = BufReader::new(alloc, input) else {
        return NO_MEMORY;
    };
    let mut input = Counted::new(StdSource::new(reader));
    let mut out = Counted::new(StdSink::new(out));
    let mut trace = StdSink::new(errors);
    let ending = run_keeping(
        machine,
        &mut history,
        &mut input,
        &mut out,
        &mut trace,
        rack,
        steps,
    );
    let outcome = Outcome {
        ending,
        taken: input.bytes(),
        put: out.bytes(),
    };
    finish(
        alloc,
        machine,
        outcome,
        &mut history,
        shown.frames,
        &mut trace,
    )
}

/// Puts the last line of a trace and the report behind it, and answers the status.
fn finish<T: Sink>(
    alloc: Global,
    machine: &Machine,
    outcome: Outcome,
    history: &mut History,
    frames: Frames,
    trace: &mut T,
) -> u8
    requires { IsWhole machine.now.body (isa_of machine.now.active) }
    ensures { result ≢ 2 }
{
    let stop = outcome.ending.stop;
    let ended = put_last_line(trace, machine, stop);
    let Ok(text) = run_report(alloc, machine, outcome, history, frames) else {
        return NO_MEMORY;
    };
    let reported = ended.and(trace.put(&text));
    status(stop, reported.is_ok())
}

/// Puts the last line of a trace, if the run came to one.
fn put_last_line<T: Sink>(trace: &mut T, machine: &Machine, stop: Stop) -> Result<(), Failed> {
    let end = match stop {
        Stop::Exit(code) => End::Exit(code),
        Stop::Fault(fault) => End::Fault(machine.active.isa(), fault),
        Stop::Limit => End::Limit,
        _ => return Ok(()),
    };
    put_end(trace, &end)
}

/// The status of a run that was reported, or was not: only what the outside refused counts.
fn status(stop: Stop, reported: bool) -> u8
    ensures { result ≡ status_at stop reported }
{
    match stop {
        Stop::ReadFault => INPUT_FAILED,
        Stop::OutFault => OUTPUT_FAILED,
        Stop::TraceFault => TRACE_FAILED,
        _ => if reported { SUCCESS } else { TRACE_FAILED },
    }
}
