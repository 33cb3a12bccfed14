// A program that gdb is served with.
ghost use Rattle.std.specs.Prelude.{◌≡◌, ◌≤◌, ◌⊎◌, [], IfErr, IfOk, false, is_some, map};
ghost use Rattle.std.specs.String.{string_bytes};
ghost use Rattle.switch_frame.specs.Records.{isa_of};
ghost use Rattle.switch_frame.specs.ProgramClauses.{IsProgram};
ghost use Rattle.mixed_machine.specs.Machine.{IsWhole};
ghost use Rattle.mix_load.specs.LoadClauses.{AreLoadable};
ghost use Rattle.job_words.specs.JobsClauses.{IsProperJob};
ghost use Rattle.job_words.specs.Words.{command_of};
ghost use Rattle.look_words.specs.Looks.{run_words as run_words_of};
ghost use Rattle.look_words.specs.Requests.{IsLost};
ghost use Rattle.look_commands.specs.Gdb.{ServesFiles, ServesProgram, ServesWith, status_of};
ghost use Rattle.look_commands.specs.GdbClauses.{wire};
ghost use Rattle.look_commands.specs.Served.{ServesJob, ServesOver, ServesRun};

use crate::maps::refuse;
use crate::said::fail;
use crate::streams::Streams;
use gdb_session::Broken;
use job_words::{Job, Key};
use look_gdb::{Settings, Start, serve_machine};
use look_words::status::{INPUT_FAILED, NO_MEMORY, OUTPUT_FAILED, SUCCESS};
use look_words::{Failure, Request, fetch, requested};
use mix_bits::NoMemory;
use mix_engine::Machine;
use mix_io::{Sink, Source, StdSink, StdSource};
use mix_load::{Files as ProgramFiles, LoadError, load};
use std::alloc::Global;
use std::io::{BufReader, Read, Write};
use std::rt::Files;
use switch_frame::Program as Loaded;

/// What surrounds the program: the file that is its input, if there is one, and how gdb is served.
#[derive(Clone, Copy)]
pub struct Program<'a> {
    pub input: Option<&'a str>,
    pub settings: Settings,
}

/// What surrounds a program that gdb is served with: its whole input, and how that is done.
#[derive(Drop)]
pub struct Given {
    pub input: Vec<u8>,
    pub settings: Settings,
}

/// Serves gdb over the input and the output with the program that words name.
#[tactic(auto, using(crate::proofs::Loading::unserved))]
pub fn gdb<F: Files, R: Read + Drop, W: Write + Drop, E: Write + Drop>(
    alloc: Global,
    files: &F,
    words: &[String],
    program: Program,
    streams: &mut Streams<R, W, E>,
) -> u8
    ensures { ServesRun (command_of (run_words_of (map string_bytes words.now))) (is_some program.entry.input) program.entry.settings (R.remaining streams.old.input) (W.contents streams.old.out) (W.contents streams.new.out) result }
{
    match requested(alloc, files, words) {
        Ok(request) => serve_request(alloc, files, &request, program, streams),
        Err(failure) => fail(&mut streams.errors, failure),
    }
}

/// The same of a job and its files.
fn serve_request<F: Files, R: Read + Drop, W: Write + Drop, E: Write + Drop>(
    alloc: Global,
    files: &F,
    request: &Request,
    program: Program,
    streams: &mut Streams<R, W, E>,
) -> u8
    requires job { IsProperJob request.now.job }
    requires files { AreLoadable request.now.program request.now.job.main }
    ensures { ServesJob request.now.job (is_some program.entry.input) program.entry.settings (R.remaining streams.old.input) (W.contents streams.old.out) (W.contents streams.new.out) result }
{
    let settings = program.settings;
    match read_input(alloc, files, program.input) {
        Ok(input) => serve_over(
            alloc,
            &request.program,
            request.job,
            Given { input, settings },
            &mut streams.input,
            &mut streams.out,
            &mut streams.errors,
        ),
        Err(failure) => fail(&mut streams.errors, failure),
    }
}

/// The whole input of the program: a file, or nothing.
fn read_input<F: Files>(alloc: Global, files: &F, name: Option<&str>) -> Result<Vec<u8>, Failure>
    ensures lost { IfErr result (λ failure. IsLost failure.status) }
    ensures empty { is_some name.entry ≡ false → IfOk result (λ bytes. bytes.items ≡ []) }
{
    match name {
        Some(name) => fetch(alloc, files, name, Key::Text),
        None => Ok(Vec::new(alloc)),
    }
}

/// Serves gdb with the program of files over a reader and writers.
fn serve_over<R: Read, W: Write, E: Write>(
    alloc: Global,
    files: &ProgramFiles,
    job: Job,
    given: Given,
    input: &mut R,
    out: &mut W,
    errors: &mut E,
) -> u8
    requires job { IsProperJob job }
    requires files { AreLoadable files.now job.main }
    ensures { ServesOver files.now job given.input.items given.settings (wire (R.remaining input.old) 0 (W.contents out.old) 0) result }
{
    let Ok(reader) = BufReader::new(alloc, input) else {
        return NO_MEMORY;
    };
    let mut input = StdSource::new(reader);
    let mut out = StdSink::new(out);
    serve_files(alloc, files, job, given, &mut input, &mut out, errors)
}

/// Serves gdb with the program of files as a job loads them. Where they are refused, it says why to the errors.
pub fn serve_files<I: Source, O: Sink, E: Write>(
    alloc: Global,
    files: &ProgramFiles,
    job: Job,
    given: Given,
    input: &mut I,
    out: &mut O,
    errors: &mut E,
) -> u8
    requires job { IsProperJob job }
    requires files { AreLoadable files.now job.main }
    ensures { ServesFiles files.now job given.input.items given.settings (wire (I.left input.old) (I.faults input.old) (O.held out.old) (O.faults out.old)) (wire (I.left input.new) (I.faults input.new) (O.held out.new) (O.faults out.new)) result }
{
    match load(alloc, files, job.main, job.kib) {
        Ok(program) => serve_program(alloc, program, given, input, out),
        Err(LoadError::NoMemory) => NO_MEMORY,
        Err(error) => refuse(alloc, files, error, errors),
    }
}

/// The same of a program that was loaded.
fn serve_program<I: Source, O: Sink>(
    alloc: Global,
    program: Loaded,
    given: Given,
    input: &mut I,
    out: &mut O,
) -> u8
    requires { IsProgram program }
    ensures { ServesProgram program given.input.items given.settings (wire (I.left input.old) (I.faults input.old) (O.held out.old) (O.faults out.old)) (wire (I.left input.new) (I.faults input.new) (O.held out.new) (O.faults out.new)) result }
{
    match Machine::start(alloc, program) {
        Ok(machine) => {
            let start = Start {
                machine,
                input: given.input,
                settings: given.settings,
            };
            serve(alloc, start, input, out)
        }
        Err(NoMemory) => NO_MEMORY,
    }
}

/// The same of a machine at the start of its program.
fn serve<I: Source, O: Sink>(alloc: Global, start: Start, input: &mut I, out: &mut O) -> u8
    requires { IsWhole start.machine.body (isa_of start.machine.active) }
    ensures { ServesWith start.machine start.input.items start.settings (wire (I.left input.old) (I.faults input.old) (O.held out.old) (O.faults out.old)) (wire (I.left input.new) (I.faults input.new) (O.held out.new) (O.faults out.new)) result }
{
    status(serve_machine(alloc, start, input, out))
}

fn status(served: Result<(), Broken>) -> u8
    ensures { result ≡ status_of served }
{
    match served {
        Ok(()) => SUCCESS,
        Err(Broken::NoMemory) => NO_MEMORY,
        Err(Broken::Input) => INPUT_FAILED,
        Err(Broken::Output) => OUTPUT_FAILED,
    }
}
