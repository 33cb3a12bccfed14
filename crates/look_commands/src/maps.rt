// Where the pieces of a program lie.
ghost use Rattle.std.specs.Prelude.{◌≡◌, ◌≢◌, ◌⊎◌, map as map_list};
ghost use Rattle.std.specs.String.{string_bytes};
ghost use Rattle.job_words.specs.JobsClauses.{IsProperJob};
ghost use Rattle.job_words.specs.Words.{command_of};
ghost use Rattle.mix_load.specs.LoadClauses.{AreLoadable, IsSmall};
ghost use Rattle.look_words.specs.Looks.{run_words as run_words_of};
ghost use Rattle.look_words.specs.Requests.{is_run};
ghost use Rattle.look_commands.specs.Told.{Loads, PutsMapOf, WritesMap};

use crate::said::{fail, print, say};
use crate::streams::Streams;
use job_words::Job;
use look_scan::scan_program;
use look_text::{Mapped, map_program};
use look_words::status::{NO_MEMORY, REFUSED, SUCCESS};
use look_words::{load_error_text, requested};
use mix_bits::NoMemory;
use mix_load::{Files as Program, LoadError};
use std::alloc::Global;
use std::io::{Read, Write};
use std::rt::Files;

/// Writes where the pieces lie of the program that words name.
#[tactic(auto, using(crate::proofs::Loading::unmapped))]
pub fn map<F: Files, R: Read + Drop, W: Write + Drop, E: Write + Drop>(
    alloc: Global,
    files: &F,
    words: &[String],
    streams: &mut Streams<R, W, E>,
) -> u8
    ensures { WritesMap (command_of (run_words_of (map_list string_bytes words.now))) (W.contents streams.old.out) (W.contents streams.new.out) result }
{
    match requested(alloc, files, words) {
        Ok(request) => write_map(alloc, &request.program, request.job, streams),
        Err(failure) => fail(&mut streams.errors, failure),
    }
}

/// Writes where the pieces of files lie as a job loads them. Where they are refused it writes what could be read, and
/// says why to the errors.
pub fn write_map<R: Read + Drop, W: Write + Drop, E: Write + Drop>(
    alloc: Global,
    program: &Program,
    job: Job,
    streams: &mut Streams<R, W, E>,
) -> u8
    requires job { IsProperJob job }
    requires files { AreLoadable program.now job.main }
    ensures { PutsMapOf program.now job (W.contents streams.old.out) (W.contents streams.new.out) result }
{
    match map_program(alloc, program, job.main, job.kib) {
        Ok(Mapped::Loaded(text)) => print(&mut streams.out, &text),
        Ok(Mapped::Refused(text, error)) => {
            let printed = print(&mut streams.out, &text);
            let refused = refuse(alloc, program, error, &mut streams.errors);
            if printed == SUCCESS { refused } else { printed }
        }
        Err(NoMemory) => NO_MEMORY,
    }
}

/// Writes what the program would ask for that words name.
#[tactic(auto, using(crate::proofs::Loading::unloaded))]
pub fn scan<F: Files, R: Read + Drop, W: Write + Drop, E: Write + Drop>(
    alloc: Global,
    files: &F,
    words: &[String],
    streams: &mut Streams<R, W, E>,
) -> u8
    ensures { Loads (is_run (command_of (run_words_of (map_list string_bytes words.now)))) (W.contents streams.old.out) (W.contents streams.new.out) result }
{
    match requested(alloc, files, words) {
        Ok(request) => write_scan(alloc, &request.program, request.job, streams),
        Err(failure) => fail(&mut streams.errors, failure),
    }
}

/// Writes what the program of a job and its files would ask for. Where it is not loaded, it says why to the errors.
fn write_scan<R: Read + Drop, W: Write + Drop, E: Write + Drop>(
    alloc: Global,
    program: &Program,
    job: Job,
    streams: &mut Streams<R, W, E>,
) -> u8
    requires job { IsProperJob job }
    requires files { AreLoadable program.now job.main }
    ensures { result ≢ 2 }
{
    match scan_program(alloc, program, job.main, job.kib) {
        Ok(Mapped::Loaded(text)) => print(&mut streams.out, &text),
        Ok(Mapped::Refused(text, error)) => {
            let printed = print(&mut streams.out, &text);
            let refused = refuse(alloc, program, error, &mut streams.errors);
            if printed == SUCCESS { refused } else { printed }
        }
        Err(NoMemory) => NO_MEMORY,
    }
}

/// Says why files are not loaded.
pub fn refuse<E: Write>(alloc: Global, program: &Program, error: LoadError, errors: &mut E) -> u8
    requires { IsSmall program.now.pef }
    ensures { (result ≡ 3) ⊎ (result ≡ 9) }
{
    match load_error_text(alloc, program, error) {
        Ok(text) => {
            say(errors, &text);
            REFUSED
        }
        Err(NoMemory) => NO_MEMORY,
    }
}
