// The program that words name: its words for mixedrun, its job and its files.
ghost use Rattle.std.specs.Prelude.{◌≡◌, IfErr, IfOk, Ok, false, is_some, map};
ghost use Rattle.std.specs.String.{string_bytes};
ghost use Rattle.job_words.specs.JobsClauses.{IsProperJob};
ghost use Rattle.job_words.specs.Words.{command_of};
ghost use Rattle.mix_load.specs.LoadClauses.{AreLoadable, IsSmall};
ghost use Rattle.look_text.specs.Whys.{Explains};
ghost use Rattle.look_text.specs.declared.why.Why.{Why};
ghost use Rattle.look_words.specs.Looks.{run_words as run_words_of};
ghost use Rattle.look_words.specs.Requests.{IsLost, IsUnmet, is_run};
ghost use Rattle.look_words.specs.Sentences.{why_text as why_of};
ghost use Rattle.look_words.specs.inner.Typed.{typed_why as typed_why_of};

use crate::failure::Failure;
use crate::files::{fetch, name_at};
use crate::program::{run_words, typed_behind};
use crate::sentence::why_text;
use crate::status::BAD_WORDS;
use job_words::{Command, Job, Key, read_words};
use look_text::{Why, explain};
use mix_bits::{File, NoMemory};
use mix_load::{FileBytes, Files as Program};
use std::alloc::Global;
use std::rt::Files;

/// What words ask mixedrun to run: a job, and its files.
#[derive(Drop)]
pub struct Request {
    pub job: Job,
    pub program: Program,
}

/// What words ask mixedrun to run.
#[tactic(auto, using(crate::proofs::Requests::unmet))]
pub fn requested<F: Files>(alloc: Global, files: &F, words: &[String]) -> Result<Request, Failure>
    ensures job { IfOk result (λ request. IsProperJob request.job) }
    ensures run { IfOk result (λ request. command_of (run_words_of (map string_bytes words.now)) ≡ Ok (Command.Run request.job)) }
    ensures files { IfOk result (λ request. AreLoadable request.program request.job.main) }
    ensures lost { IfErr result (λ failure. IsUnmet (is_run (command_of (run_words_of (map string_bytes words.now)))) failure.status) }
{
    let Ok(run) = run_words(alloc, words) else {
        return Err(Failure::no_memory());
    };
    match read_words(&run) {
        Ok(Command::Run(job)) => fetch_files(alloc, files, &run, job),
        _ => Err(unmet(alloc, words, &run)),
    }
}

/// Why mixedrun refuses the words of a run that stand for those of another command.
fn unmet(alloc: Global, words: &[String], run: &[String]) -> Failure
    ensures { IsUnmet false result.status }
{
    match unmet_text(alloc, words, run) {
        Ok(text) => Failure {
            status: BAD_WORDS,
            sentence: Some(text.into_bytes()),
        },
        Err(NoMemory) => Failure::no_memory(),
    }
}

/// The same in a sentence, which names the command and places words as they were typed.
fn unmet_text(alloc: Global, words: &[String], run: &[String]) -> Result<String, NoMemory>
    ensures { IfOk result (λ text. (why : Why) × Explains (map string_bytes run.now) why × (string_bytes text ≡ why_of (map string_bytes words.now) (typed_why_of (map string_bytes words.now) why))) }
{
    let why = explain(alloc, run)?;
    why_text(alloc, words, typed_why(words, why))
}

/// The same reason, with the place of its word as it was typed.
fn typed_why(words: &[String], why: Why) -> Why
    ensures { result ≡ typed_why_of (map string_bytes words.now) why }
{
    match why {
        Why::Keyless(place) => Why::Keyless(typed_behind(words, place)),
        Why::Key(place, label) => Why::Key(typed_behind(words, place), label),
        Why::Value(place, label) => Why::Value(typed_behind(words, place), label),
        Why::Again(place, label) => Why::Again(typed_behind(words, place), label),
        why => why,
    }
}

/// Why mixedrun refuses words, in a sentence.
pub fn explanation(alloc: Global, words: &[String]) -> Result<String, NoMemory>
    ensures { IfOk result (λ text. (why : Why) × Explains (map string_bytes words.now) why × (string_bytes text ≡ why_of (map string_bytes words.now) why)) }
{
    let why = explain(alloc, words)?;
    why_text(alloc, words, why)
}

/// A job with its files.
#[tactic(auto, using(crate::proofs::Requests::loadable))]
fn fetch_files<F: Files>(
    alloc: Global,
    files: &F,
    words: &[String],
    job: Job,
) -> Result<Request, Failure>
    requires { IsProperJob job }
    ensures job { IfOk result (λ request. request.job ≡ job) }
    ensures files { IfOk result (λ request. AreLoadable request.program job.main) }
    ensures lost { IfErr result (λ failure. IsLost failure.status) }
{
    let flat = fetch_named(alloc, files, words, File::Flat, job.flat)?;
    let rsrc = fetch_named(alloc, files, words, File::Rsrc, job.rsrc)?;
    let pef = fetch_named(alloc, files, words, File::Pef, job.pef)?;
    let program = Program { flat, rsrc, pef };
    Ok(Request { job, program })
}

/// The file that the word at a place names, if there is such a word.
fn fetch_named<F: Files>(
    alloc: Global,
    files: &F,
    words: &[String],
    file: File,
    place: Option<u32>,
) -> Result<Option<FileBytes>, Failure>
    ensures there { IfOk result (λ bytes. is_some bytes ≡ is_some place) }
    ensures small { IfOk result IsSmall }
    ensures lost { IfErr result (λ failure. IsLost failure.status) }
{
    let Some(place) = place else {
        return Ok(None);
    };
    let name = name_at(words, place as usize);
    let bytes = fetch(alloc, files, name, Key::Program(file))?;
    Ok(Some(FileBytes::of(bytes)))
}
