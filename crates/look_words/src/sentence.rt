// Sentences about words.
ghost use Rattle.std.specs.Prelude.{◌≡◌, ◌++◌, IfOk, codes, map};
ghost use Rattle.std.specs.String.{string_bytes};
ghost use Rattle.look_words.specs.Sentences.{before_text, key_wants as key_wants_text, missing_text, needs_of, of_word, refusal_text as refusal_of, why_by, why_text as why_of};
ghost use Rattle.look_text.specs.Whys.{at_place};

use crate::look::{Key, Refusal};
use look_text::{Label, Why, word_at};
use mix_bits::NoMemory;
use std::alloc::{AllocError, Global};

/// Why mixedlook refuses words, in a sentence.
pub fn refusal_text(alloc: Global, words: &[String], refusal: Refusal) -> Result<String, NoMemory>
    ensures { IfOk result (λ text. string_bytes text ≡ refusal_of (map string_bytes words.now) refusal) }
{
    let (word, said, wants) = refused(words, refusal);
    Ok(format!(in alloc; "{word}{said}{wants}")?)
}

/// The word or the key that is refused or missing, what is said of it, and what a key wants.
fn refused<'a>(words: &'a [String], refusal: Refusal) -> (&'a str, &'a str, &'a str)
    ensures { result.0.now ++ (result.1.now ++ result.2.now) ≡ refusal_of (map string_bytes words.now) refusal }
{
    match refusal {
        Refusal::Empty => ("", "a command is missing", ""),
        Refusal::Command => (word_at(words, 0), " is no command", ""),
        Refusal::Unknown(place) => (
            word_at(words, place),
            " is no KEY=VALUE of this command",
            "",
        ),
        Refusal::Twice(place) => (word_at(words, place), ": the key stands twice", ""),
        Refusal::Value(place, key) => (word_at(words, place), ": wants ", key_wants(key)),
        Refusal::Missing(key) => (key.text(), "= is missing, ", key_wants(key)),
    }
}

/// What a key of mixedlook wants.
#[tactic(auto, using(crate::proofs::Ranges::wants_last, crate::proofs::Ranges::wants_count, crate::proofs::Ranges::wants_keep))]
fn key_wants(key: Key) -> &'static str
    ensures { result.now ≡ key_wants_text key }
{
    match key {
        Key::Word => "eight upper-case hexadecimal digits",
        Key::File => "the name of a file",
        Key::Names => "the name of a file with the output of nm",
        Key::Image => "the name of a file that mixedrun kept",
        Key::Last => "a number from 0 to 1000, in decimal without a leading zero",
        Key::At => "eight upper-case hexadecimal digits",
        Key::Count => "a number from 1 to 65536, in decimal without a leading zero",
        Key::Frames => "all",
        Key::Input => "the name of a file",
        Key::Trace => "yes or no",
        Key::Keep => "a number from 0 to 1000, in decimal without a leading zero",
        Key::Script => "the name of a file",
        Key::Text => "the name of a file",
        Key::Set => "68k or ppc",
    }
}

/// Why mixedrun refuses words, in a sentence.
pub fn why_text(alloc: Global, words: &[String], why: Why) -> Result<String, NoMemory>
    ensures { IfOk result (λ text. string_bytes text ≡ why_of (map string_bytes words.now) why) }
{
    command_why(alloc, word_at(words, 0), words, why)
}

/// The same for a command whose words mixedrun judges.
fn command_why(alloc: Global, command: &str, words: &[String], why: Why) -> Result<String, NoMemory>
    ensures { IfOk result (λ text. string_bytes text ≡ why_by command.now (map string_bytes words.now) why) }
{
    Ok(why_sentence(alloc, command, words, why)?)
}

fn why_sentence(
    alloc: Global,
    command: &str,
    words: &[String],
    why: Why,
) -> Result<String, AllocError>
    ensures { IfOk result (λ text. string_bytes text ≡ why_by command.now (map string_bytes words.now) why) }
{
    match why {
        Why::Taken => String::from_str(alloc, "mixedrun takes these words"),
        Why::Empty => String::from_str(
            alloc,
            "no word: the first one is a command, run, continue, list, sample, assemble or debug",
        ),
        Why::Missing => missing_sentence(alloc, command),
        Why::Command => word_sentence(
            alloc,
            words,
            0,
            ", is no command: run, continue, list, sample, assemble or debug",
        ),
        Why::Keyless(place) => {
            key_sentence(alloc, words, place, command, " has no such ", "KEY=VALUE")
        }
        Why::Key(place, label) => {
            key_sentence(alloc, words, place, command, " has no key ", label.text())
        }
        Why::Value(place, label) => {
            key_sentence(alloc, words, place, label.text(), " wants ", label.wants())
        }
        Why::Again(place, label) => key_sentence(alloc, words, place, "", "", before(label)),
    }
}

/// That a command needs a word more.
fn missing_sentence(alloc: Global, command: &str) -> Result<String, AllocError>
    ensures { IfOk result (λ text. string_bytes text ≡ missing_text command.now) }
{
    let needs = needs(command);
    format!(in alloc; "a word is missing: {command} needs {needs}")
}

/// What is said of the word at a place.
fn word_sentence(
    alloc: Global,
    words: &[String],
    place: u32,
    said: &str,
) -> Result<String, AllocError>
    ensures { IfOk result (λ text. string_bytes text ≡ of_word place (at_place (map string_bytes words.now) place) said.now) }
{
    let word = word_at(words, place as usize);
    format!(in alloc; "word {place}, {word}{said}")
}

/// What is said of the key of the word at a place.
fn key_sentence(
    alloc: Global,
    words: &[String],
    place: u32,
    subject: &str,
    verb: &str,
    object: &str,
) -> Result<String, AllocError>
    ensures { IfOk result (λ text. string_bytes text ≡ of_word place (at_place (map string_bytes words.now) place) (codes ": " ++ (subject.now ++ (verb.now ++ object.now)))) }
{
    let word = word_at(words, place as usize);
    format!(in alloc; "word {place}, {word}: {subject}{verb}{object}")
}

/// What stands before a word that is good alone.
fn before(label: Label) -> &'static str
    ensures { result.now ≡ before_text label }
{
    match label {
        Label::Flat => "flat, rsrc or pef stands before it, and flat stands alone",
        Label::Rsrc => "rsrc or flat stands before it, and flat stands alone",
        Label::Pef => "pef or flat stands before it, and flat stands alone",
        _ => "its key stands before it",
    }
}

/// What a command of mixedrun needs.
fn needs(command: &str) -> &'static str
    ensures { result.now ≡ needs_of command.now }
{
    match command {
        "sample" => "n=N and depth=D",
        "assemble" => "set=SET, text=FILE and at=ADDRESS",
        "continue" => "image=FILE",
        "list" => {
            "at=ADDRESS, count=N, and the file of the main set: flat=FILE, rsrc=FILE, or pef=FILE for main=ppc"
        }
        "debug" => {
            "script=FILE, and the file of the main set: flat=FILE, rsrc=FILE, or pef=FILE for main=ppc"
        }
        _ => "the file of the main set: flat=FILE, rsrc=FILE, or pef=FILE for main=ppc",
    }
}
