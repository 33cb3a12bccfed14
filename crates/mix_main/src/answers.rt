// What the program answers to its words.
ghost use Rattle.std.specs.Prelude.{◌≡◌, ◌≢◌, [], IfErr, IfOk, map, option_copied, string_bytes};
ghost use Rattle.std.specs.IoError.{error_kind};
ghost use Rattle.mix_io.specs.StreamsClauses.{output};
ghost use Rattle.mix_top.specs.World.{Closes, PutsText};
ghost use Rattle.mix_main.specs.Answers.{Answers, IsUnread, text_for, text_named as text_of_word, unread_line};
ghost use Rattle.mix_main.specs.RunsClauses.{outputs};

use super::runs::run;
use super::texts::{HELP, VERSION};
use mix_io::Sink;
use mix_top::status::{BAD_WORDS, NO_MEMORY, OUTPUT_FAILED, SUCCESS, TRACE_FAILED};
use std::io::{self, ErrorKind, Read};
use std::rt::Files;

/// Does what the words ask for over the files of the system, with a counter in slot 0 and a tape in slot 1, and
/// answers the status: that of `mixed_main`, 0 for the help and the version, 2 for words of which one is no text,
/// 6 or 7 where the output or the trace failed there, and 9 where there was no memory to begin.
pub fn answer<R: Files + AllocGlobal, I: Read + Drop, O: Sink, T: Sink>(
    rt: &R,
    words: io::Result<Vec<String>>,
    input: I,
    out: &mut O,
    trace: &mut T,
) -> u8
    ensures read { IfOk words (λ list. Answers HELP.now VERSION.now (map string_bytes list.items) (I.remaining input)
        (outputs (output (O.held out.old) (O.faults out.old)) (output (T.held trace.old) (T.faults trace.old)))
        (outputs (output (O.held out.new) (O.faults out.new)) (output (T.held trace.new) (T.faults trace.new)))
        result) }
    ensures unread { IfErr words (λ error. IsUnread (error_kind error)
        (outputs (output (O.held out.old) (O.faults out.old)) (output (T.held trace.old) (T.faults trace.old)))
        (outputs (output (O.held out.new) (O.faults out.new)) (output (T.held trace.new) (T.faults trace.new)))
        result) }
{
    match words {
        Ok(words) => match text_of(&words) {
            Some(text) => print(out, text),
            None => run(rt, &words, input, out, trace),
        },
        Err(error) => refuse(error.kind(), trace),
    }
}

/// The text that words ask for, if they do.
fn text_of(words: &[String]) -> Option<&'static str>
    ensures { option_copied result ≡ text_for HELP.now VERSION.now (map string_bytes words.now) }
{
    match words {
        [] => None,
        [word, rest @ ..] => match rest {
            [] => text_named(word.as_str()),
            [_, ..] => None,
        },
    }
}

/// The text that a word asks for where it stands alone.
fn text_named(word: &str) -> Option<&'static str>
    ensures { option_copied result ≡ text_of_word HELP.now VERSION.now word.now }
{
    if word == "--help" {
        Some(HELP)
    } else if word == "--version" {
        Some(VERSION)
    } else {
        None
    }
}

/// Prints a text, and answers the status.
fn print<O: Sink>(out: &mut O, text: &str) -> u8
    ensures { PutsText (output (O.held out.old) (O.faults out.old)) (output (O.held out.new) (O.faults out.new)) text.now 0 result }
{
    match out.put(text.as_bytes()) {
        Ok(()) => SUCCESS,
        Err(_) => OUTPUT_FAILED,
    }
}

/// The status where the words were not read: for want of memory, or since one of them is no text.
fn refuse<T: Sink>(kind: ErrorKind, trace: &mut T) -> u8
    ensures memory { kind ≡ ErrorKind.OutOfMemory → (output (T.held trace.new) (T.faults trace.new) ≡ output (T.held trace.old) (T.faults trace.old)) × (result ≡ 9) }
    ensures text { kind ≢ ErrorKind.OutOfMemory → Closes (output (T.held trace.old) (T.faults trace.old)) (output (T.held trace.new) (T.faults trace.new)) [] unread_line 2 result }
{
    match kind {
        ErrorKind::OutOfMemory => NO_MEMORY,
        _ => refuse_words(trace),
    }
}

/// Says that a word is no text, as of a bad first word, and answers the status.
fn refuse_words<T: Sink>(trace: &mut T) -> u8
    ensures { Closes (output (T.held trace.old) (T.faults trace.old)) (output (T.held trace.new) (T.faults trace.new)) [] unread_line 2 result }
{
    match trace.put(b"words 0\n") {
        Ok(()) => BAD_WORDS,
        Err(_) => TRACE_FAILED,
    }
}
