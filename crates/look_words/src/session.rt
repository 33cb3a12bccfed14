// The words of `gdb` that are not those of a run.
ghost use Rattle.std.specs.Prelude.{◌≡◌, ◌+◌, ◌^◌, ◌<◌, length, map};
ghost use Rattle.std.specs.String.{string_bytes};
ghost use Rattle.look_words.specs.Looks.{gdb_of, server_of, session_by, trace_said, with_input, with_keep, with_trace};

use crate::look::{Key, Look, Refusal, Server};
use crate::program::{has_key, is_unmapped, value};
use mix_bits::read_decimal;

/// How many machines are kept, if nothing is said of it.
const FEW_KEPT: u32 = 32;

/// How many of them can be kept.
const MOST_KEPT: u32 = 1000;

/// What words say of a session of gdb's: the place of the word that names the input, whether lines are told, and how many
/// machines are kept.
#[derive(Clone, Copy)]
pub struct Session {
    pub input: Option<usize>,
    pub trace: Option<bool>,
    pub keep: Option<u32>,
}

/// That nothing was said of it.
pub const UNSAID: Session = Session {
    input: None,
    trace: None,
    keep: None,
};

/// Reads the words of `gdb` from a place on, where those before said this of the session.
pub fn read_gdb(place: usize, words: &[String], session: Session) -> Result<Look, Refusal>
    requires { place + length words.now < 2 ^ 64 }
    ensures { result ≡ gdb_of place (map string_bytes words.now) session }
{
    match words {
        [] => Ok(Look::Gdb(server(session))),
        [word, rest @ ..] => match read_session(place, word.as_str(), session) {
            Ok(session) => read_gdb(place + 1, rest, session),
            Err(refusal) => Err(refusal),
        },
    }
}

/// The server that is asked for behind all words.
fn server(session: Session) -> Server
    ensures { result ≡ server_of session }
{
    Server {
        input: session.input,
        is_traced: session.trace.unwrap_or(false),
        keep: session.keep.unwrap_or(FEW_KEPT),
    }
}

/// What is said of the session behind a word.
fn read_session(place: usize, word: &str, session: Session) -> Result<Session, Refusal>
    ensures { result ≡ session_by place word.now session }
{
    if has_key(word, "input") {
        read_input(place, word, session)
    } else if has_key(word, "trace") {
        read_trace(place, word, session)
    } else if has_key(word, "keep") {
        read_keep(place, word, session)
    } else if is_unmapped(word) {
        Err(Refusal::Unknown(place))
    } else {
        Ok(session)
    }
}

/// The name of the input, which is not empty.
fn read_input(place: usize, word: &str, session: Session) -> Result<Session, Refusal>
    ensures { result ≡ with_input place word.now session }
{
    match session.input {
        Some(_) => Err(Refusal::Twice(place)),
        None if value(word).is_empty() => Err(Refusal::Value(place, Key::Input)),
        None => Ok(Session {
            input: Some(place),
            trace: session.trace,
            keep: session.keep,
        }),
    }
}

fn read_trace(place: usize, word: &str, session: Session) -> Result<Session, Refusal>
    ensures { result ≡ with_trace place word.now session }
{
    match (session.trace, read_choice(value(word))) {
        (Some(_), _) => Err(Refusal::Twice(place)),
        (None, Some(trace)) => Ok(Session {
            input: session.input,
            trace: Some(trace),
            keep: session.keep,
        }),
        (None, None) => Err(Refusal::Value(place, Key::Trace)),
    }
}

/// How many machines are kept.
fn read_keep(place: usize, word: &str, session: Session) -> Result<Session, Refusal>
    ensures { result ≡ with_keep place word.now session }
{
    match (session.keep, read_decimal(value(word).as_bytes())) {
        (Some(_), _) => Err(Refusal::Twice(place)),
        (None, Some(count)) if count <= MOST_KEPT => Ok(Session {
            input: session.input,
            trace: session.trace,
            keep: Some(count),
        }),
        (None, _) => Err(Refusal::Value(place, Key::Keep)),
    }
}

fn read_choice(value: &str) -> Option<bool>
    ensures { result ≡ trace_said value.now }
{
    match value {
        "yes" => Some(true),
        "no" => Some(false),
        _ => None,
    }
}
