// The words of the commands that load a program: mixedrun judges most of them.
ghost use Rattle.std.specs.Prelude.{◌≡◌, ◌+◌, ◌^◌, ◌<◌, ◌++◌, [], not, IfOk, OnOk, filter, length, map};
ghost use Rattle.std.specs.String.{string_bytes};
ghost use Rattle.job_words.specs.Settings.{value_in};
ghost use Rattle.look_words.specs.Looks.{end_of, has_key as has_key_by, is_frames as is_frames_by, is_last as is_last_by, is_own as is_own_by, is_session as is_session_by, is_unmapped as is_unmapped_by, map_of, run_words as run_words_of, told_by, with_frames, with_last};
ghost use Rattle.look_words.specs.inner.Typed.{typed_behind as behind_typed, typed_place as place_typed};

use crate::look::{Frames, Key, Look, Refusal};
use mix_bits::{NoMemory, read_decimal};
use std::alloc::Global;

/// How many of the last steps are told, if nothing is said of it.
const FEW: u32 = 16;

/// How many of them can be told.
const MOST: u32 = 1000;

/// What the words of `end` say of what is told: how many of the last steps, and which frames.
#[derive(Clone, Copy)]
pub struct Told {
    pub last: Option<u32>,
    pub frames: Frames,
}

/// That nothing was said of it.
pub const UNTOLD: Told = Told {
    last: None,
    frames: Frames::Few,
};

/// The words with which mixedrun runs the program that the words of `map`, `end` or `gdb` name.
pub fn run_words(alloc: Global, words: &[String]) -> Result<Vec<String>, NoMemory>
    ensures { IfOk result (λ run. map string_bytes run.items ≡ run_words_of (map string_bytes words.now)) }
{
    let mut run = vec![in alloc; String::from_str(alloc, "run")?]?;
    if let [_, rest @ ..] = words {
        add_words(&mut run, rest)?;
    }
    Ok(run)
}

/// Appends the words but those with a key of `end` or `gdb` itself.
fn add_words(run: &mut Vec<String>, words: &[String]) -> Result<(), NoMemory>
    ensures { OnOk result (map string_bytes run.new.items ≡ map string_bytes run.old.items ++ filter (λ word. not (is_own_by word)) (map string_bytes words.now)) }
{
    match words {
        [] => Ok(()),
        [word, rest @ ..] => {
            if !is_own(word.as_str()) {
                run.push(word.clone()?)?;
            }
            add_words(run, rest)
        }
    }
}

/// The place among words of one that has this place in `run_words` of them.
pub fn typed_behind(words: &[String], place: u32) -> u32
    ensures { result ≡ behind_typed (map string_bytes words.now) place }
{
    match words {
        [] => place,
        [_, rest @ ..] => {
            if place == 0 {
                0
            } else {
                typed_place(rest, place - 1).saturating_add(1)
            }
        }
    }
}

/// The same of the words behind a command.
fn typed_place(words: &[String], place: u32) -> u32
    ensures { result ≡ place_typed (map string_bytes words.now) place }
{
    match words {
        [] => place,
        [word, rest @ ..] => {
            if is_own(word.as_str()) {
                typed_place(rest, place).saturating_add(1)
            } else if place == 0 {
                0
            } else {
                typed_place(rest, place - 1).saturating_add(1)
            }
        }
    }
}

/// Reads the words of `map`, or of another command that takes the same ones, from a place on.
pub fn read_map(look: Look, place: usize, words: &[String]) -> Result<Look, Refusal>
    requires { place + length words.now < 2 ^ 64 }
    ensures { result ≡ map_of look place (map string_bytes words.now) }
{
    match words {
        [] => Ok(look),
        [word, rest @ ..] => {
            if is_unmapped(word.as_str()) {
                Err(Refusal::Unknown(place))
            } else {
                read_map(look, place + 1, rest)
            }
        }
    }
}

/// Reads the words of `end` from a place on, where those before said what is told.
pub fn read_end(place: usize, words: &[String], told: Told) -> Result<Look, Refusal>
    requires { place + length words.now < 2 ^ 64 }
    ensures { result ≡ end_of place (map string_bytes words.now) told }
{
    match words {
        [] => Ok(Look::End(told.last.unwrap_or(FEW), told.frames)),
        [word, rest @ ..] => match read_told(place, word.as_str(), told) {
            Ok(told) => read_end(place + 1, rest, told),
            Err(refusal) => Err(refusal),
        },
    }
}

/// What is told behind a word of `end`.
fn read_told(place: usize, word: &str, told: Told) -> Result<Told, Refusal>
    ensures { result ≡ told_by place word.now told }
{
    if has_key(word, "save") || is_session(word) {
        Err(Refusal::Unknown(place))
    } else if is_last(word) {
        read_last(place, word, told)
    } else if is_frames(word) {
        read_frames(place, word, told)
    } else {
        Ok(told)
    }
}

/// The number of steps behind a word.
fn read_last(place: usize, word: &str, told: Told) -> Result<Told, Refusal>
    ensures { result ≡ with_last place word.now told }
{
    match (told.last, read_decimal(value(word).as_bytes())) {
        (Some(_), _) => Err(Refusal::Twice(place)),
        (None, Some(count)) if count <= MOST => Ok(Told {
            last: Some(count),
            frames: told.frames,
        }),
        (None, _) => Err(Refusal::Value(place, Key::Last)),
    }
}

/// That all frames are told.
fn read_frames(place: usize, word: &str, told: Told) -> Result<Told, Refusal>
    ensures { result ≡ with_frames place word.now told }
{
    match told.frames {
        Frames::All => Err(Refusal::Twice(place)),
        Frames::Few if value(word) == "all" => Ok(Told {
            last: told.last,
            frames: Frames::All,
        }),
        Frames::Few => Err(Refusal::Value(place, Key::Frames)),
    }
}

/// What stands behind the equals sign of a word.
pub fn value(word: &str) -> &str
    ensures { result.now ≡ value_in word.now }
{
    match word.split_once('=') {
        Some((_, value)) => value,
        None => "",
    }
}

/// Whether a word is none of `map`'s, though of a run's.
pub fn is_unmapped(word: &str) -> bool
    ensures { result ≡ is_unmapped_by word.now }
{
    has_key(word, "steps") || has_key(word, "save") || is_own(word)
}

/// Whether a word is `end`'s or `gdb`'s alone, and none of a run's.
fn is_own(word: &str) -> bool
    ensures { result ≡ is_own_by word.now }
{
    is_last(word) || is_frames(word) || is_session(word)
}

/// Whether a word is `gdb`'s alone.
fn is_session(word: &str) -> bool
    ensures { result ≡ is_session_by word.now }
{
    has_key(word, "input") || has_key(word, "trace") || has_key(word, "keep")
}

fn is_frames(word: &str) -> bool
    ensures { result ≡ is_frames_by word.now }
{
    has_key(word, "frames")
}

fn is_last(word: &str) -> bool
    ensures { result ≡ is_last_by word.now }
{
    has_key(word, "last")
}

/// Whether a word has a key.
pub fn has_key(word: &str, key: &str) -> bool
    ensures { result ≡ has_key_by key.now word.now }
{
    match word.split_once('=') {
        Some((found, _)) => found == key,
        None => false,
    }
}
