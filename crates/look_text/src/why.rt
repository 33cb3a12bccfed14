ghost use Rattle.std.specs.Prelude.{◌≡◌, IfOk, map};
ghost use Rattle.std.specs.String.{string_bytes};
ghost use Rattle.job_words.specs.Words.{bad_at, command_of};
ghost use Rattle.look_text.specs.Labels.{label_in, label_of as label_of_word};
ghost use Rattle.look_text.specs.Whys.{Explains, ExplainsWord, at_place};

use crate::ask::is_refused;
use crate::label::Label;
use job_words::read_words;
use mix_bits::NoMemory;
use std::alloc::Global;

/// Why mixedrun refuses words. A place is that of the word, counted from 0.
#[derive(Clone, Copy)]
pub enum Why {
    /// It does not refuse them.
    Taken,
    /// There is no word.
    Empty,
    /// The first word is no command.
    Command,
    /// All words are good, and one is missing.
    Missing,
    /// The word has no key of mixedrun's before an equals sign.
    Keyless(u32),
    /// The command does not know the word's key.
    Key(u32, Label),
    /// The value is none of the key.
    Value(u32, Label),
    /// The word is good alone: its key stood before, or one that excludes it.
    Again(u32, Label),
}

/// Why mixedrun refuses words.
pub fn explain(alloc: Global, words: &[String]) -> Result<Why, NoMemory>
    ensures { IfOk result (Explains (map string_bytes words.now)) }
{
    match read_words(words) {
        Ok(_) => Ok(Why::Taken),
        Err(bad) => reason(alloc, words, bad.place),
    }
}

/// Why the word at a place is refused.
#[tactic(auto, using(crate::proofs::Explained::explained))]
fn reason(alloc: Global, words: &[String], place: u32) -> Result<Why, NoMemory>
    requires { command_of (map string_bytes words.now) ≡ Err (bad_at place) }
    ensures { IfOk result (Explains (map string_bytes words.now)) }
{
    if words.is_empty() {
        return Ok(Why::Empty);
    }
    if place == 0 {
        return Ok(Why::Command);
    }
    if words.len() <= place as usize {
        return Ok(Why::Missing);
    }
    let word = word_at(words, place as usize);
    word_reason(alloc, word_at(words, 0), word, place)
}

/// The word at a place, or nothing behind the last one.
pub fn word_at(words: &[String], place: usize) -> &str
    ensures { result.now ≡ at_place (map string_bytes words.now) place }
{
    if place < words.len() {
        words[place].as_str()
    } else {
        ""
    }
}

/// Why a word behind a command is refused.
fn word_reason(alloc: Global, command: &str, word: &str, place: u32) -> Result<Why, NoMemory>
    ensures { IfOk result (ExplainsWord command.now word.now place) }
{
    match label_of(word) {
        Some(label) => {
            if is_refused(alloc, command, label.example())? {
                Ok(Why::Key(place, label))
            } else if is_refused(alloc, command, word)? {
                Ok(Why::Value(place, label))
            } else {
                Ok(Why::Again(place, label))
            }
        }
        None => Ok(Why::Keyless(place)),
    }
}

/// The key of mixedrun's before a word's equals sign.
#[tactic(auto, unfolding(crate::specs::Labels::label_of))]
fn label_of(word: &str) -> Option<Label>
    ensures { result ≡ label_of_word word.now }
{
    match word.split_once('=') {
        Some((key, _)) => find(&Label::ALL, key),
        None => None,
    }
}

/// The first of these keys that has a text.
fn find(labels: &[Label], text: &str) -> Option<Label>
    ensures { result ≡ label_in labels.now text.now }
{
    for label in labels {
        if text == label.text() {
            return Some(*label);
        }
    }
    None
}
