ghost use Rattle.std.specs.Prelude.{◌≡◌, ◌+◌, ◌<◌, IfErr, IfOk, map, length};
ghost use Rattle.std.specs.String.{string_bytes};
ghost use Rattle.job_words.specs.Asks.{Asks, IsFirstBad, name_at};
ghost use Rattle.job_words.specs.inner.Drafts.{settings_in};
ghost use Rattle.job_words.specs.JobsClauses.{IsProper};
ghost use Rattle.job_words.specs.Words.{draft_of, command_by, command_of};

use super::draft::{Draft, make};
use super::job::{BadWord, Command};
use super::setting::{Verb, read_setting, read_verb};

/// Reads the words of a command line: the command that they ask for, or the place of the first bad word.
pub fn read_words(words: &[String]) -> Result<Command, BadWord>
    ensures value { result ≡ command_of (map string_bytes words.now) }
    ensures asked { IfOk result (Asks (map string_bytes words.now)) }
    ensures refused { IfErr result (λ bad. IsFirstBad (map string_bytes words.now) bad.place) }
    ensures proper { IfOk result (IsProper (map string_bytes words.now)) }
{
    read_all(words)
}

/// Reads the command and the words after it.
fn read_all(words: &[String]) -> Result<Command, BadWord>
    ensures { result ≡ command_of (map string_bytes words.now) }
{
    match words {
        [] => Err(BadWord { place: 0 }),
        [command, rest @ ..] => match read_verb(command.as_str()) {
            Some(verb) => read_command(verb, rest),
            None => Err(BadWord { place: 0 }),
        },
    }
}

/// Reads the words after the command.
fn read_command(verb: Verb, words: &[String]) -> Result<Command, BadWord>
    ensures { result ≡ command_by verb (map string_bytes words.now) }
{
    let draft = read_settings(verb, 1, words, Draft::new())?;
    make(verb, &draft).ok_or(BadWord {
        place: 1 + words.len() as u32,
    })
}

/// Reads the words from place `place` on.
fn read_settings(verb: Verb, place: u32, words: &[String], draft: Draft) -> Result<Draft, BadWord>
    requires { place ≡ 1 + settings_in draft }
    ensures value { result ≡ draft_of verb place (map string_bytes words.now) draft }
    ensures more { IfOk result (λ next. settings_in next ≡ settings_in draft + length words.now) }
{
    match words {
        [] => Ok(draft),
        [word, rest @ ..] => match read_setting(verb, word.as_str()) {
            Some(setting) => match draft.with(place, setting) {
                Some(next) => read_settings(verb, place + 1, rest, next),
                None => Err(BadWord { place }),
            },
            None => Err(BadWord { place }),
        },
    }
}

/// What stands behind the first equals sign of the word at a place; nothing where it has none.
pub fn file_name(words: &[String], place: u32) -> &str
    requires { place < length words.now }
    ensures { result.now ≡ name_at (map string_bytes words.now) place }
{
    match words[place as usize].as_str().split_once('=') {
        Some((_, name)) => name,
        None => "",
    }
}
