// Files by the words that name them.
ghost use Rattle.std.specs.Prelude.{◌≡◌, ◌≤◌, IfErr, IfOk, length, map};
ghost use Rattle.std.specs.String.{string_bytes};
ghost use Rattle.job_words.specs.Jobs.{limit_of};
ghost use Rattle.job_words.specs.Asks.{name_at as name_of};
ghost use Rattle.look_words.specs.Requests.{IsLost};

use crate::failure::Failure;
use crate::program::value;
use crate::status::{NO_FILE, REFUSED};
use job_words::Key;
use look_text::{Piece, line_of, word_at};
use mix_io::{FetchError, FileShelf, Shelf};
use std::alloc::Global;
use std::rt::Files;

/// What stands behind the first equals sign of the word at a place; nothing where it has none, or there is no word.
pub fn name_at(words: &[String], place: usize) -> &str
    ensures { result.now ≡ name_of (map string_bytes words.now) place }
{
    value(word_at(words, place))
}

/// The bytes of the file of a name, of at most so many as a key's may have.
pub fn fetch<F: Files>(alloc: Global, files: &F, name: &str, key: Key) -> Result<Vec<u8>, Failure>
    ensures within { IfOk result (λ bytes. length bytes.items ≤ limit_of key) }
    ensures lost { IfErr result (λ failure. IsLost failure.status) }
{
    let most = key.limit();
    match FileShelf::new(files).fetch(alloc, name, most) {
        Ok(bytes) => Ok(bytes),
        Err(FetchError::NoMemory) => Err(Failure::no_memory()),
        Err(FetchError::Failed) => Err(unread(alloc, name)),
        Err(FetchError::TooLong(_)) => Err(too_long(alloc, name, most)),
    }
}

fn too_long(alloc: Global, name: &str, most: u32) -> Failure
    ensures { result.status ≡ 3 }
{
    Failure {
        status: REFUSED,
        sentence: line_of(
            alloc,
            &[
                Piece::Text(name),
                Piece::Text(" has more than "),
                Piece::Number(most),
                Piece::Text(" bytes"),
            ],
        )
        .ok(),
    }
}

/// That the file of a name could not be read.
pub fn unread(alloc: Global, name: &str) -> Failure
    ensures { result.status ≡ 4 }
{
    Failure {
        status: NO_FILE,
        sentence: line_of(
            alloc,
            &[Piece::Text(name), Piece::Text(" could not be read")],
        )
        .ok(),
    }
}
