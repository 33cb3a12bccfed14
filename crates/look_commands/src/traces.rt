// Traces as trees and as pictures.
ghost use Rattle.std.specs.Prelude.{◌≢◌};

use crate::said::fail;
use crate::streams::Streams;
use look_report::{Shape, write_trace};
use look_words::name_at;
use look_words::status::SUCCESS;
use std::alloc::Global;
use std::io::{Read, Write};
use std::rt::Files;

/// Writes the trace in the file of a word, with the names in the file of another one.
pub fn trace<F: Files, R: Read + Drop, W: Write + Drop, E: Write + Drop>(
    alloc: Global,
    files: &F,
    words: &[String],
    shape: Shape,
    file: usize,
    names: Option<usize>,
    streams: &mut Streams<R, W, E>,
) -> u8
    ensures { result ≢ 2 }
{
    let file = name_at(words, file);
    let names = name_if(words, names);
    match write_trace(alloc, files, shape, file, names, &mut streams.out) {
        Ok(()) => SUCCESS,
        Err(failure) => fail(&mut streams.errors, failure),
    }
}

/// The name in the word at a place, if there is such a word.
fn name_if(words: &[String], place: Option<usize>) -> Option<&str> {
    Some(name_at(words, place?))
}
