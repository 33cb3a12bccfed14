// Machines that were kept.
ghost use Rattle.std.specs.Prelude.{◌≢◌};

use crate::said::{fail, print};
use crate::streams::Streams;
use job_words::Key;
use look_report::image_report;
use look_words::{Frames, Span, fetch};
use std::alloc::Global;
use std::io::{Read, Write};
use std::rt::Files;

/// Writes the state of a machine that was kept, or a part of its memory.
pub fn image<F: Files, R: Read + Drop, W: Write + Drop, E: Write + Drop>(
    alloc: Global,
    files: &F,
    name: &str,
    span: Option<Span>,
    frames: Frames,
    streams: &mut Streams<R, W, E>,
) -> u8
    ensures { result ≢ 2 }
{
    let bytes = match fetch(alloc, files, name, Key::Image) {
        Ok(bytes) => bytes,
        Err(failure) => return fail(&mut streams.errors, failure),
    };
    match image_report(alloc, name, &bytes, span, frames) {
        Ok(text) => print(&mut streams.out, &text),
        Err(failure) => fail(&mut streams.errors, failure),
    }
}
