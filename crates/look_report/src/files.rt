// Traces in files.
ghost use Rattle.std.specs.Prelude.{◌≢◌, IfErr};

use crate::error::LookError;
use crate::names::Names;
use crate::picture::write_picture;
use crate::reading::Reading;
use crate::tree::write_tree;
use look_words::{Failure, unread};
use std::alloc::Global;
use std::fs;
use std::io::{self, BufRead, BufReader, BufWriter, Write};
use std::rt::Files;

/// How a trace is written.
#[derive(Clone, Copy)]
pub enum Shape {
    Tree,
    Picture,
}

/// Writes the trace in the file of a name, with the names of routines in another file, if there is one.
pub fn write_trace<F: Files, W: Write>(
    alloc: Global,
    files: &F,
    shape: Shape,
    file: &str,
    names: Option<&str>,
    out: &mut W,
) -> Result<(), Failure>
    ensures { IfErr result (λ failure. failure.status ≢ 2) }
{
    let names = read_names(alloc, files, names)?;
    let trace = open(alloc, files, file)?;
    write_named(alloc, trace, &names, shape, out)
}

/// The names in a file, if there is one.
fn read_names<F: Files>(alloc: Global, files: &F, file: Option<&str>) -> Result<Names, Failure>
    ensures { IfErr result (λ failure. failure.status ≢ 2) }
{
    let Some(file) = file else {
        return Ok(Names::new(alloc));
    };
    let reader = open(alloc, files, file)?;
    match Names::read(alloc, reader) {
        Ok(names) => Ok(names),
        Err(error) => Err(error.failure(alloc)),
    }
}

/// The file of a name.
fn open<F: Files>(alloc: Global, files: &F, file: &str) -> Result<BufReader<F::File>, Failure>
    ensures { IfErr result (λ failure. failure.status ≢ 2) }
{
    let Ok(opened) = fs::open(files, file) else {
        return Err(unread(alloc, file));
    };
    match BufReader::new(alloc, opened) {
        Ok(reader) => Ok(reader),
        Err(_) => Err(Failure::no_memory()),
    }
}

/// Writes a trace with these names.
fn write_named<R: BufRead + Drop, W: Write>(
    alloc: Global,
    trace: R,
    names: &Names,
    shape: Shape,
    out: &mut W,
) -> Result<(), Failure>
    ensures { IfErr result (λ failure. failure.status ≢ 2) }
{
    let Ok(mut out) = BufWriter::new(alloc, out) else {
        return Err(Failure::no_memory());
    };
    let mut reading = Reading::new(alloc, trace);
    let done = match shape {
        Shape::Tree => write_tree(alloc, &mut reading, names, &mut out),
        Shape::Picture => write_picture(alloc, &mut reading, names, &mut out),
    };
    match finish(done, out.flush()) {
        Ok(()) => Ok(()),
        Err(error) => Err(error.failure(alloc)),
    }
}

/// What came first: that a trace was not told, or that the rest of it was not written.
fn finish(done: Result<(), LookError>, flushed: io::Result<()>) -> Result<(), LookError> {
    match done {
        Ok(()) if flushed.is_err() => Err(LookError::Write),
        done => done,
    }
}
