use crate::calls::Calls;
use crate::error::LookError;
use crate::names::Names;
use crate::reading::Reading;
use look_text::{line_of, tree_line};
use mix_bits::NoMemory;
use std::alloc::Global;
use std::io::{BufRead, Write};
use trace_lines::Event;

/// Writes a trace as an indented tree, and behind it how often each routine was called across, by whom, if one was.
/// What came before a line that is refused is written.
pub fn write_tree<R: BufRead + Drop, W: Write>(
    alloc: Global,
    reading: &mut Reading<R>,
    names: &Names,
    out: &mut W,
) -> Result<(), LookError> {
    let mut calls = Calls::new(alloc);
    write_calls(alloc, reading, names, &mut calls, out)
}

/// Writes the line of each event, and the table of the calls.
fn write_calls<R: BufRead + Drop, W: Write>(
    alloc: Global,
    reading: &mut Reading<R>,
    names: &Names,
    calls: &mut Calls,
    out: &mut W,
) -> Result<(), LookError> {
    for _ in 0..u64::MAX {
        let Some(event) = reading.next()? else {
            break;
        };
        write_event(alloc, reading.text(), &event, names, calls, out)?;
    }
    write_table(alloc, calls, names, out)
}

/// Writes the lines of the routes behind their heading, if there are any.
fn write_table<W: Write>(
    alloc: Global,
    calls: &mut Calls,
    names: &Names,
    out: &mut W,
) -> Result<(), LookError> {
    let table = calls.table(alloc, names)?;
    if table.is_empty() {
        return Ok(());
    }
    write(out, b"\ncalls across:\n")?;
    write(out, &table)
}

/// Writes the line of an event, and opens or ends its call.
fn write_event<W: Write>(
    alloc: Global,
    line: &[u8],
    event: &Event,
    names: &Names,
    calls: &mut Calls,
    out: &mut W,
) -> Result<(), LookError> {
    let text = named_line(alloc, calls.depth(event), names, line, event)?;
    write(out, &text)?;
    calls.follow(event)?;
    Ok(())
}

/// The line of an event in the tree, with the name of a call's target.
pub fn named_line(
    alloc: Global,
    depth: u32,
    names: &Names,
    line: &[u8],
    event: &Event,
) -> Result<Vec<u8>, NoMemory> {
    let name = match event {
        Event::Called(call) => line_of(alloc, &[names.name(call.target)])?,
        _ => Vec::new(alloc),
    };
    tree_line(alloc, depth, &name, line, event)
}

pub fn write<W: Write>(out: &mut W, piece: &[u8]) -> Result<(), LookError> {
    match out.write_all(piece) {
        Ok(()) => Ok(()),
        Err(error) => Err(LookError::of_write(error)),
    }
}
