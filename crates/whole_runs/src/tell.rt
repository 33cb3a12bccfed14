// What runs gave, as text.
use crate::images::Images;
use crate::run::Run;
use dev_rack::Asked;
use mix_io::{MemSource, Source};
use std::alloc::{AllocError, Global};
use std::io;
use std::str::from_utf8;

/// What is told of a run.
#[derive(Clone, Copy)]
pub enum Telling {
    /// All that it gave.
    All,
    /// The same, and what was kept.
    WithKept,
    /// All that it gave, without the end line of the first part where it was continued.
    Joined,
    /// How it ended, with `ADDRESS` for this address.
    End(u32),
    /// Why its files were refused, with `NUMBER` for this number.
    Refusal(u32),
}

/// What is told of the run of a case with this name.
pub fn told(
    alloc: Global,
    images: &Images,
    name: &str,
    run: &mut Run,
    telling: Telling,
) -> io::Result<String> {
    match telling {
        Telling::All => Ok(all(alloc, name, run)?),
        Telling::WithKept => Ok(with_kept(alloc, images, name, run)?),
        Telling::Joined => Ok(joined(alloc, name, run)?),
        Telling::End(address) => end(alloc, run, address),
        Telling::Refusal(number) => refusal(alloc, run, number),
    }
}

/// All that a run gave, and what was kept.
fn with_kept(
    alloc: Global,
    images: &Images,
    name: &str,
    run: &mut Run,
) -> Result<String, AllocError> {
    let mut text = all(alloc, name, run)?;
    add_kept(&mut text, images, run.keep.kept())?;
    Ok(text)
}

/// All that a run gave, without the end line of the first part where it was continued.
fn joined(alloc: Global, name: &str, run: &mut Run) -> Result<String, AllocError> {
    let text = all(alloc, name, run)?;
    if run.is_continued {
        return without_limit(alloc, text.as_str());
    }
    Ok(text)
}

/// A text without the first line `limit` of a trace.
fn without_limit(alloc: Global, text: &str) -> Result<String, AllocError> {
    let (front, back) = text.split_once("limit / ").unwrap_or((text, ""));
    format!(in alloc; "{front}{back}")
}

/// All that a run gave: `NAME | STATUS | OUTPUT | TRACE | JOURNAL | INPUT LEFT`, with `-` for nothing.
fn all(alloc: Global, name: &str, run: &mut Run) -> Result<String, AllocError> {
    let mut text = String::from_str(alloc, name)?;
    add_all(alloc, &mut text, run)?;
    Ok(text)
}

/// Adds all that a run gave to the name of its case.
fn add_all(alloc: Global, text: &mut String, run: &mut Run) -> Result<(), AllocError> {
    let status = run.status;
    write!(text, " | {status}")?;
    add_answer(text, bytes_text(alloc, run.out.held()))?;
    add_answer(text, lines_text(alloc, run.trace.held()))?;
    add_answer(text, asks_text(alloc, &run.asks))?;
    add_answer(text, left_text(alloc, &mut run.input))
}

/// Adds a field to a line, if there was memory for it.
fn add_answer(line: &mut String, text: Result<String, AllocError>) -> Result<(), AllocError> {
    add_field(line, text?.as_str())
}

/// Adds what was kept, if anything was: ` | LENGTH NAME`, with the name of a file of the same bytes.
fn add_kept(text: &mut String, images: &Images, kept: &[u8]) -> Result<(), AllocError> {
    if kept.is_empty() {
        return Ok(());
    }
    let (length, file) = (kept.len(), images.name_of(kept).unwrap_or("-"));
    write!(text, " | {length} {file}")
}

/// How a run ended: the status and the last line of the trace, with `ADDRESS` for this address.
fn end(alloc: Global, run: &Run, address: u32) -> io::Result<String> {
    let status = run.status;
    let line = from_utf8(run.trace.held()).unwrap_or("").lines().last();
    let digits = format!(in alloc; "{address:08X}")?;
    let line = line
        .unwrap_or("")
        .replace(alloc, digits.as_str(), "ADDRESS")?;
    let line = field(line.as_str());
    Ok(format!(in alloc; "{status} {line}")?)
}

/// Why the files of a run were refused: the status and the line, with `NUMBER` for this number; or that they
/// were not.
fn refusal(alloc: Global, run: &Run, number: u32) -> io::Result<String> {
    let status = run.status;
    let line = from_utf8(run.trace.held()).unwrap_or("").trim();
    if !line.starts_with("load ") {
        return Ok(String::from_str(alloc, "runs")?);
    }
    let (name, last) = line.rsplit_once(' ').unwrap_or((line, ""));
    let digits = format!(in alloc; "{number}")?;
    let is_number = last == digits.as_str();
    let last = if is_number { "NUMBER" } else { last };
    Ok(format!(in alloc; "{status} {name} {last}")?)
}

/// Adds a field to a line.
fn add_field(line: &mut String, text: &str) -> Result<(), AllocError> {
    line.push_str(" | ")?;
    line.push_str(field(text))
}

/// A text without blanks at its end, or `-` for none.
fn field(text: &str) -> &str {
    match text.trim_end() {
        "" => "-",
        text => text,
    }
}

/// Bytes as text.
fn bytes_text(alloc: Global, bytes: &[u8]) -> Result<String, AllocError> {
    let mut text = String::new(alloc);
    for byte in bytes {
        add_byte(&mut text, *byte)?;
    }
    Ok(text)
}

/// What is left of an input, as text.
fn left_text(alloc: Global, input: &mut MemSource) -> Result<String, AllocError> {
    let mut text = String::new(alloc);
    for _ in 0..0x1_0000 {
        match input.take() {
            Ok(Some(byte)) => add_byte(&mut text, byte)?,
            Ok(None) => break,
            Err(_) => {}
        }
    }
    Ok(text)
}

/// A byte: a letter or a digit as it is, any other in hexadecimal behind a `\`.
fn add_byte(text: &mut String, byte: u8) -> Result<(), AllocError> {
    if byte.is_ascii_alphanumeric() {
        text.push(byte as char)
    } else {
        write!(text, "\\{byte:02X}")
    }
}

/// Lines, with a `/` behind each that is whole.
fn lines_text(alloc: Global, bytes: &[u8]) -> Result<String, AllocError> {
    let mut text = String::new(alloc);
    for byte in bytes {
        match byte {
            b'\n' => text.push_str(" / ")?,
            _ => text.push(*byte as char)?,
        }
    }
    Ok(text)
}

/// The asks of a journal: slot, word, and answer or `fail`.
fn asks_text(alloc: Global, asks: &[Asked]) -> Result<String, AllocError> {
    let mut text = String::new(alloc);
    for ask in asks {
        let (slot, word) = (ask.slot, ask.word);
        match ask.answer {
            Some(answer) => write!(text, "{slot} {word:08X} {answer:08X} / ")?,
            None => write!(text, "{slot} {word:08X} fail / ")?,
        }
    }
    Ok(text)
}
