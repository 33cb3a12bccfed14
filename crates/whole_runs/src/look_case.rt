// Cases of mixedlook: its words, and the streams that they ask for.
use crate::packets::{append_packets, packet_lines};
use crate::streams::{Input, Output};
use crate::text::{hexadecimal, text_of};
use crate::words::{no_memory, numbers, value_of};
use look_commands::{Streams, answer};
use std::alloc::Global;
use std::io;

/// What stands behind a refusal of words here, in place of mixedlook's own line.
const USAGE: &str = "usage: mixedlook COMMAND WORD..\n";

/// The words of mixedlook, and its streams.
#[derive(Drop)]
struct Case {
    words: Vec<String>,
    streams: Streams<Input, Output, Output>,
}

fn read_case(alloc: Global, line: &str) -> io::Result<Case> {
    let mut input = value_of(line, "@input")
        .unwrap_or("")
        .as_bytes()
        .to_vec(alloc)?;
    append_packets(&mut input, line)?;
    Ok(Case {
        words: words_of(alloc, line)?,
        streams: Streams {
            input: Input::new(input, numbers(alloc, line, "@in")?),
            out: writer(alloc, line, "@out")?,
            errors: writer(alloc, line, "@errors")?,
        },
    })
}

/// The words of mixedlook in a line.
fn words_of(alloc: Global, line: &str) -> io::Result<Vec<String>> {
    let mut words = Vec::new(alloc);
    for word in line.split_whitespace() {
        if !word.starts_with('@') {
            words.push(String::from_str(alloc, word)?)?;
        }
    }
    Ok(words)
}

fn writer(alloc: Global, line: &str, key: &str) -> io::Result<Output> {
    Output::new(alloc, numbers(alloc, line, key)?).map_err(no_memory)
}

/// What the words of a line give, as text: the output, the errors and the status.
pub fn told(rt: &HostRuntime, line: &str) -> io::Result<String> {
    let mut case = read_case(rt.alloc(), line)?;
    told_of(rt, &mut case)
}

/// What a case gives, as text.
fn told_of(rt: &HostRuntime, case: &mut Case) -> io::Result<String> {
    let alloc = rt.alloc();
    let status = answer(alloc, rt, &case.words, USAGE, &mut case.streams);
    let out = output(alloc, case)?;
    let errors = text_of(alloc, case.streams.errors.held())?;
    Ok(format!(in alloc; "{out}{errors}status {status}\n")?)
}

/// The output of a case: that of a program, or a fork, in hexadecimal digits, and others as text.
fn output(alloc: Global, case: &Case) -> io::Result<String> {
    let bytes = case.streams.out.held();
    match case.words.first() {
        Some(word) if is_of_bytes(word.as_str()) => {
            let digits = hexadecimal(alloc, bytes)?;
            Ok(format!(in alloc; "output {digits}\n")?)
        }
        Some(word) if word.as_str() == "gdb" => packet_lines(alloc, bytes),
        _ => text_of(alloc, bytes),
    }
}

/// Whether the output of a command is bytes and no text.
fn is_of_bytes(command: &str) -> bool {
    command == "fork" || command == "data" || command == "end"
}
