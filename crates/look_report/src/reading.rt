// The lines of a trace, one by one.
use crate::error::LookError;
use std::alloc::Global;
use std::io::{BufRead, Read, Take};
use trace_lines::{Event, read_event};

/// As many bytes as are read for a line at most, more than a line of a trace has.
const MOST_BYTES: u64 = 4096;

/// Reads a trace, and counts its lines.
#[derive(Drop)]
pub struct Reading<R: BufRead + Drop> {
    from: Take<R>,
    line: Vec<u8>,
    number: u64,
}

impl<R: BufRead + Drop> Reading<R> {
    pub fn new(alloc: Global, from: R) -> Reading<R> {
        Reading {
            from: from.take(MOST_BYTES),
            line: Vec::new(alloc),
            number: 0,
        }
    }

    /// The event of the next line, or none at the end.
    pub fn next(&mut self) -> Result<Option<Event>, LookError> {
        self.number = self.number.saturating_add(1);
        self.line.clear();
        self.from.set_limit(MOST_BYTES);
        match self.from.read_until(b'\n', &mut self.line) {
            Ok(0) => Ok(None),
            Ok(_) => self.event(),
            Err(error) => Err(LookError::of_read(error)),
        }
    }

    /// The event of the line that was read, which has to end.
    fn event(&mut self) -> Result<Option<Event>, LookError> {
        let event = match self.line.pop() {
            Some(b'\n') => read_event(&self.line),
            _ => None,
        };
        match event {
            Some(_) => Ok(event),
            None => Err(LookError::Line(self.number)),
        }
    }

    /// The text of the line that was read last.
    pub fn text(&self) -> &[u8] {
        &self.line
    }
}
