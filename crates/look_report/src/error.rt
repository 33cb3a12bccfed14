use look_words::Failure;
use look_words::status::{NO_FILE, NO_MEMORY, OUTPUT_FAILED, REFUSED};
use mix_bits::NoMemory;
use std::alloc::Global;
use std::io;
use thiserror::Error;

/// Why a trace was not told to its end.
#[derive(Clone, Copy, Debug, Error)]
pub enum LookError {
    /// The line of this number, counted from 1, or what stands behind the last line feed.
    #[error("line {0} is no line of a trace")]
    Line(u64),
    #[error("a file could not be read to its end")]
    Read,
    #[error("the names are no text: names= wants what nm writes")]
    Names,
    #[error("the output failed")]
    Write,
    #[error("out of memory")]
    NoMemory,
}

impl LookError {
    ghost use Rattle.std.specs.Prelude.{◌≡◌, ◌≢◌};
    ghost use Rattle.look_report.specs.inner.Statuses.{status_for};

    /// A failure to read, where it is not for want of memory, or for bytes that are no text: a trace is read as bytes.
    pub(crate) fn of_read(error: io::Error) -> LookError {
        match error.kind() {
            io::ErrorKind::OutOfMemory => LookError::NoMemory,
            io::ErrorKind::InvalidData => LookError::Names,
            _ => LookError::Read,
        }
    }

    /// A failure to write, likewise.
    pub(crate) fn of_write(error: io::Error) -> LookError {
        match error.kind() {
            io::ErrorKind::OutOfMemory => LookError::NoMemory,
            _ => LookError::Write,
        }
    }

    /// Why a trace was not told to its end, with the status of the command.
    pub(crate) fn failure(self, alloc: Global) -> Failure
        ensures status { result.status ≡ status_for self }
        ensures words { result.status ≢ 2 }
    {
        let sentence = match self.to_string(alloc) {
            Ok(text) => Some(text.into_bytes()),
            Err(_) => None,
        };
        Failure {
            status: self.status(),
            sentence,
        }
    }

    fn status(self) -> u8
        ensures status { result ≡ status_for self }
        ensures words { result ≢ 2 }
    {
        match self {
            LookError::Line(_) | LookError::Names => REFUSED,
            LookError::Read => NO_FILE,
            LookError::Write => OUTPUT_FAILED,
            LookError::NoMemory => NO_MEMORY,
        }
    }
}

impl From<NoMemory> for LookError {
    fn from(_: NoMemory) -> Self {
        LookError::NoMemory
    }
}
