// The answers of a call that was refused.
ghost use Rattle.std.specs.Prelude.{◌++◌, Some, codes, decimal};
ghost use Rattle.std.specs.Fmt.{DisplaysOnOk};
ghost use Rattle.mix_io.specs.Texts.{fetch_error_text};

use std::error::Error;
use std::fmt;

/// The outside did not do what was asked.
#[derive(Clone, Copy, Debug, PartialEq, Eq)]
pub struct Failed;

impl fmt::Display for Failed {
    ghost output = { λ _. Some (codes "the outside failed") };

    fn fmt<W: fmt::Write>(&self, f: &mut fmt::Formatter<W>) -> fmt::Result {
        f.write_str("the outside failed")
    }
}

impl Error for Failed {}

/// Why a shelf did not give a file.
#[derive(Clone, Copy, Debug, PartialEq, Eq)]
pub enum FetchError {
    /// There was no memory for the file.
    NoMemory,
    /// The shelf failed, as it does where it has no such file.
    Failed,
    /// The file has more bytes than this limit, which is the caller's.
    TooLong(u32),
}

impl fmt::Display for FetchError {
    ghost output = { λ e. Some (fetch_error_text e) };

    fn fmt<W: fmt::Write>(&self, f: &mut fmt::Formatter<W>) -> fmt::Result {
        match self {
            FetchError::NoMemory => f.write_str("out of memory"),
            FetchError::Failed => f.write_str("the shelf failed"),
            FetchError::TooLong(limit) => write_limit(f, *limit),
        }
    }
}

/// Writes that there were more bytes than a limit.
#[inline(always)]
fn write_limit<W: fmt::Write>(f: &mut fmt::Formatter<W>, limit: u32) -> fmt::Result
    ensures { DisplaysOnOk W.write_str_gives f.old result (Some (codes "more than " ++ decimal limit ++ codes " bytes")) f.new }
{
    write!(f, "more than {limit} bytes")
}

impl Error for FetchError {}
