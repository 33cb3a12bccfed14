ghost use Rattle.std.specs.Prelude.{◌≡◌, Some};
ghost use Rattle.binhex.specs.Parts.{part_name};
ghost use Rattle.binhex.specs.declared.error.BinHexError.TheVariants.{NoMemory};

use std::alloc::{AllocError, AllocFailed};
use std::fmt;
use thiserror::Error;

/// A part that has a check sum of its own.
#[derive(Clone, Copy, Debug, PartialEq, Eq)]
pub enum Part {
    Header,
    DataFork,
    ResourceFork,
}

impl Part {
    fn name(self) -> &'static str
        ensures { result.now ≡ part_name self }
    {
        match self {
            Part::Header => "header",
            Part::DataFork => "data fork",
            Part::ResourceFork => "resource fork",
        }
    }
}

impl fmt::Display for Part {
    ghost output = { λ part. Some (part_name part) };

    fn fmt<W: fmt::Write>(&self, f: &mut fmt::Formatter<W>) -> fmt::Result {
        f.write_str(self.name())
    }
}

/// Why a file was not read. They come in this order, but for want of memory.
#[derive(Clone, Copy, Debug, PartialEq, Eq, Error)]
pub enum BinHexError {
    #[error("out of memory")]
    NoMemory,
    #[error("nothing in it says that it is BinHex")]
    Unmarked,
    #[error("it is BinHex, and no line of it begins with a colon")]
    Unopened,
    #[error("it is BinHex, and no colon ends its text")]
    Unended,
    /// What stands at this place of the file, counted from 0.
    #[error("it is BinHex, and the character at {0}, counted from 0, is none of its symbols")]
    Foreign(u32),
    #[error("it is BinHex, and a run of equal bytes has no byte before it, or no length")]
    Run,
    #[error("it is BinHex, and stands for more than 33554432 bytes")]
    Long,
    #[error("it is BinHex, and cut: its {0} goes on behind its last symbol")]
    Cut(Part),
    #[error("it is BinHex, and the check sum of its {0} is wrong")]
    Sum(Part),
}

impl<T: Drop> From<AllocFailed<T>> for BinHexError {
    ghost from_gives = { λ _ e. e ≡ NoMemory };

    fn from(_: AllocFailed<T>) -> Self {
        BinHexError::NoMemory
    }
}

impl From<AllocError> for BinHexError {
    ghost from_gives = { λ _ e. e ≡ NoMemory };

    fn from(_: AllocError) -> Self {
        BinHexError::NoMemory
    }
}
