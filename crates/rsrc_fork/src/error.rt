ghost use Rattle.std.specs.Prelude.{◌≡◌};
ghost use Rattle.rsrc_fork.specs.declared.error.RsrcError.TheVariants.{NoMemory};

use std::alloc::AllocFailed;
use thiserror::Error;

/// Why a fork was not read. A place counts from the first byte of the file.
#[derive(Clone, Copy, Debug, PartialEq, Eq, Error)]
pub enum RsrcError {
    #[error("out of memory")]
    NoMemory,
    /// The file has this many bytes, fewer than a header.
    #[error("a file of {0} bytes is too short for a resource fork")]
    Short(u32),
    #[error("the data and the map share a byte")]
    Overlap,
    /// What stands here leaves its area, or names something that does.
    #[error("what stands at {0} leaves its area")]
    BadOffset(u32),
    /// A type and an id that came before.
    #[error("the resource {1} of type {0:#010x} comes twice")]
    Twice(u32, i16),
    /// A type and an id.
    #[error("the resource {1} of type {0:#010x} is compressed")]
    Compressed(u32, i16),
}

impl<T: Drop> From<AllocFailed<T>> for RsrcError {
    ghost from_gives = { λ _ e. e ≡ NoMemory };

    fn from(_: AllocFailed<T>) -> Self {
        RsrcError::NoMemory
    }
}
