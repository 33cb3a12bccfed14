ghost use Rattle.std.specs.Prelude.{◌≡◌, ◌≢◌};
ghost use Rattle.rsrc_fork.specs.declared.error.RsrcError.TheVariants.{NoMemory as NoForkMemory};
ghost use Rattle.mix_load.specs.declared.error.LoadError.TheVariants.{NoMemory};

use mix_bits::File;
use pef_head::PefError;
use pef_reloc::RelocError;
use rsrc_fork::RsrcError;
use std::alloc::{AllocError, AllocFailed};
use thiserror::Error;

/// Why a program was not loaded. Ids are those of CODE resources.
#[derive(Clone, Copy, Debug, PartialEq, Eq, Error)]
pub enum LoadError {
    #[error("out of memory")]
    NoMemory,
    /// The file has no byte.
    #[error("a file is empty")]
    Empty(File),
    /// The resource fork is none.
    #[error("{0}")]
    Rsrc(RsrcError),
    /// This CODE is missing; 1 stands for all of them but CODE 0.
    #[error("there is no CODE {0}")]
    NoCode(i16),
    /// This CODE is of the far model.
    #[error("CODE {0} is of the far model")]
    Far(i16),
    /// The place in CODE 0 of the jump table's entry that cannot be loaded, or 0 for the table as a whole.
    #[error("the jump table cannot be loaded, at {0}")]
    JumpTable(u32),
    /// The container's head is none.
    #[error("{0}")]
    Pef(PefError),
    /// Where the program would end, which is too near to the stack.
    #[error("a program that ends at {0:#x} is too large")]
    TooLarge(u64),
    /// The pattern data of a section, or its relocations.
    #[error("{0}")]
    Reloc(RelocError),
    /// The number of an import that the host lacks.
    #[error("the import {0} is missing")]
    Unresolved(u32),
    /// A PowerPC program has no main vector.
    #[error("there is no main vector")]
    NoMain,
}

impl From<AllocError> for LoadError {
    ghost from_gives = { λ _ e. e ≡ NoMemory };

    fn from(_: AllocError) -> Self {
        LoadError::NoMemory
    }
}

impl From<big_memory::NoMemory> for LoadError {
    ghost from_gives = { λ _ e. e ≡ NoMemory };

    fn from(_: big_memory::NoMemory) -> Self {
        LoadError::NoMemory
    }
}

impl<T: Drop> From<AllocFailed<T>> for LoadError {
    ghost from_gives = { λ _ e. e ≡ NoMemory };

    fn from(_: AllocFailed<T>) -> Self {
        LoadError::NoMemory
    }
}

/// The refusal of a fork as that of its program.
pub fn fork_error(e: RsrcError) -> LoadError
    ensures memory { e ≡ NoForkMemory → result ≡ LoadError.NoMemory }
    ensures other { e ≢ NoForkMemory → result ≡ LoadError.Rsrc e }
{
    match e {
        RsrcError::NoMemory => LoadError::NoMemory,
        _ => LoadError::Rsrc(e),
    }
}
