// A program that is loaded, and what is said of it.
ghost use Rattle.std.specs.Prelude.{◌≡◌, ◌≢◌, ◌*◌, ◌≤◌, IfOk};
ghost use Rattle.mix_load.specs.LoadClauses.{AreLoadable};
ghost use Rattle.mix_load.specs.declared.error.LoadError.TheVariants.{NoMemory as NoLoadMemory};
ghost use Rattle.look_text.specs.Maps.{IsMapped};

use crate::listing::listing;
use crate::start::add_start;
use mix_bits::{Isa, NoMemory};
use mix_load::{Files, ID_COUNT, LoadError, load};
use std::alloc::Global;

/// Where the pieces of a program lie.
#[derive(Drop)]
pub enum Mapped {
    /// It is loaded: its files, and how it starts.
    Loaded(Vec<u8>),
    /// It is refused: what could be read, and the rule that is broken. What would stand behind a file that is refused is
    /// placed as if that file were not there.
    Refused(Vec<u8>, LoadError),
}

/// Loads files as a run does, and says where their pieces lie.
pub fn map_program(alloc: Global, files: &Files, main: Isa, kib: u32) -> Result<Mapped, NoMemory>
    requires files { AreLoadable files.now main }
    requires least { 128 ≤ kib }
    requires most { kib ≤ 16384 }
    ensures { IfOk result (IsMapped files.now main (1024 * kib)) }
{
    let mut text = listing(alloc, files, 1024 * kib, ID_COUNT)?;
    match load(alloc, files, main, kib) {
        Ok(program) => {
            add_start(&mut text, &program)?;
            Ok(Mapped::Loaded(text))
        }
        Err(error) => Ok(Mapped::Refused(text, refusal(error)?)),
    }
}

/// A refusal, unless it is that there was no memory.
fn refusal(error: LoadError) -> Result<LoadError, NoMemory>
    ensures { IfOk result (λ e. (e ≡ error) × (error ≢ NoLoadMemory)) }
{
    match error {
        LoadError::NoMemory => Err(NoMemory),
        _ => Ok(error),
    }
}
