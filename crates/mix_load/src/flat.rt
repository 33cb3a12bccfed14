//! Flat files as programs.
ghost use Rattle.std.specs.Prelude.{◌≡◌, ◌≤◌, length, IfOk};
ghost use Rattle.mix_bits.specs.declared.file.TheConstants.{MOST_BYTES};
ghost use Rattle.mix_load.specs.Load.{flat_entry, with_flat};
ghost use Rattle.mix_load.specs.inner.Loaded.{IsImage};
ghost use Rattle.mix_load.specs.OutcomeClauses.{Gives};

use crate::error::LoadError;
use crate::image::{Image, test_end};
use mix_bits::Isa;
use switch_frame::PROGRAM_START;

/// Where the 68K code of a flat file starts, 0 where it is PowerPC code.
fn flat_entry(main: Isa) -> u32
    ensures { result ≡ flat_entry main }
{
    match main {
        Isa::M68 => PROGRAM_START,
        Isa::Ppc => 0,
    }
}

/// Adds a flat file, whole.
pub fn add_flat(bytes: &[u8], main: Isa, mut image: Image) -> Result<Image, LoadError>
    requires small { length bytes.now ≤ MOST_BYTES }
    requires whole { IsImage image }
    ensures is { Gives result (with_flat main bytes.now image) }
    ensures whole { IfOk result IsImage }
{
    let end = PROGRAM_START + bytes.len() as u32;
    test_end(end as u64, image.ram.floor())?;
    image.ram.fix(PROGRAM_START, bytes);
    image.end = end;
    image.entry = flat_entry(main);
    Ok(image)
}
