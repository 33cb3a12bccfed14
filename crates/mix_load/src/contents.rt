//! The bytes of a section that is packed as pattern data, before it is relocated.
ghost use Rattle.std.specs.Prelude.{◌≡◌, length, option_map, replicate, true, IfOk, OnOk};
ghost use Rattle.std.specs.Result.{result_err};
ghost use Rattle.pef_head.specs.Container.{is_pattern};
ghost use Rattle.pef_head.specs.PartsClauses.{IsLoadable, parts};
ghost use Rattle.mix_load.specs.inner.Outcome.{Finds};
ghost use Rattle.mix_load.specs.Sections.{pattern_refusal};
ghost use Rattle.mix_load.specs.inner.Sections.{contents};

use crate::error::LoadError;
use pef_head::Section;
use pef_reloc::{RelocError, unpack};
use std::alloc::Global;

/// Writes the bytes that a section has from the file before zeros.
fn write_contents(section: Section, to: &mut [u8]) -> Result<(), RelocError>
    requires loadable { IsLoadable (parts section) }
    requires pattern { is_pattern section.kind ≡ true }
    requires zeros { to.old ≡ replicate section.total 0 }
    ensures refusal { result_err result ≡ pattern_refusal (parts section.entry) }
    ensures written { OnOk result (to.new ≡ contents (parts section.entry)) }
    ensures len { length to.new ≡ length to.old }
{
    unpack(section.bytes, &mut to[..section.unpacked as usize])
}

/// The bytes that a section has from the file, and zeros behind them.
pub fn contents(alloc: Global, section: Section) -> Result<Vec<u8>, LoadError>
    requires loadable { IsLoadable (parts section) }
    requires pattern { is_pattern section.kind ≡ true }
    ensures refusal { Finds result (option_map (λ e. LoadError.Reloc e) (pattern_refusal (parts section.entry))) }
    ensures is { IfOk result (λ room. room.items ≡ contents (parts section.entry)) }
    ensures len { IfOk result (λ room. length room.items ≡ section.entry.total) }
{
    let mut room = vec![in alloc; 0; section.total as usize]?;
    match write_contents(section, &mut room) {
        Ok(()) => Ok(room),
        Err(e) => Err(LoadError::Reloc(e)),
    }
}
