//! The main vector of a container.
ghost use Rattle.std.specs.Prelude.{◌≡◌, ◌+◌, ◌^◌, ◌≤◌, IfSome};
ghost use Rattle.pef_head.specs.Container.{instantiated_count};
ghost use Rattle.mix_load.specs.inner.Sections.{HasBases};
ghost use Rattle.mix_load.specs.Sections.{main_vector, sections_end};

use crate::sections::Placement;
use pef_head::Pef;

/// How many bytes a transition vector has: a code address and a TOC.
const VECTOR_LEN: u64 = 8;

/// The address of the main vector, where all of it lies in its section.
pub fn main_vector(pef: &Pef, placement: &Placement) -> Option<u32>
    requires placed { HasBases pef.now placement.now }
    requires small { sections_end pef.now placement.now.start (instantiated_count pef.now) ≤ 2 ^ 24 }
    ensures is { result ≡ main_vector pef.now placement.now.start }
    ensures within { IfSome result (λ vector. vector + 8 ≤ sections_end pef.now placement.now.start (instantiated_count pef.now)) }
{
    let (section, offset) = pef.main()?;
    if pef.sections() <= section {
        return None;
    }
    let k = section as usize;
    let bases = placement.bases.as_slice();
    let totals = placement.totals.as_slice();
    let total = totals[k] as u64;
    if total < offset as u64 + VECTOR_LEN {
        return None;
    }
    Some(bases[k] + offset)
}
