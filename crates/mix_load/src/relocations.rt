//! Relocating the sections of a container in place.
ghost use Rattle.std.specs.Prelude.{◌≡◌, ℕ, ◌≤◌, ◌<◌, None, length, slice_index_or, option_map, OnOk};
ghost use Rattle.std.specs.Result.{result_err};
ghost use Rattle.big_memory.specs.Lists.{part};
ghost use Rattle.big_memory.specs.Memory.{with_bytes};
ghost use Rattle.pef_head.specs.Container.{instantiated_count};
ghost use Rattle.pef_head.specs.PartsByNumber.{reloc_header_of};
ghost use Rattle.mix_load.specs.inner.Container.{relocations_refusal};
ghost use Rattle.mix_load.specs.Pieces.{with_pieces};
ghost use Rattle.mix_load.specs.inner.Sections.{IsPlaced, Stand, relocated_bytes, relocated_pieces, relocs_refusal, contents_at};
ghost use Rattle.mix_load.specs.Sections.{first_refusal, section_base, sections_end};
ghost use Rattle.mix_load.specs.laws.Sections.{total_at};

use crate::error::LoadError;
use crate::sections::Placement;
use big_memory::Ram;
use pef_head::Pef;
use pef_reloc::{RelocError, plan_laws, relocate};

/// Relocates a section, by its relocation header.
fn relocate_section(
    ram: &mut Ram,
    pef: &Pef,
    placement: &Placement,
    imports: &[u32],
    header: Option<u32>,
    k: u32,
) -> Result<(), RelocError>
    requires below { k < instantiated_count pef.now }
    requires header { header ≡ reloc_header_of pef.now k }
    requires placed { IsPlaced pef.now placement.now imports.now }
    requires fits { sections_end pef.now placement.now.start (instantiated_count pef.now) ≤ length ram.old.bytes }
    requires stands { part (section_base pef.now placement.now.start k) (total_at pef.now k) ram.old.bytes ≡ contents_at pef.now k }
    ensures refusal { result_err result ≡ relocs_refusal pef.now placement.now.start k }
    ensures memory { ram.new ≡ with_bytes (section_base pef.now placement.now.start k) (relocated_bytes pef.now placement.now.start k) ram.old }
    ensures len { length ram.new.bytes ≡ length ram.old.bytes }
{
    let words = pef.relocs_by(k, header);
    relocate(ram, k, words, &placement.bases, &placement.totals, imports)
}

/// Relocates the first sections, which stand as they were unpacked.
#[tactic(auto, using(crate::proofs::Searches::refused_at))]
fn relocate_first(
    ram: &mut Ram,
    pef: &Pef,
    placement: &Placement,
    imports: &[u32],
    headers: &[Option<u32>],
    count: u32,
) -> Result<(), LoadError>
    requires below { count ≤ instantiated_count pef.now }
    requires placed { IsPlaced pef.now placement.now imports.now }
    requires headers { (k : ℕ) → k < instantiated_count pef.now → slice_index_or headers.now k None ≡ reloc_header_of pef.now k }
    requires noted { length headers.now ≡ instantiated_count pef.now }
    requires fits { sections_end pef.now placement.now.start (instantiated_count pef.now) ≤ length ram.old.bytes }
    requires sizes { (k : ℕ) → k < instantiated_count pef.now → length (contents_at pef.now k) ≡ total_at pef.now k }
    requires stand { Stand pef.now placement.now.start (contents_at pef.now) count ram.old.bytes }
    ensures refusal { result_err result ≡ option_map (λ e. LoadError.Reloc e) (first_refusal (relocs_refusal pef.now placement.now.start) count) }
    ensures memory { OnOk result (ram.new ≡ with_pieces (relocated_pieces pef.now placement.now.start count) ram.old) }
    ensures len { length ram.new.bytes ≡ length ram.old.bytes }
{
    plan_laws();
    for k in 0..count {
        match relocate_section(ram, pef, placement, imports, headers[k as usize], k) {
            Ok(()) => {}
            Err(e) => return Err(LoadError::Reloc(e)),
        }
    }
    Ok(())
}

/// Relocates all sections, which stand as they were unpacked.
pub fn relocate_sections(
    ram: &mut Ram,
    pef: &Pef,
    placement: &Placement,
    imports: &[u32],
    headers: &[Option<u32>],
) -> Result<(), LoadError>
    requires placed { IsPlaced pef.now placement.now imports.now }
    requires headers { (k : ℕ) → k < instantiated_count pef.now → slice_index_or headers.now k None ≡ reloc_header_of pef.now k }
    requires noted { length headers.now ≡ instantiated_count pef.now }
    requires fits { sections_end pef.now placement.now.start (instantiated_count pef.now) ≤ length ram.old.bytes }
    requires sizes { (k : ℕ) → k < instantiated_count pef.now → length (contents_at pef.now k) ≡ total_at pef.now k }
    requires stand { Stand pef.now placement.now.start (contents_at pef.now) (instantiated_count pef.now) ram.old.bytes }
    ensures refusal { result_err result ≡ relocations_refusal pef.now placement.now.start }
    ensures memory { OnOk result (ram.new ≡ with_pieces (relocated_pieces pef.now placement.now.start (instantiated_count pef.now)) ram.old) }
    ensures len { length ram.new.bytes ≡ length ram.old.bytes }
{
    relocate_first(ram, pef, placement, imports, headers, pef.sections())
}
