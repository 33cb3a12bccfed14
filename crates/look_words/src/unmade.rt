// The section of a container that was refused while it was made.
ghost use Rattle.std.specs.Prelude.{◌≡◌, ℕ, ◌^◌, ◌%◌, ◌<◌, ◌≤◌, None, IfOk, IfSome, is_some, length, slice_index, slice_index_or};
ghost use Rattle.mix_bits.specs.Search.{least};
ghost use Rattle.pef_head.specs.Container.{instantiated_count};
ghost use Rattle.pef_head.specs.PartsClauses.{IsLoadable, parts};
ghost use Rattle.pef_head.specs.PartsByNumber.{reloc_header_of};
ghost use Rattle.mix_load.specs.Sections.{pattern_refusal};
ghost use Rattle.mix_load.specs.laws.Sections.{total_at};
ghost use Rattle.look_words.specs.inner.Unmade.{HasSizes, Holds, IsBadlyRelocated, IsUnmade, is_badly_packed as is_packed_badly, is_badly_relocated as is_relocated_badly};

use big_memory::Ram;
use mix_bits::{NoMemory, round_up};
use pef_head::{Pef, Section};
use pef_reloc::{RelocError, plan_laws, relocate, unpack};
use std::alloc::Global;

/// As many bytes as RAM has at most.
const MOST: u32 = 16_777_216;

/// As many as it has at least.
const LEAST: u32 = 131_072;

/// Sections of these sizes at these addresses, and the addresses of imports.
#[derive(Drop)]
struct Sections {
    bases: Vec<u32>,
    totals: Vec<u32>,
    imports: Vec<u32>,
}

/// The number of the first section that is refused in this way, if there is one.
pub fn unmade_section(alloc: Global, pef: &Pef, error: RelocError) -> Result<Option<u32>, NoMemory>
    ensures is { IfOk result (λ section. IsUnmade pef.now error section) }
    ensures below { IfOk result (λ section. IfSome section (λ k. k < instantiated_count pef.now)) }
{
    match error {
        RelocError::Pattern(_) => badly_packed(alloc, pef, pef.sections()),
        RelocError::Short(_)
        | RelocError::Unsupported(_)
        | RelocError::OutsideSection(_)
        | RelocError::ImportIndex(_)
        | RelocError::SectionIndex(_)
        | RelocError::RepeatFront(_)
        | RelocError::Work => badly_relocated(alloc, pef),
    }
}

/// The first section whose pattern data is refused.
#[tactic(auto, using(mix_bits::proofs::Searches::least_at))]
fn badly_packed(alloc: Global, pef: &Pef, count: u32) -> Result<Option<u32>, NoMemory>
    requires { count ≤ instantiated_count pef.now }
    ensures is { IfOk result (λ section. section ≡ least (is_packed_badly pef.now) count) }
    ensures below { IfOk result (λ section. IfSome section (λ k. k < count)) }
{
    for k in 0..count {
        if is_badly_packed(alloc, pef.section(k))? {
            return Ok(Some(k));
        }
    }
    Ok(None)
}

/// Whether the pattern data of a section is refused.
fn is_badly_packed(alloc: Global, section: Section) -> Result<bool, NoMemory>
    requires { IsLoadable (parts section) }
    ensures { IfOk result (λ bad. bad ≡ is_some (pattern_refusal (parts section.entry))) }
{
    if !section.is_pattern() {
        return Ok(false);
    }
    let mut room = vec![in alloc; 0; section.unpacked as usize]?;
    Ok(unpack(section.bytes, &mut room).is_err())
}

/// The first section whose relocations are refused. Where sections and imports stand and what they hold makes no
/// difference to that, so each is taken for zeros at the address 0.
fn badly_relocated(alloc: Global, pef: &Pef) -> Result<Option<u32>, NoMemory>
    ensures is { IfOk result (λ section. IsBadlyRelocated pef.now section) }
    ensures below { IfOk result (λ section. IfSome section (λ k. k < instantiated_count pef.now)) }
{
    let headers = pef.reloc_headers(alloc)?;
    let sections = zeroed(alloc, pef)?;
    let mut ram = memory(alloc, room_for(&sections.totals))?;
    Ok(first_refused(&mut ram, pef, &headers, &sections, pef.sections()))
}

/// The sections of a container at the address 0, and its imports as zeros.
fn zeroed(alloc: Global, pef: &Pef) -> Result<Sections, NoMemory>
    ensures sizes { IfOk result (λ sections. HasSizes pef.now sections.bases.items sections.totals.items sections.imports.items) }
    ensures few { IfOk result (λ sections. length sections.imports.items < 2 ^ 32) }
{
    let count = pef.sections();
    Ok(Sections {
        bases: vec![in alloc; 0; count as usize]?,
        totals: totals(alloc, pef, count)?,
        imports: vec![in alloc; 0; pef.imports() as usize]?,
    })
}

/// How many bytes of memory hold the largest of sections of these sizes that memory can hold.
fn room_for(totals: &[u32]) -> u32
    ensures least { 131072 ≤ result }
    ensures most { result ≤ 16777216 }
    ensures whole { result % 1024 ≡ 0 }
    ensures holds { Holds totals.now result }
{
    let mut room = LEAST;
    for &total in totals {
        if room < total && total <= MOST {
            room = total;
        }
    }
    round_up(u64::from(room), 1024) as u32
}

/// Memory of so many bytes.
fn memory(alloc: Global, bytes: u32) -> Result<Ram, NoMemory>
    requires least { 131072 ≤ bytes }
    requires most { bytes ≤ 16777216 }
    requires whole { bytes % 1024 ≡ 0 }
    ensures { IfOk result (λ ram. length ram.bytes ≡ bytes) }
{
    Ram::new(alloc, bytes)
}

/// The sizes of the first sections.
fn totals(alloc: Global, pef: &Pef, count: u32) -> Result<Vec<u32>, NoMemory>
    requires { count ≤ instantiated_count pef.now }
    ensures long { IfOk result (λ totals. length totals.items ≡ count) }
    ensures each { IfOk result (λ totals. (k : ℕ) → k < count → slice_index totals.items k ≡ total_at pef.now k) }
{
    let mut totals = Vec::new(alloc);
    for k in 0..count {
        totals.push(pef.section(k).total)?;
    }
    Ok(totals)
}

/// The first of the first sections whose relocations are refused.
fn first_refused(
    ram: &mut Ram,
    pef: &Pef,
    headers: &[Option<u32>],
    sections: &Sections,
    count: u32,
) -> Option<u32>
    requires below { count ≤ instantiated_count pef.now }
    requires most { length ram.old.bytes ≤ 16777216 }
    requires holds { Holds sections.now.totals.items (length ram.old.bytes) }
    requires headers { (k : ℕ) → k < instantiated_count pef.now → slice_index_or headers.now k None ≡ reloc_header_of pef.now k }
    requires noted { length headers.now ≡ instantiated_count pef.now }
    requires few { length sections.now.imports.items < 2 ^ 32 }
    requires sizes { HasSizes pef.now sections.now.bases.items sections.now.totals.items sections.now.imports.items }
    ensures is { (start : ℕ) → result ≡ least (is_relocated_badly pef.now start) count }
    ensures below { IfSome result (λ k. k < count) }
{
    for k in 0..count {
        if is_badly_relocated(ram, pef, k, headers[k as usize], sections) {
            return Some(k);
        }
    }
    None
}

/// Whether the relocations of a section are refused. The memory in which it is tried stays as large.
fn is_badly_relocated(
    ram: &mut Ram,
    pef: &Pef,
    k: u32,
    header: Option<u32>,
    sections: &Sections,
) -> bool
    requires below { k < instantiated_count pef.now }
    requires most { length ram.old.bytes ≤ 16777216 }
    requires holds { Holds sections.now.totals.items (length ram.old.bytes) }
    requires header { header ≡ reloc_header_of pef.now k }
    requires few { length sections.now.imports.items < 2 ^ 32 }
    requires sizes { HasSizes pef.now sections.now.bases.items sections.now.totals.items sections.now.imports.items }
    ensures is { (start : ℕ) → result ≡ is_relocated_badly pef.now start k }
    ensures len { length ram.new.bytes ≡ length ram.old.bytes }
{
    plan_laws();
    let words = pef.relocs_by(k, header);
    sections.totals[k as usize] <= ram.len()
        && relocate(
            ram,
            k,
            words,
            &sections.bases,
            &sections.totals,
            &sections.imports,
        )
        .is_err()
}
