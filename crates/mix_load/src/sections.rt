//! Where the sections of a container are placed.
ghost use Rattle.std.specs.Prelude.{true, false, ◌≡◌, ℕ, ◌+◌, ◌*◌, ◌^◌, ◌≤◌, ◌<◌, length, option_map, IfOk, OnOk};
ghost use Rattle.pef_head.specs.Container.{instantiated_count, is_pattern};
ghost use Rattle.pef_head.specs.PartsClauses.{IsLoadable, parts};
ghost use Rattle.big_memory.specs.Memory.{with_bytes};
ghost use Rattle.mix_load.specs.inner.Container.{patterns_of};
ghost use Rattle.mix_load.specs.inner.Outcome.{Finds};
ghost use Rattle.mix_load.specs.Pieces.{with_pieces};
ghost use Rattle.mix_load.specs.inner.Sections.{HasBases, section_pieces, totals, contents, contents_at};
ghost use Rattle.mix_load.specs.Sections.{base_behind, first_refusal, pattern_refusal, sections_end};
ghost use Rattle.mix_load.specs.SectionsClauses.{bases, patterns_refusal};
ghost use Rattle.mix_load.specs.laws.Sections.{total_at};

use crate::contents::contents;
use crate::error::LoadError;
use big_memory::{Ram, put_laws};
use mix_bits::round_up;
use pef_head::{Pef, Section};
use std::alloc::{AllocError, Global};

/// The least unit of a section's address.
const LEAST_ALIGNMENT: u32 = 16;

/// Where the sections stand, and their sizes in memory.
#[derive(Drop)]
pub struct Placement {
    /// The end behind which the first one was placed.
    pub start: u32,
    pub bases: Vec<u32>,
    pub totals: Vec<u32>,
}

/// Where a section stands that follows an end.
pub fn base_behind(section: Section, end: u64) -> u64
    requires near { end ≤ 2 ^ 60 }
    requires aligned { section.align ≤ 4096 }
    ensures is { result ≡ base_behind (parts section.entry) end }
    ensures least { end ≤ result }
    ensures most { result ≤ end + 4095 }
{
    let unit = section.align.max(LEAST_ALIGNMENT) as u64;
    round_up(end, unit)
}

/// Where the first sections end that begin behind `start`.
pub fn sections_end(pef: &Pef, start: u64, count: u32) -> u64
    requires below { count ≤ instantiated_count pef.now }
    requires many { count ≤ 65535 }
    requires near { start ≤ 2 ^ 32 }
    ensures is { result ≡ sections_end pef.now start count }
    ensures few { result ≤ 2 ^ 50 }
{
    let mut end = start;
    for k in 0..count {
        let section = pef.section(k);
        end = base_behind(section, end) + section.total as u64;
    }
    end
}

/// Where the first sections stand that begin behind `start`, and their sizes.
fn place_first(alloc: Global, pef: &Pef, start: u32, count: u32) -> Result<Placement, AllocError>
    requires below { count ≤ instantiated_count pef.now }
    requires fits { sections_end pef.now start count < 2 ^ 32 }
    ensures start { IfOk result (λ placement. placement.start ≡ start) }
    ensures bases { IfOk result (λ placement. placement.bases.items ≡ bases pef.now start count) }
    ensures totals { IfOk result (λ placement. placement.totals.items ≡ totals pef.now count) }
{
    let mut bases = Vec::new(alloc);
    let mut totals = Vec::new(alloc);
    let mut end = start as u64;
    for k in 0..count {
        let section = pef.section(k);
        let base = base_behind(section, end);
        bases.push(base as u32)?;
        totals.push(section.total)?;
        end = base + section.total as u64;
    }
    Ok(Placement {
        start,
        bases,
        totals,
    })
}

/// Puts a section whose bytes stand in the file as they are.
fn put_plain(ram: &mut Ram, section: Section, base: u32)
    requires loadable { IsLoadable (parts section) }
    requires plain { is_pattern section.kind ≡ false }
    requires fits { base + section.total ≤ length ram.old.bytes }
    requires small { length ram.old.bytes ≤ 2 ^ 24 }
    ensures memory { ram.new ≡ with_bytes base (contents (parts section.entry)) ram.old }
    ensures size { length (contents (parts section.entry)) ≡ section.entry.total }
    ensures len { length ram.new.bytes ≡ length ram.old.bytes }
{
    put_laws();
    ram.fix(base, section.bytes);
    ram.clear(base + section.unpacked, section.total - section.unpacked);
}

/// Puts a section whose bytes stand in the file as pattern data.
fn put_pattern(alloc: Global, ram: &mut Ram, section: Section, base: u32) -> Result<(), LoadError>
    requires loadable { IsLoadable (parts section) }
    requires pattern { is_pattern section.kind ≡ true }
    requires fits { base + section.total ≤ length ram.old.bytes }
    ensures refusal { Finds result (option_map (λ e. LoadError.Reloc e) (pattern_refusal (parts section.entry))) }
    ensures memory { OnOk result (ram.new ≡ with_bytes base (contents (parts section.entry)) ram.old) }
    ensures size { OnOk result (length (contents (parts section.entry)) ≡ section.entry.total) }
    ensures len { length ram.new.bytes ≡ length ram.old.bytes }
{
    let bytes = contents(alloc, section)?;
    ram.fix(base, &bytes);
    Ok(())
}

/// Puts a section, unpacked.
fn put_section(alloc: Global, ram: &mut Ram, section: Section, base: u32) -> Result<(), LoadError>
    requires loadable { IsLoadable (parts section) }
    requires fits { base + section.total ≤ length ram.old.bytes }
    requires small { length ram.old.bytes ≤ 2 ^ 24 }
    ensures refusal { Finds result (option_map (λ e. LoadError.Reloc e) (pattern_refusal (parts section.entry))) }
    ensures memory { OnOk result (ram.new ≡ with_bytes base (contents (parts section.entry)) ram.old) }
    ensures size { OnOk result (length (contents (parts section.entry)) ≡ section.entry.total) }
    ensures len { length ram.new.bytes ≡ length ram.old.bytes }
{
    if section.is_pattern() {
        return put_pattern(alloc, ram, section, base);
    }
    put_plain(ram, section, base);
    Ok(())
}

/// Puts the first sections behind `start`, unpacked.
#[tactic(auto, using(crate::proofs::Searches::refused_at))]
fn put_first(
    alloc: Global,
    ram: &mut Ram,
    pef: &Pef,
    start: u32,
    count: u32,
) -> Result<(), LoadError>
    requires below { count ≤ instantiated_count pef.now }
    requires fits { sections_end pef.now start count ≤ length ram.old.bytes }
    requires small { length ram.old.bytes ≤ 2 ^ 24 }
    ensures refusal { Finds result (option_map (λ e. LoadError.Reloc e) (first_refusal (patterns_refusal pef.now) count)) }
    ensures sizes { OnOk result ((k : ℕ) → k < count → length (contents_at pef.now k) ≡ total_at pef.now k) }
    ensures memory { OnOk result (ram.new ≡ with_pieces (section_pieces pef.now start count) ram.old) }
    ensures len { length ram.new.bytes ≡ length ram.old.bytes }
{
    let mut end = start as u64;
    for k in 0..count {
        let section = pef.section(k);
        let base = base_behind(section, end);
        put_section(alloc, ram, section, base as u32)?;
        end = base + section.total as u64;
    }
    Ok(())
}

/// Where all sections stand that begin behind `start`, and their sizes.
pub fn place_sections(alloc: Global, pef: &Pef, start: u32) -> Result<Placement, AllocError>
    requires { sections_end pef.now start (instantiated_count pef.now) < 2 ^ 32 }
    ensures start { IfOk result (λ placement. placement.start ≡ start) }
    ensures bases { IfOk result (HasBases pef.now) }
{
    place_first(alloc, pef, start, pef.sections())
}

/// Puts all sections behind `start`, unpacked.
pub fn put_sections(alloc: Global, ram: &mut Ram, pef: &Pef, start: u32) -> Result<(), LoadError>
    requires fits { sections_end pef.now start (instantiated_count pef.now) ≤ length ram.old.bytes }
    requires small { length ram.old.bytes ≤ 2 ^ 24 }
    ensures refusal { Finds result (patterns_of pef.now) }
    ensures sizes { OnOk result ((k : ℕ) → k < instantiated_count pef.now → length (contents_at pef.now k) ≡ total_at pef.now k) }
    ensures memory { OnOk result (ram.new ≡ with_pieces (section_pieces pef.now start (instantiated_count pef.now)) ram.old) }
    ensures len { length ram.new.bytes ≡ length ram.old.bytes }
{
    put_first(alloc, ram, pef, start, pef.sections())
}
