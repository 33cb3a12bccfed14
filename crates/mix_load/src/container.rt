//! Containers as programs.
ghost use Rattle.std.specs.Prelude.{◌≡◌, ℕ, ◌+◌, ◌^◌, ◌≤◌, ◌&&◌, is_none, length, take, IfOk, IfSome, OnOk};
ghost use Rattle.mix_bits.specs.declared.file.TheConstants.{MOST_BYTES};
ghost use Rattle.std.specs.Result.{result_err};
ghost use Rattle.pef_head.specs.Container.{instantiated_count};
ghost use Rattle.mix_bits.specs.SearchOperator.{◌or◌};
ghost use Rattle.mix_bits.specs.Search.{refused};
ghost use Rattle.mix_load.specs.ContainerImage.{is_ppc, with_container, with_sections};
ghost use Rattle.mix_load.specs.inner.Container.{imports_refusal, patterns_of, relocations_refusal};
ghost use Rattle.mix_load.specs.inner.Loaded.{IsImage};
ghost use Rattle.mix_load.specs.inner.Outcome.{Finds};
ghost use Rattle.mix_load.specs.OutcomeClauses.{Gives};
ghost use Rattle.mix_load.specs.Pieces.{with_pieces};
ghost use Rattle.mix_load.specs.Sections.{main_vector, sections_end};
ghost use Rattle.mix_load.specs.inner.Sections.{relocated_pieces};

use crate::error::LoadError;
use crate::image::{Image, test_end};
use crate::imports::import_addresses;
use crate::relocations::relocate_sections;
use crate::sections::{place_sections, put_sections, sections_end};
use crate::vector::main_vector;
use big_memory::Ram;
use mix_bits::Isa;
use pef_head::Pef;
use pef_reloc::plan_laws;
use std::alloc::Global;

/// Puts and relocates the sections, and gives the address of the main vector.
fn put_container(
    alloc: Global,
    ram: &mut Ram,
    pef: &Pef,
    start: u32,
) -> Result<Option<u32>, LoadError>
    requires fits { sections_end pef.now start (instantiated_count pef.now) ≤ length ram.old.bytes }
    requires small { length ram.old.bytes ≤ 2 ^ 24 }
    ensures refusal { Finds result (patterns_of pef.now or imports_refusal pef.now or relocations_refusal pef.now start) }
    ensures vector { IfOk result (λ vector. vector ≡ main_vector pef.now start) }
    ensures within { IfOk result (λ vector. IfSome vector (λ v. v + 8 ≤ sections_end pef.now start (instantiated_count pef.now))) }
    ensures front { OnOk result ((n : ℕ) → n ≤ start → take n ram.new.bytes ≡ take n ram.old.bytes) }
    ensures memory { OnOk result (ram.new ≡ with_pieces (relocated_pieces pef.now start (instantiated_count pef.now)) ram.old) }
    ensures len { length ram.new.bytes ≡ length ram.old.bytes }
{
    plan_laws();
    let placement = place_sections(alloc, pef, start)?;
    put_sections(alloc, ram, pef, start)?;
    let imports = import_addresses(alloc, pef)?;
    let headers = pef.reloc_headers(alloc)?;
    relocate_sections(ram, pef, &placement, &imports, &headers)?;
    Ok(main_vector(pef, &placement))
}

/// Tests that a PowerPC program has a main vector.
fn test_main(main: Isa, vector: Option<u32>) -> Result<(), LoadError>
    ensures { result_err result ≡ refused (is_ppc main && is_none vector) LoadError.NoMain }
{
    match (main, vector) {
        (Isa::Ppc, None) => Err(LoadError::NoMain),
        _ => Ok(()),
    }
}

/// Adds the sections of a container.
fn add_sections(alloc: Global, pef: &Pef, main: Isa, mut image: Image) -> Result<Image, LoadError>
    requires { IsImage image }
    ensures is { Gives result (with_sections main pef.now image) }
    ensures whole { IfOk result IsImage }
{
    let start = image.end;
    let end = sections_end(pef, start as u64, pef.sections());
    test_end(end, image.ram.floor())?;
    let vector = put_container(alloc, &mut image.ram, pef, start)?;
    test_main(main, vector)?;
    image.vector = vector.unwrap_or(0);
    image.end = end as u32;
    Ok(image)
}

/// Adds the program of a container's file.
pub fn add_container(
    alloc: Global,
    bytes: &[u8],
    main: Isa,
    image: Image,
) -> Result<Image, LoadError>
    requires small { length bytes.now ≤ MOST_BYTES }
    requires whole { IsImage image }
    ensures is { Gives result (with_container main bytes.now image) }
    ensures whole { IfOk result IsImage }
{
    match Pef::read(bytes) {
        Ok(pef) => add_sections(alloc, &pef, main, image),
        Err(e) => Err(LoadError::Pef(e)),
    }
}
