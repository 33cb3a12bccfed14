//! The tests that a container must pass, in order.
ghost use Rattle.std.specs.Prelude.{◌≡◌, ◌+◌, ◌≤◌, ◌<◌, length, Some, OnOk, IfOk};
ghost use Rattle.mix_bits.specs.declared.file.TheConstants.{MOST_BYTES};
ghost use Rattle.std.specs.Result.{result_err};
ghost use Rattle.pef_head.specs.ContainerClauses.{HasHeaders, HasSections};
ghost use Rattle.pef_head.specs.Container.{offset_of, packed_of, section_header};
ghost use Rattle.pef_head.specs.Loader.{loader_in, loader_of};
ghost use Rattle.pef_head.specs.PlacesClauses.{HasTables};
ghost use Rattle.pef_head.specs.inner.Refusals.{refusal_in_parts};
ghost use Rattle.pef_head.specs.inner.Refusals.{entries_refusal, init_refusal, loader_refusal};

use crate::container::{loader_section, section_count, test_header, test_sections};
use crate::error::PefError;
use crate::loader::{Loader, read_loader};
use crate::names::test_names;
use crate::owners::lost_symbol;
use crate::places::{bad_library, library, relocation, symbol};
use crate::relocations::bad_relocation;
use mix_bits::long_at;

/// The section number that stands for no section.
pub const NO_SECTION: u32 = 0xFFFF_FFFF;

/// Tests the entries of the loader section's tables.
fn test_entries(bytes: &[u8], l: Loader) -> Result<(), PefError>
    requires { HasTables bytes.now l }
    ensures { result_err result ≡ entries_refusal bytes.now l }
{
    if let Some(j) = bad_library(bytes, l) {
        return Err(PefError::Loader(library(l, j)));
    }
    if let Some(i) = lost_symbol(bytes, l) {
        return Err(PefError::Loader(symbol(l, i)));
    }
    if let Some(h) = bad_relocation(bytes, l) {
        return Err(PefError::Loader(relocation(l, h)));
    }
    Ok(())
}

/// Tests that there is no initialization routine.
fn test_init(bytes: &[u8], l: Loader) -> Result<(), PefError>
    requires { HasTables bytes.now l }
    ensures { result_err result ≡ init_refusal bytes.now l }
{
    if long_at(bytes, l.start + 8) != NO_SECTION {
        return Err(PefError::Init);
    }
    Ok(())
}

/// Reads the section with this number as the loader section, and tests it whole.
fn test_loader(bytes: &[u8], k: u16) -> Result<Loader, PefError>
    requires header { section_header k + 28 ≤ length bytes.now }
    requires within { offset_of bytes.now k + packed_of bytes.now k ≤ length bytes.now }
    requires small { length bytes.now ≤ MOST_BYTES }
    ensures refusal { result_err result ≡ loader_refusal bytes.now (Some k) }
    ensures is { IfOk result (λ l. l ≡ loader_in bytes.now k) }
    ensures tables { IfOk result (HasTables bytes.now) }
{
    let loader = read_loader(bytes, k)?;
    test_entries(bytes, loader)?;
    test_names(bytes, loader)?;
    test_init(bytes, loader)?;
    Ok(loader)
}

/// Tests a container whole, and gives what its loader section names.
pub fn read_head(bytes: &[u8]) -> Result<Loader, PefError>
    requires { length bytes.now ≤ MOST_BYTES }
    ensures refusal { result_err result ≡ refusal_in_parts bytes.now }
    ensures is { IfOk result (λ l. l ≡ loader_of bytes.now) }
    ensures headers { OnOk result (HasHeaders bytes.now) }
    ensures sections { OnOk result (HasSections bytes.now) }
    ensures tables { IfOk result (HasTables bytes.now) }
{
    test_header(bytes)?;
    test_sections(bytes)?;
    match loader_section(bytes, section_count(bytes)) {
        Some(k) => test_loader(bytes, k),
        None => Err(PefError::NoLoader),
    }
}
