//! The loader section's header.
ghost use Rattle.std.specs.Prelude.{◌≡◌, ◌+◌, ◌≤◌, ◌<◌, length, OnOk, IfOk};
ghost use Rattle.mix_bits.specs.declared.file.TheConstants.{MOST_BYTES};
ghost use Rattle.std.specs.Result.{result_err};
ghost use Rattle.pef_head.specs.Container.{offset_of, packed_of, section_header};
ghost use Rattle.pef_head.specs.Loader.{loader_in};
ghost use Rattle.pef_head.specs.PlacesClauses.{HasTables};
ghost use Rattle.pef_head.specs.Places.{library, relocation, symbol};
ghost use Rattle.pef_head.specs.inner.Refusals.{tables_refusal};

use crate::container::{PACKED, PLACE, section_header};
use crate::error::PefError;
use mix_bits::long_at;

/// What the loader section's header names, and where the section stands.
#[derive(Clone, Copy)]
pub struct Loader {
    /// The place of its first byte, and the place behind its last.
    pub start: u32,
    pub end: u32,
    /// How many libraries, symbols and relocation headers it has.
    pub libraries: u32,
    pub symbols: u32,
    pub headers: u32,
    /// Where relocation words and names count from, as offsets in the section.
    pub area: u32,
    pub strings: u32,
}

/// What the section with this number names, as a loader section.
fn loader_in(bytes: &[u8], k: u16) -> Loader
    requires header { section_header k + 28 ≤ length bytes.now }
    requires within { offset_of bytes.now k + packed_of bytes.now k ≤ length bytes.now }
    requires whole { 56 ≤ packed_of bytes.now k }
    requires small { length bytes.now ≤ MOST_BYTES }
    ensures { result ≡ loader_in bytes.now k }
{
    let header = section_header(k as u32);
    let start = long_at(bytes, header + PLACE);
    Loader {
        start,
        end: start + long_at(bytes, header + PACKED),
        libraries: long_at(bytes, start + 24),
        symbols: long_at(bytes, start + 28),
        headers: long_at(bytes, start + 32),
        area: long_at(bytes, start + 36),
        strings: long_at(bytes, start + 40),
    }
}

/// Tests that the tables are in the loader section.
fn test_tables(l: Loader) -> Result<(), PefError>
    requires header { l.start + 56 ≤ l.end }
    requires small { l.end ≤ MOST_BYTES }
    ensures refusal { result_err result ≡ tables_refusal l }
    ensures libraries { OnOk result (library l l.libraries ≤ l.end) }
    ensures symbols { OnOk result (symbol l l.symbols ≤ l.end) }
    ensures relocations { OnOk result (relocation l l.headers ≤ l.end) }
{
    let end = l.end as u64;
    let libraries = l.start as u64 + 56;
    let symbols = libraries + 24 * l.libraries as u64;
    let relocations = symbols + 4 * l.symbols as u64;
    if end < symbols {
        return Err(PefError::Loader(libraries as u32));
    }
    if end < relocations {
        return Err(PefError::Loader(symbols as u32));
    }
    if end < relocations + 12 * l.headers as u64 {
        return Err(PefError::Loader(relocations as u32));
    }
    Ok(())
}

/// The section with this number as the loader section, where its header and its tables fit.
pub fn read_loader(bytes: &[u8], k: u16) -> Result<Loader, PefError>
    requires header { section_header k + 28 ≤ length bytes.now }
    requires within { offset_of bytes.now k + packed_of bytes.now k ≤ length bytes.now }
    requires small { length bytes.now ≤ MOST_BYTES }
    ensures refusal { result_err result ≡ tables_refusal (loader_in bytes.now k) }
    ensures is { IfOk result (λ l. l ≡ loader_in bytes.now k) }
    ensures tables { IfOk result (HasTables bytes.now) }
{
    let header = section_header(k as u32);
    if long_at(bytes, header + PACKED) < 56 {
        return Err(PefError::Loader(long_at(bytes, header + PLACE)));
    }
    let loader = loader_in(bytes, k);
    test_tables(loader)?;
    Ok(loader)
}
