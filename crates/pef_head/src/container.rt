//! A container's header and its section headers.
ghost use Rattle.std.specs.Prelude.{◌≡◌, ◌+◌, ◌^◌, ◌≤◌, ◌<◌, length, OnOk, IfSome};
ghost use Rattle.mix_bits.specs.declared.file.TheConstants.{MOST_BYTES};
ghost use Rattle.std.specs.Result.{result_err};
ghost use Rattle.mix_bits.specs.Search.{least};
ghost use Rattle.pef_head.specs.ContainerClauses.{HasHeaders, HasSections};
ghost use Rattle.pef_head.specs.Container.{instantiated_count, is_bad_section, is_malformed, loader_section, section_count, section_header};
ghost use Rattle.pef_head.specs.inner.Container.{is_loader, leaves_file};
ghost use Rattle.pef_head.specs.inner.Refusals.{header_refusal, sections_refusal};

use crate::error::PefError;
use mix_bits::{long_at, word_at};

const JOY: u32 = 0x4A6F_7921;

const PEFF: u32 = 0x7065_6666;

const PWPC: u32 = 0x7077_7063;

/// Pattern data, whose packed bytes describe the unpacked ones.
pub const PATTERN: u8 = 2;

const LOADER: u8 = 4;

const DEBUG: u8 = 5;

const EXECUTABLE_DATA: u8 = 6;

/// The greatest exponent of an alignment: that of 4096 bytes.
const GREATEST_EXPONENT: u8 = 12;

/// Where a section header has its fields, counted from its first byte: a long for the total size.
pub const TOTAL: u32 = 8;

/// A long for the unpacked size.
pub const UNPACKED: u32 = 12;

/// A long for the packed size.
pub const PACKED: u32 = 16;

/// A long for the place of the packed bytes in the file.
pub const PLACE: u32 = 20;

/// A byte for the kind.
pub const KIND: usize = 24;

/// A byte for the alignment, as an exponent of two.
pub const ALIGNMENT: usize = 26;

pub fn section_count(bytes: &[u8]) -> u16
    requires { 40 ≤ length bytes.now }
    ensures { result ≡ section_count bytes.now }
{
    word_at(bytes, 32)
}

pub fn instantiated_count(bytes: &[u8]) -> u16
    requires { 40 ≤ length bytes.now }
    ensures { result ≡ instantiated_count bytes.now }
{
    word_at(bytes, 34)
}

/// The place of the section header with this number.
pub fn section_header(k: u32) -> u32
    requires { section_header k < 2 ^ 32 }
    ensures { result ≡ section_header k }
{
    40 + 28 * k
}

/// Tests the header, and that the section headers are in the file.
pub fn test_header(bytes: &[u8]) -> Result<(), PefError>
    requires { length bytes.now ≤ MOST_BYTES }
    ensures refusal { result_err result ≡ header_refusal bytes.now }
    ensures headers { OnOk result (HasHeaders bytes.now) }
{
    let len = bytes.len() as u32;
    if len < 40 {
        return Err(PefError::Short(len));
    }
    if long_at(bytes, 0) != JOY || long_at(bytes, 4) != PEFF {
        return Err(PefError::Magic);
    }
    if long_at(bytes, 8) != PWPC {
        return Err(PefError::Architecture);
    }
    if long_at(bytes, 12) != 1 {
        return Err(PefError::Version);
    }
    if len < section_header(section_count(bytes) as u32) {
        return Err(PefError::Short(len));
    }
    Ok(())
}

/// The section's packed bytes are not in the file.
fn leaves_file(bytes: &[u8], k: u16) -> bool
    requires { section_header k + 28 ≤ length bytes.now }
    ensures { result ≡ leaves_file bytes.now k }
{
    let header = section_header(k as u32);
    let end = long_at(bytes, header + PLACE) as u64 + long_at(bytes, header + PACKED) as u64;
    (bytes.len() as u64) < end
}

/// The section cannot be instantiated as its header says.
fn is_malformed(bytes: &[u8], k: u16) -> bool
    requires { section_header k + 28 ≤ length bytes.now }
    ensures { result ≡ is_malformed bytes.now k }
{
    let header = section_header(k as u32);
    let (unpacked, packed) = (
        long_at(bytes, header + UNPACKED),
        long_at(bytes, header + PACKED),
    );
    let kind = bytes[header as usize + KIND];
    let uninstantiable = kind == LOADER || kind == DEBUG || EXECUTABLE_DATA < kind;
    uninstantiable
        || GREATEST_EXPONENT < bytes[header as usize + ALIGNMENT]
        || long_at(bytes, header + TOTAL) < unpacked
        || (kind != PATTERN && packed != unpacked)
}

fn is_bad_section(bytes: &[u8], k: u16) -> bool
    requires { section_header k + 28 ≤ length bytes.now }
    ensures { result ≡ is_bad_section bytes.now k }
{
    leaves_file(bytes, k) || (k < instantiated_count(bytes) && is_malformed(bytes, k))
}

/// The first section that cannot be loaded.
#[tactic(auto, using(mix_bits::proofs::Searches::least_at))]
fn bad_section(bytes: &[u8], count: u16) -> Option<u16>
    requires { section_header count ≤ length bytes.now }
    ensures is { result ≡ least (is_bad_section bytes.now) count }
{
    for k in 0..count {
        if is_bad_section(bytes, k) {
            return Some(k);
        }
    }
    None
}

/// Tests the section headers.
pub fn test_sections(bytes: &[u8]) -> Result<(), PefError>
    requires { HasHeaders bytes.now }
    ensures refusal { result_err result ≡ sections_refusal bytes.now }
    ensures sections { OnOk result (HasSections bytes.now) }
{
    let count = section_count(bytes);
    if let Some(k) = bad_section(bytes, count) {
        return Err(PefError::Section(k as u32));
    }
    if count < instantiated_count(bytes) {
        return Err(PefError::Section(count as u32));
    }
    Ok(())
}

fn is_loader(bytes: &[u8], k: u16) -> bool
    requires { section_header k + 28 ≤ length bytes.now }
    ensures { result ≡ is_loader bytes.now k }
{
    bytes[section_header(k as u32) as usize + KIND] == LOADER
}

/// The number of the first loader section.
#[tactic(auto, using(mix_bits::proofs::Searches::least_at))]
pub fn loader_section(bytes: &[u8], count: u16) -> Option<u16>
    requires { section_header count ≤ length bytes.now }
    ensures is { result ≡ least (is_loader bytes.now) count }
    ensures below { IfSome result (λ k. k < count) }
{
    for k in 0..count {
        if is_loader(bytes, k) {
            return Some(k);
        }
    }
    None
}
