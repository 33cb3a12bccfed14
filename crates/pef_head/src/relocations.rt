//! The table of relocation headers.
ghost use Rattle.std.specs.Prelude.{◌≡◌, ℕ, ◌+◌, ◌*◌, ◌^◌, ◌≤◌, ◌<◌, length, IfSome, IfOk};
ghost use Rattle.pef_head.specs.PlacesClauses.{HasTables};
ghost use Rattle.pef_head.specs.Places.{relocated, relocation, words_end, words_start};
ghost use Rattle.pef_head.specs.inner.Places.{is_repeated};
ghost use Rattle.pef_head.specs.inner.Relocations.{HasHeadersFor, Seen};
ghost use Rattle.pef_head.specs.Container.{instantiated_count};
ghost use Rattle.pef_head.specs.Refusals.{is_bad_relocation};
ghost use Rattle.pef_head.specs.inner.Parts.{relocs_at};
ghost use Rattle.pef_head.specs.PartsByNumber.{header_for};
ghost use Rattle.mix_bits.specs.Search.{least};

use crate::container::instantiated_count;
use crate::loader::Loader;
use crate::marks::Marks;
use crate::places::relocation;
use mix_bits::{long_at, word_at};
use std::alloc::{AllocError, Global};

/// The section that a header is for.
fn relocated(bytes: &[u8], l: Loader, h: u32) -> u16
    requires tables { HasTables bytes.now l }
    requires below { h < l.headers }
    ensures { result ≡ relocated bytes.now l h }
{
    word_at(bytes, relocation(l, h))
}

/// The place of a header's first word.
fn words_start(bytes: &[u8], l: Loader, h: u32) -> u64
    requires tables { HasTables bytes.now l }
    requires below { h < l.headers }
    ensures is { result ≡ words_start bytes.now l h }
    ensures small { result < 2 ^ 34 }
{
    l.start as u64 + l.area as u64 + long_at(bytes, relocation(l, h) + 8) as u64
}

/// The place behind a header's last word.
fn words_end(bytes: &[u8], l: Loader, h: u32) -> u64
    requires tables { HasTables bytes.now l }
    requires below { h < l.headers }
    ensures { result ≡ words_end bytes.now l h }
{
    words_start(bytes, l, h) + 2 * long_at(bytes, relocation(l, h) + 4) as u64
}

/// An earlier header is for the same section. Marks the section of this one.
fn is_repeated(seen: &mut Marks, bytes: &[u8], l: Loader, h: u32) -> bool
    requires tables { HasTables bytes.now l }
    requires below { h < l.headers }
    requires seen { Seen bytes.now l h seen.old }
    ensures is { result ≡ is_repeated bytes.now l h }
    ensures seen { Seen bytes.now l (h + 1) seen.new }
{
    let section = relocated(bytes, l, h);
    let repeated = seen.is_set(section);
    seen.set(section);
    repeated
}

/// The header breaks a rule. Marks its section.
fn is_bad_relocation(seen: &mut Marks, bytes: &[u8], l: Loader, h: u32) -> bool
    requires tables { HasTables bytes.now l }
    requires below { h < l.headers }
    requires seen { Seen bytes.now l h seen.old }
    ensures is { result ≡ is_bad_relocation bytes.now l h }
    ensures seen { Seen bytes.now l (h + 1) seen.new }
{
    let repeated = is_repeated(seen, bytes, l, h);
    let instantiated = relocated(bytes, l, h) < instantiated_count(bytes);
    !instantiated || repeated || (l.end as u64) < words_end(bytes, l, h)
}

/// The first relocation header that breaks a rule.
#[tactic(auto, using(mix_bits::proofs::Searches::least_at))]
pub fn bad_relocation(bytes: &[u8], l: Loader) -> Option<u32>
    requires { HasTables bytes.now l }
    ensures is { result ≡ least (is_bad_relocation bytes.now l) l.headers }
    ensures below { IfSome result (λ h. h < l.headers) }
{
    let mut seen = Marks::none();
    for h in 0..l.headers {
        if is_bad_relocation(&mut seen, bytes, l, h) {
            return Some(h);
        }
    }
    None
}

/// The relocation header of a section. It looks at the headers in turn.
#[tactic(auto, using(mix_bits::proofs::Searches::least_at))]
pub fn header_for(bytes: &[u8], l: Loader, k: u32) -> Option<u32>
    requires { HasTables bytes.now l }
    ensures is { result ≡ header_for bytes.now l k }
{
    for h in 0..l.headers {
        if relocated(bytes, l, h) as u32 == k {
            return Some(h);
        }
    }
    None
}

/// Notes a header for its section, unless an earlier one is noted.
fn note_header(table: &mut [Option<u32>], bytes: &[u8], l: Loader, h: u32)
    requires tables { HasTables bytes.now l }
    requires below { h < l.headers }
    requires noted { HasHeadersFor bytes.now l h table.old }
    ensures noted { HasHeadersFor bytes.now l (h + 1) table.new }
    ensures len { length table.new ≡ length table.old }
{
    let section = relocated(bytes, l, h) as usize;
    if section < table.len() && table[section].is_none() {
        table[section] = Some(h);
    }
}

/// The relocation header of each of the first sections, if it has one.
pub fn header_table(
    alloc: Global,
    bytes: &[u8],
    l: Loader,
    sections: u16,
) -> Result<Vec<Option<u32>>, AllocError>
    requires { HasTables bytes.now l }
    ensures noted { IfOk result (λ table. HasHeadersFor bytes.now l l.headers table.items) }
    ensures len { IfOk result (λ table. length table.items ≡ sections) }
{
    let mut table = vec![in alloc; None; sections as usize]?;
    for h in 0..l.headers {
        note_header(&mut table, bytes, l, h);
    }
    Ok(table)
}

/// The words of a section, by its relocation header, or none where it has no header.
#[tactic(auto, using(crate::proofs::Loadable::least_below))]
pub fn relocs_at<'a>(bytes: &'a [u8], l: Loader, k: u32, header: Option<u32>) -> &'a [u8]
    requires tables { HasTables bytes.now l }
    requires words { (h : ℕ) → h < l.headers → words_end bytes.now l h ≤ l.end }
    requires header { header ≡ header_for bytes.now l k }
    ensures { result.now ≡ relocs_at bytes.now l k }
{
    match header {
        Some(h) => {
            let start = words_start(bytes, l, h) as usize;
            &bytes[start..words_end(bytes, l, h) as usize]
        }
        None => &[],
    }
}
