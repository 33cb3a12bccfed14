//! Names in the loader section, each with a zero byte behind it.
ghost use Rattle.std.specs.Prelude.{◌≡◌, ◌≤◌, ◌<◌, true, length, take, IfSome};
ghost use Rattle.pef_head.specs.PlacesClauses.{HasTables};
ghost use Rattle.pef_head.specs.Places.{has_end, library_name, symbol_name};
ghost use Rattle.pef_head.specs.inner.Names.{is_zero, IsNamesEnd};
ghost use Rattle.pef_head.specs.Names.{name_at};
ghost use Rattle.pef_head.specs.inner.Refusals.{names_refusal, is_nameless_library, is_nameless_symbol};
ghost use Rattle.std.specs.List.{position};
ghost use Rattle.std.specs.Result.{result_err};
ghost use Rattle.mix_bits.specs.Search.{least};

use crate::error::PefError;
use crate::loader::Loader;
use crate::places::{library, library_name, symbol, symbol_name};

/// The place behind the last zero byte of the file up to the loader section's end. A name has an end
/// where it begins before that.
fn names_end(bytes: &[u8], l: Loader) -> u64
    requires { l.end ≤ length bytes.now }
    ensures { IsNamesEnd bytes.now l result }
{
    let mut end = l.end as usize;
    while 0 < end && bytes[end - 1] != 0 {
        end -= 1;
    }
    end as u64
}

/// The first library whose name has no end.
#[tactic(auto, using(mix_bits::proofs::Searches::least_at))]
fn nameless_library(bytes: &[u8], l: Loader, names_end: u64) -> Option<u32>
    requires tables { HasTables bytes.now l }
    requires end { IsNamesEnd bytes.now l names_end }
    ensures is { result ≡ least (is_nameless_library bytes.now l) l.libraries }
    ensures below { IfSome result (λ j. j < l.libraries) }
{
    for j in 0..l.libraries {
        if names_end <= library_name(bytes, l, j) {
            return Some(j);
        }
    }
    None
}

/// The first symbol whose name has no end.
#[tactic(auto, using(mix_bits::proofs::Searches::least_at))]
fn nameless_symbol(bytes: &[u8], l: Loader, names_end: u64) -> Option<u32>
    requires tables { HasTables bytes.now l }
    requires end { IsNamesEnd bytes.now l names_end }
    ensures is { result ≡ least (is_nameless_symbol bytes.now l) l.symbols }
    ensures below { IfSome result (λ i. i < l.symbols) }
{
    for i in 0..l.symbols {
        if names_end <= symbol_name(bytes, l, i) {
            return Some(i);
        }
    }
    None
}

/// Tests that each name has an end: those of the libraries, and then those of the symbols.
pub fn test_names(bytes: &[u8], l: Loader) -> Result<(), PefError>
    requires { HasTables bytes.now l }
    ensures { result_err result ≡ names_refusal bytes.now l }
{
    let names_end = names_end(bytes, l);
    if let Some(j) = nameless_library(bytes, l, names_end) {
        return Err(PefError::Name(library(l, j)));
    }
    if let Some(i) = nameless_symbol(bytes, l, names_end) {
        return Err(PefError::Name(symbol(l, i)));
    }
    Ok(())
}

fn first_zero(bytes: &[u8]) -> Option<usize>
    ensures { result ≡ position is_zero bytes.now }
{
    bytes.iter().position(|byte| *byte == 0)
}

/// The name that begins at a place.
pub fn name_at<'a>(bytes: &'a [u8], l: Loader, from: u64) -> &'a [u8]
    requires within { l.end ≤ length bytes.now }
    requires ends { has_end bytes.now l from ≡ true }
    ensures { result.now ≡ name_at bytes.now l from }
{
    let rest = &bytes[from as usize..l.end as usize];
    match first_zero(rest) {
        Some(len) => &rest[..len],
        None => rest,
    }
}

/// The first bytes of the name that begins at a place, at most so many.
pub fn name_within<'a>(bytes: &'a [u8], l: Loader, from: u64, most: usize) -> &'a [u8]
    requires within { l.end ≤ length bytes.now }
    requires ends { has_end bytes.now l from ≡ true }
    ensures { result.now ≡ take most (name_at bytes.now l from) }
{
    let rest = &bytes[from as usize..l.end as usize];
    let first = &rest[..rest.len().min(most)];
    match first_zero(first) {
        Some(len) => &first[..len],
        None => first,
    }
}
