ghost use Rattle.std.specs.Prelude.{◌≡◌, ◌+◌, ◌^◌, ◌≤◌, ◌<◌, [], length, IfOk};
ghost use Rattle.mix_bits.specs.declared.file.TheConstants.{MOST_BYTES};
ghost use Rattle.std.specs.Result.{result_map_both};
ghost use Rattle.rsrc_fork.specs.inner.Header.{IsWithin};
ghost use Rattle.rsrc_fork.specs.OutcomeClauses.{Gives};
ghost use Rattle.rsrc_fork.specs.ResourcesClauses.{seen};
ghost use Rattle.rsrc_fork.specs.Resources.{with_resource};
ghost use Rattle.rsrc_fork.specs.ReferencesClauses.{count_below as count_below_lem, count_in as count_in_lem, reference_count, reference_limit, entry_at, id_at};
ghost use Rattle.rsrc_fork.specs.References.{data_at, resources_of, with_reference, with_type};
ghost use Rattle.rsrc_fork.specs.inner.References.{with_references, with_types};

use crate::error::RsrcError;
use crate::header::{Areas, areas_of, list_of};
use crate::name::Name;
use byteorder::{BigEndian, ByteOrder};
use indexmap::IndexMap;
use mix_bits::{long_at, three_at, word_at};
use std::alloc::Global;

/// How many references a fork may have: as many as fill the largest file, with 12 bytes for each. Types may
/// share references, so that a small file could else have billions of them.
const REFERENCE_LIMIT: u32 = 1_398_101;

/// The resources so far, in the order of the type list.
pub type Resources<'a> = IndexMap<Name, &'a [u8]>;

/// A type's entry in the type list.
#[derive(Clone, Copy)]
pub struct TypeEntry {
    pub kind: u32,
    /// How many references the type has.
    pub count: u32,
    /// Where in the file the first of them stands.
    pub first: u32,
}

/// The bytes of the resource whose reference stands at a place.
fn data_at<'a>(bytes: &'a [u8], areas: Areas, place: u32) -> Result<&'a [u8], RsrcError>
    requires within { IsWithin areas (length bytes.now) }
    requires near { place < 2 ^ 26 }
    ensures is { result_map_both (λ piece. piece.now) (λ e. e) result ≡ data_at bytes.now areas place }
    ensures whole { IfOk result (λ _. place + 12 ≤ length bytes.now) }
{
    let outside = RsrcError::BadOffset(place);
    if areas.map_end < place + 12 {
        return Err(outside);
    }
    let start = areas.data_start + three_at(bytes, place + 5);
    if areas.data_end < start + 4 {
        return Err(outside);
    }
    let end = start as u64 + 4 + long_at(bytes, start) as u64;
    if (areas.data_end as u64) < end {
        return Err(outside);
    }
    Ok(&bytes[start as usize + 4..end as usize])
}

/// Keeps a resource as the last, unless its name is there.
fn put<'a>(resources: &mut Resources<'a>, name: Name, piece: &'a [u8]) -> Result<(), RsrcError>
    ensures { Gives (λ _. seen resources.new.entries) result
        (with_resource (seen resources.old.entries) name piece.now) }
{
    match resources.insert(name, piece)? {
        Some(_) => Err(RsrcError::Twice(name.kind, name.id)),
        None => Ok(()),
    }
}

/// The id in a reference that stands at a place.
fn id_at(bytes: &[u8], place: u32) -> i16
    requires { place + 2 ≤ length bytes.now }
    ensures { result ≡ id_at bytes.now place }
{
    let start = place as usize;
    BigEndian::read_i16(&bytes[start..start + 2])
}

/// Keeps the resource whose reference stands at a place.
fn add_reference<'a>(
    resources: &mut Resources<'a>,
    bytes: &'a [u8],
    areas: Areas,
    kind: u32,
    place: u32,
) -> Result<(), RsrcError>
    requires within { IsWithin areas (length bytes.now) }
    requires near { place < 2 ^ 26 }
    ensures { Gives (λ _. seen resources.new.entries) result
        (with_reference bytes.now areas kind (seen resources.old.entries) place) }
{
    let piece = data_at(bytes, areas, place)?;
    let name = Name {
        kind,
        id: id_at(bytes, place),
    };
    if bytes[place as usize + 4] % 2 == 1 {
        return Err(RsrcError::Compressed(name.kind, name.id));
    }
    put(resources, name, piece)
}

/// Keeps the resources that the references of a type name.
fn add_references<'a>(
    resources: &mut Resources<'a>,
    bytes: &'a [u8],
    areas: Areas,
    entry: TypeEntry,
) -> Result<(), RsrcError>
    requires within { IsWithin areas (length bytes.now) }
    requires near { entry.first < 2 ^ 25 }
    requires few { entry.count ≤ 65536 }
    ensures { Gives (λ _. seen resources.new.entries) result
        (with_references bytes.now areas entry (seen resources.old.entries) entry.count) }
{
    for j in 0..entry.count {
        add_reference(resources, bytes, areas, entry.kind, entry.first + 12 * j)?;
    }
    Ok(())
}

/// A type's entry, which stands at a place.
fn entry_at(bytes: &[u8], list: u32, place: u32) -> TypeEntry
    requires room { place + 8 ≤ length bytes.now }
    requires small { length bytes.now ≤ MOST_BYTES }
    requires near { list ≤ MOST_BYTES }
    ensures is { result ≡ entry_at bytes.now list place }
    ensures few { result.count ≤ 65536 }
    ensures within { result.first < 2 ^ 25 }
{
    TypeEntry {
        kind: long_at(bytes, place),
        count: word_at(bytes, place + 4) as u32 + 1,
        first: list + word_at(bytes, place + 6) as u32,
    }
}

/// Keeps the resources of the type with a number in the type list.
fn add_type<'a>(
    resources: &mut Resources<'a>,
    bytes: &'a [u8],
    areas: Areas,
    list: u32,
    k: u16,
) -> Result<(), RsrcError>
    requires within { IsWithin areas (length bytes.now) }
    requires near { list ≤ MOST_BYTES }
    ensures { Gives (λ _. seen resources.new.entries) result
        (with_type bytes.now areas list (seen resources.old.entries) k) }
{
    let place = list + 2 + 8 * k as u32;
    if areas.map_end < place + 8 {
        return Err(RsrcError::BadOffset(place));
    }
    add_references(resources, bytes, areas, entry_at(bytes, list, place))
}

/// Keeps the resources of the first types of the type list.
fn add_types<'a>(
    resources: &mut Resources<'a>,
    bytes: &'a [u8],
    areas: Areas,
    list: u32,
    count: u16,
) -> Result<(), RsrcError>
    requires within { IsWithin areas (length bytes.now) }
    requires near { list ≤ MOST_BYTES }
    requires empty { resources.old.entries ≡ [] }
    ensures { Gives (λ _. seen resources.new.entries) result
        (with_types bytes.now areas list count) }
{
    for k in 0..count {
        add_type(resources, bytes, areas, list, k)?;
    }
    Ok(())
}

/// How many references a type has, as its entry says. An entry that leaves the map says nothing.
fn count_in(bytes: &[u8], areas: Areas, list: u32, k: u16) -> u32
    requires within { IsWithin areas (length bytes.now) }
    requires near { list ≤ MOST_BYTES }
    ensures is { result ≡ count_in_lem bytes.now areas list k }
    ensures few { result ≤ 65536 }
{
    let place = list + 2 + 8 * k as u32;
    if areas.map_end < place + 8 {
        return 0;
    }
    entry_at(bytes, list, place).count
}

/// How many references the first types have together.
fn count_below(bytes: &[u8], areas: Areas, list: u32, count: u16) -> u32
    requires within { IsWithin areas (length bytes.now) }
    requires near { list ≤ MOST_BYTES }
    ensures { result ≡ count_below_lem bytes.now areas list count }
{
    let mut total = 0;
    for k in 0..count {
        total += count_in(bytes, areas, list, k);
    }
    total
}

/// The resources of the fork in a file's bytes.
pub fn resources_of<'a>(alloc: Global, bytes: &'a [u8]) -> Result<Resources<'a>, RsrcError>
    requires { length bytes.now ≤ MOST_BYTES }
    ensures is { Gives (λ resources. seen resources.entries) result (resources_of bytes.now) }
    ensures few { IfOk result (λ resources. length resources.entries ≤ reference_limit) }
    ensures many { IfOk (reference_count bytes.now) (λ count. reference_limit < count → result ≡ Err RsrcError.NoMemory) }
{
    let areas = areas_of(bytes)?;
    let list = list_of(bytes, areas)?;
    let count = word_at(bytes, list).wrapping_add(1);
    if REFERENCE_LIMIT < count_below(bytes, areas, list, count) {
        return Err(RsrcError::NoMemory);
    }
    let mut resources = IndexMap::new(alloc);
    add_types(&mut resources, bytes, areas, list, count)?;
    Ok(resources)
}
