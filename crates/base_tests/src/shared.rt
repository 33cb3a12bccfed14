// Forks whose types share one list of references.
use crate::equal::{equal, must};
use crate::fork::{Get, check_fork, check_refused};
use rsrc_fork::RsrcError;
use std::alloc::Global;
use std::process::Abort;

/// Puts bytes behind those of a file.
fn put(rt: &impl Abort, file: &mut Vec<u8>, bytes: &[u8]) {
    file.extend_from_slice(bytes).expect(rt, "no memory");
}

/// A fork of so many types, which share so many references. All of them name one resource without bytes.
fn shared(rt: &impl Abort, alloc: Global, types: u16, count: u16) -> Vec<u8> {
    let mut file = Vec::new(alloc);
    write_head(rt, &mut file, types, count);
    write_types(rt, &mut file, types, count);
    write_references(rt, &mut file, count);
    file
}

/// The header, the resource and the map up to its types.
fn write_head(rt: &impl Abort, file: &mut Vec<u8>, types: u16, count: u16) {
    let map_len = 30 + 8 * types as u32 + 12 * count as u32;
    for field in [16, 20, 4, map_len] {
        put(rt, file, &field.to_be_bytes());
    }
    // the resource's length, the map's own fields, and the places of the type list and of the names
    put(rt, file, &[0; 28]);
    put(rt, file, &[0, 28, 0, 0]);
    put(rt, file, &types.wrapping_sub(1).to_be_bytes());
}

fn write_types(rt: &impl Abort, file: &mut Vec<u8>, types: u16, count: u16) {
    let references = types.wrapping_mul(8).wrapping_add(2);
    for kind in 0..types {
        put(rt, file, &u32::from(kind).to_be_bytes());
        put(rt, file, &count.wrapping_sub(1).to_be_bytes());
        put(rt, file, &references.to_be_bytes());
    }
}

fn write_references(rt: &impl Abort, file: &mut Vec<u8>, count: u16) {
    for id in 0..count {
        put(rt, file, &id.to_be_bytes());
        put(rt, file, &[0xFF, 0xFF, 0, 0, 0, 0, 0, 0, 0, 0]);
    }
}

static GETS: &[Get] = &[
    (0, 19, Some(b"")),
    (299, 0, Some(b"")),
    (299, 20, None),
    (300, 0, None),
];

#[test]
fn reads_references_that_types_share(rt: HostRuntime) {
    let file = shared(&rt, rt.alloc(), 300, 20);
    check_fork(&rt, rt.alloc(), &file, GETS, &[]);
}

/// 1398101 of them, the most that there may be. The last id is 60786, or -4750 as a signed word.
#[test]
fn keeps_as_many_resources_as_fill_the_largest_file(rt: HostRuntime) {
    let file = shared(&rt, rt.alloc(), 23, 60787);
    equal(&rt, "the length", file.len(), 729678);
    check_fork(
        &rt,
        rt.alloc(),
        &file,
        &[(22, -4750, Some(b"")), (22, -4749, None)],
        &[],
    );
}

/// 1398102 of them, one more.
#[test]
fn refuses_more_resources_than_fill_the_largest_file(rt: HostRuntime) {
    let file = shared(&rt, rt.alloc(), 86, 16257);
    check_refused(&rt, rt.alloc(), &file, RsrcError::NoMemory);
}

/// A map of 206 bytes ends one byte before.
fn cut_map(rt: &impl Abort, file: &mut Vec<u8>) {
    must(rt, 15 < file.len() && file[15] == 206);
    file[15] = 205;
}

#[test]
fn an_entry_behind_the_map_counts_for_none(rt: HostRuntime) {
    // 22 types with 65536 references each are too many; where the map ends in the 22nd entry, it leaves the map
    let mut file = shared(&rt, rt.alloc(), 22, 0);
    check_refused(&rt, rt.alloc(), &file, RsrcError::NoMemory);
    cut_map(&rt, &mut file);
    check_refused(&rt, rt.alloc(), &file, RsrcError::BadOffset(226));
}
