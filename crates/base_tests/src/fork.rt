// Forks made by hand.
use crate::changes::{Change, changed};
use crate::equal::{equal, must};
use rsrc_fork::{Fork, RsrcError};
use std::alloc::Global;
use std::process::Abort;

const CODE: u32 = 0x434F_4445;

const ICON: u32 = 0x4943_4F4E;

const STR: u32 = 0x5354_5220;

/// A program's fork: CODE 0 with one entry of the jump table, and CODE 1.
const PROGRAM: [u8; 120] = [
    // the header
    0x00, 0x00, 0x00, 0x10, 0x00, 0x00, 0x00, 0x3A, 0x00, 0x00, 0x00, 0x2A, 0x00, 0x00, 0x00, 0x3E,
    // CODE 0
    0x00, 0x00, 0x00, 0x18, 0x00, 0x00, 0x00, 0x28, 0x00, 0x00, 0x00, 0x10, 0x00, 0x00, 0x00, 0x08,
    0x00, 0x00, 0x00, 0x20, 0x00, 0x00, 0x3F, 0x3C, 0x00, 0x01, 0xA9, 0xF0,
    // CODE 1
    0x00, 0x00, 0x00, 0x0A, 0x00, 0x00, 0x00, 0x01, 0x70, 0x48, 0xAA, 0x80, 0x4E, 0x75,
    // the map's own fields
    0x00, 0x00, 0x00, 0x00, 0x00, 0x00, 0x00, 0x00, 0x00, 0x00, 0x00, 0x00, 0x00, 0x00, 0x00, 0x00,
    0x00, 0x00, 0x00, 0x00, 0x00, 0x00, 0x00, 0x00, 0x00, 0x1C, 0x00, 0x3E,
    // the type list
    0x00, 0x00, 0x43, 0x4F, 0x44, 0x45, 0x00, 0x01, 0x00, 0x0A,
    // the references
    0x00, 0x00, 0xFF, 0xFF, 0x00, 0x00, 0x00, 0x00, 0x00, 0x00, 0x00, 0x00, 0x00, 0x01, 0xFF, 0xFF,
    0x00, 0x00, 0x00, 0x1C, 0x00, 0x00, 0x00, 0x00,
];

/// Three resources of two types, with the map before the data.
const TYPES: [u8; 113] = [
    // the header
    0x00, 0x00, 0x00, 0x62, 0x00, 0x00, 0x00, 0x10, 0x00, 0x00, 0x00, 0x0F, 0x00, 0x00, 0x00, 0x52,
    // the map's own fields
    0x00, 0x00, 0x00, 0x00, 0x00, 0x00, 0x00, 0x00, 0x00, 0x00, 0x00, 0x00, 0x00, 0x00, 0x00, 0x00,
    0x00, 0x00, 0x00, 0x00, 0x00, 0x00, 0x00, 0x00, 0x00, 0x1C, 0x00, 0x52,
    // the type list
    0x00, 0x01, 0x49, 0x43, 0x4F, 0x4E, 0x00, 0x01, 0x00, 0x12, 0x53, 0x54, 0x52, 0x20, 0x00, 0x00,
    0x00, 0x2A,
    // the references
    0x00, 0x03, 0xFF, 0xFF, 0x00, 0x00, 0x00, 0x00, 0x00, 0x00, 0x00, 0x00, 0xFF, 0xFF, 0xFF, 0xFF,
    0x00, 0x00, 0x00, 0x05, 0x00, 0x00, 0x00, 0x00, 0x00, 0x03, 0xFF, 0xFF, 0x00, 0x00, 0x00, 0x0B,
    0x00, 0x00, 0x00, 0x00,
    // the data
    0x00, 0x00, 0x00, 0x01, 0x61, 0x00, 0x00, 0x00, 0x02, 0x62, 0x63, 0x00, 0x00, 0x00, 0x00,
];

/// A type, an id, and the bytes of the resource.
pub type Get<'a> = (u32, i16, Option<&'a [u8]>);

/// The fork gives these.
fn check_gets(rt: &impl Abort, fork: &Fork, gets: &[Get]) {
    for (kind, id, wanted) in gets {
        let found = (*kind, *id, fork.get(*kind, *id));
        equal(rt, "a resource", found, (*kind, *id, *wanted));
    }
}

/// A type, an id, and the next id of the type.
pub type Next = (u32, i16, Option<i16>);

fn check_nexts(rt: &impl Abort, fork: &Fork, nexts: &[Next]) {
    for (kind, after, next) in nexts {
        let found = (*kind, *after, fork.ids(*kind, *after));
        equal(rt, "an id", found, (*kind, *after, *next));
    }
}

/// The file is a fork that gives these.
pub fn check_fork(rt: &impl Abort, alloc: Global, file: &[u8], gets: &[Get], nexts: &[Next]) {
    must(rt, file.len() <= 0x100_0000);
    let fork = Fork::read(alloc, file).expect(rt, "no fork");
    check_gets(rt, &fork, gets);
    check_nexts(rt, &fork, nexts);
}

/// A file of so many bytes is refused so.
pub fn check_refused(rt: &impl Abort, alloc: Global, file: &[u8], wanted: RsrcError) {
    must(rt, file.len() <= 0x100_0000);
    let refusal = Fork::read(alloc, file).err();
    equal(rt, file.len(), refusal, Some(wanted));
}

/// A fork with these changes gives these.
fn gives(
    rt: &impl Abort,
    alloc: Global,
    fork: &[u8],
    changes: &[Change],
    gets: &[Get],
    nexts: &[Next],
) {
    must(rt, fork.len() <= 272);
    let file = changed(rt, fork, changes);
    check_fork(rt, alloc, &file[..fork.len()], gets, nexts);
}

/// A place, the bytes that are put there, and the refusal.
type Refusal = (usize, &'static [u8], RsrcError);

/// A fork with these changes is refused so with each further one.
fn are_refused(rt: &impl Abort, alloc: Global, fork: &[u8], changes: &[Change], rows: &[Refusal]) {
    must(rt, fork.len() <= 272);
    let base = changed(rt, fork, changes);
    for (place, bytes, wanted) in rows {
        let file = changed(rt, &base, &[(*place, *bytes)]);
        check_refused(rt, alloc, &file[..fork.len()], *wanted);
    }
}

#[test]
fn reads_a_program(rt: HostRuntime) {
    let gets = [
        (CODE, 0, Some(&PROGRAM[20..44])),
        (CODE, 1, Some(&PROGRAM[48..58])),
        (CODE, 2, None),
        (ICON, 0, None),
    ];
    let nexts = [(CODE, -1, Some(0)), (CODE, 0, Some(1)), (CODE, 1, None)];
    check_fork(&rt, rt.alloc(), &PROGRAM, &gets, &nexts);
}

static GETS_OF_TYPES: &[Get] = &[
    (ICON, 3, Some(b"a")),
    (ICON, -1, Some(b"bc")),
    (STR, 3, Some(b"")),
    (STR, -1, None),
];

static NEXTS_OF_TYPES: &[Next] = &[
    (ICON, -32768, Some(-1)),
    (ICON, -1, Some(3)),
    (ICON, 3, None),
    (STR, -1, Some(3)),
    (CODE, -32768, None),
];

#[test]
fn reads_several_types(rt: HostRuntime) {
    check_fork(&rt, rt.alloc(), &TYPES, GETS_OF_TYPES, NEXTS_OF_TYPES);
}

#[test]
fn refuses_each_cut(rt: HostRuntime) {
    for len in 0..PROGRAM.len() {
        let wanted = if len < 16 {
            RsrcError::Short(len as u32)
        } else {
            RsrcError::BadOffset(0)
        };
        check_refused(&rt, rt.alloc(), &PROGRAM[..len], wanted);
    }
}

static BAD_FIELDS: &[Refusal] = &[
    // the data ends behind the file; the map has 27 bytes; the data ends in the map
    (0, &[1], RsrcError::BadOffset(0)),
    (15, &[27], RsrcError::BadOffset(0)),
    (11, &[43], RsrcError::Overlap),
    // the type list leaves the map, or its count is the last word of it
    (83, &[61], RsrcError::BadOffset(82)),
    (83, &[60], RsrcError::BadOffset(120)),
    // the map ends in the last reference; a third reference; 65536 references; references far away
    (15, &[61], RsrcError::BadOffset(108)),
    (93, &[2], RsrcError::BadOffset(120)),
    (92, &[0xFF; 2], RsrcError::BadOffset(120)),
    (94, &[1], RsrcError::BadOffset(352)),
    // data at a high place; a length of one byte too many
    (101, &[0xFF; 3], RsrcError::BadOffset(96)),
    (47, &[11], RsrcError::BadOffset(108)),
    // CODE 1 is compressed; CODE 0 and CODE 1 come twice
    (112, &[1], RsrcError::Compressed(CODE, 1)),
    (109, &[0], RsrcError::Twice(CODE, 0)),
    (97, &[1], RsrcError::Twice(CODE, 1)),
];

#[test]
fn refuses_each_bad_field(rt: HostRuntime) {
    are_refused(&rt, rt.alloc(), &PROGRAM, &[], BAD_FIELDS);
}

#[test]
fn reads_what_the_rules_allow(rt: HostRuntime) {
    let alloc = rt.alloc();
    // no type
    let nexts = [(CODE, -1, None)];
    gives(&rt, alloc, &PROGRAM, &[(86, &[0xFF; 2])], &[], &nexts);
    // other attributes; a shorter resource
    let changes: [Change; 2] = [(112, &[0xFE]), (47, &[9])];
    let gets = [(CODE, 1, Some(&PROGRAM[48..57]))];
    gives(&rt, alloc, &PROGRAM, &changes, &gets, &[]);
}

static TWICE: &[Refusal] = &[
    // compressed too, and then far away too
    (112, &[1], RsrcError::Compressed(CODE, 0)),
    (112, &[1, 0xFF, 0xFF, 0xFF], RsrcError::BadOffset(108)),
];

#[test]
fn tests_the_data_first_and_the_name_last(rt: HostRuntime) {
    // CODE 0 twice
    are_refused(&rt, rt.alloc(), &PROGRAM, &[(109, &[0])], TWICE);
}
