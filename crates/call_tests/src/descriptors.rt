use crate::arguments::memory;
use crate::equal::{equal, must};
use big_memory::{Access, Ram};
use mix_bits::{Isa, Size};
use proc_info::BadInfo;
use routine_desc::{BadDesc, Desc, Rec, build, choose, read_desc};
use std::process::Abort;

/// Where the descriptors of these tests stand.
const AT: u32 = 0x1_0020;

/// A header for two records, a 68K record and a PowerPC record, both of C code with a long result.
const FAT: [u8; 52] = [
    0xAA, 0xFE, 7, 0, 0, 0, 0, 0, 0, 0, 0, 1, //
    0, 0, 0, 0x31, 0, 0, 0, 0, 0, 1, 0, 0x58, 0, 0, 0, 0, 0, 0, 0, 0, //
    0, 0, 0, 0x31, 0, 1, 0, 0, 0, 1, 0, 0x60, 0, 0, 0, 0, 0, 0, 0, 0,
];

fn rec(info: u32, isa: Isa, flags: u32, target: u32, selector: u32) -> Rec {
    Rec {
        info,
        isa,
        flags,
        target,
        selector,
        cfm: false,
    }
}

/// Stores bytes one by one.
fn put(ram: &mut Ram, at: u32, bytes: &[u8]) {
    let mut place = at;
    for byte in bytes {
        let _stored = ram.store(place, Size::One, u32::from(*byte));
        place = place.wrapping_add(1);
    }
}

/// Why no descriptor stands at an address.
fn refusal(ram: &Ram, at: u32) -> Option<BadDesc> {
    match read_desc(ram, at) {
        Ok(_) => None,
        Err(bad) => Some(bad),
    }
}

/// The descriptor with one byte changed is refused so.
fn is_refused(rt: &impl Abort, ram: &mut Ram, at: u32, byte: u8, wanted: BadDesc) {
    put(ram, AT, &FAT);
    put(ram, AT + 52, &[0; 1220]);
    if wanted == BadDesc::Info(BadInfo::Gap) {
        put(ram, AT + 52, &[0, 0, 4, 0x40]);
    }
    put(ram, AT.wrapping_add(at), &[byte]);
    equal(rt, at, refusal(ram, AT), Some(wanted));
}

/// The place of a byte, what it is changed to, and why the descriptor is then refused.
const CHANGES: [(u32, u8, BadDesc); 17] = [
    (0, 0xAB, BadDesc::Magic),
    (2, 6, BadDesc::Version),
    (7, 1, BadDesc::Reserved),
    (8, 1, BadDesc::Reserved),
    (10, 1, BadDesc::Count),
    (11, 64, BadDesc::Count),
    (16, 1, BadDesc::Reserved),
    (27, 1, BadDesc::Reserved),
    (17, 2, BadDesc::Isa),
    (17, 0x11, BadDesc::Isa),
    (19, 2, BadDesc::Flags),
    (19, 0x20, BadDesc::Flags),
    (18, 1, BadDesc::Flags),
    (15, 0x3F, BadDesc::Info(BadInfo::Convention)),
    (35, 0xF1, BadDesc::Mixed),
    (35, 0x30, BadDesc::Mixed),
    (11, 63, BadDesc::Info(BadInfo::Gap)),
];

/// Each change is refused, and so are a descriptor without its header and one without its record.
fn are_refused(rt: &impl Abort, ram: &mut Ram) {
    for (at, byte, wanted) in &CHANGES {
        is_refused(rt, ram, *at, *byte, *wanted);
    }
    let outside = Some(BadDesc::Access);
    equal(rt, "no header", refusal(ram, 131_064), outside);
    put(ram, 131_060, &FAT[..12]);
    equal(rt, "no record", refusal(ram, 131_060), outside);
}

#[test]
fn fields_are_tested_in_their_order(rt: HostRuntime) {
    are_refused(&rt, &mut memory(&rt, rt.alloc()));
}

#[test]
fn refusals_have_their_numbers(rt: HostRuntime) {
    equal(&rt, "access", BadDesc::Access.code(), 1);
    equal(&rt, "twice", BadDesc::Info(BadInfo::Twice).code(), 8);
}

/// The descriptor that stands in memory.
fn described(rt: &impl Abort, ram: &Ram) -> Desc {
    read_desc(ram, AT).ok().expect(rt, "a descriptor")
}

/// A descriptor has so many records.
fn counts(rt: &impl Abort, ram: &Ram, wanted: u32) {
    let desc = described(rt, ram);
    equal(rt, "where it stands", desc.at, AT);
    equal(rt, "how many records", desc.count, wanted);
}

/// The record with this number has the procInfo $31, no selector and these fields, and is of CFM-68K code or not.
fn is_rec(rt: &impl Abort, ram: &Ram, number: usize, isa: Isa, flags: u32, target: u32, cfm: bool) {
    must(rt, number < 64);
    let mut wanted = rec(0x31, isa, flags, target, 0);
    wanted.cfm = cfm;
    equal(rt, "the record", described(rt, ram).recs[number], wanted);
}

/// Stores a descriptor of 64 records.
fn put_records(ram: &mut Ram) {
    put(ram, AT, &FAT[..12]);
    let mut place = AT + 12;
    for _ in 0..64 {
        put(ram, place, &FAT[32..]);
        place = place.wrapping_add(20);
    }
    put(ram, AT + 11, &[63]);
}

#[test]
fn as_many_records_as_a_descriptor_may_have(rt: HostRuntime) {
    let mut ram = memory(&rt, rt.alloc());
    put_records(&mut ram);
    counts(&rt, &ram, 64);
    is_rec(&rt, &ram, 63, Isa::Ppc, 0, 0x1_0060, false);
}

/// Builds a descriptor of two routines or of one.
fn builds(rt: &impl Abort, ram: &mut Ram, m68: Option<u32>, isa: u8, target: u32) {
    let made = build(ram, AT, 0x31, m68, isa, target);
    equal(rt, "building", made, Ok(()));
}

/// Builds descriptors of one routine, of two and of one of CFM-68K code.
fn builds_all(rt: &impl Abort, ram: &mut Ram) {
    builds(rt, ram, None, 1, 0x1_0040);
    counts(rt, ram, 1);
    is_rec(rt, ram, 0, Isa::Ppc, 0, 0x1_0040, false);
    builds(rt, ram, Some(0x1_0058), 1, 0x1_0060);
    counts(rt, ram, 2);
    is_rec(rt, ram, 0, Isa::M68, 0, 0x1_0058, false);
    is_rec(rt, ram, 1, Isa::Ppc, 0, 0x1_0060, false);
    builds(rt, ram, None, 0x10, 0x1_0040);
    counts(rt, ram, 1);
    is_rec(rt, ram, 0, Isa::M68, 0, 0x1_0040, true);
}

/// Where none can be built.
fn builds_nothing(rt: &impl Abort, ram: &mut Ram) {
    let outside = build(ram, 131_064, 0x31, None, 1, 0);
    equal(rt, "outside", outside, Err(Access::Outside(131_064)));
    let gate = build(ram, 0x0FF0, 0x31, None, 1, 0);
    equal(rt, "the gate page", gate, Err(Access::Gate(0x0FF0)));
}

#[test]
fn descriptors_are_built_and_read_back(rt: HostRuntime) {
    let mut ram = memory(&rt, rt.alloc());
    builds_all(&rt, &mut ram);
    builds_nothing(&rt, &mut ram);
}

/// Stores a descriptor whose only record has a relative target.
fn put_relative(ram: &mut Ram) {
    put(ram, AT, &FAT);
    put(ram, AT + 11, &[0]);
    put(ram, AT + 19, &[1]);
    put(ram, AT + 20, &[0, 0, 0, 0x20]);
}

#[test]
fn a_relative_target_is_counted_from_the_descriptor(rt: HostRuntime) {
    let mut ram = memory(&rt, rt.alloc());
    put_relative(&mut ram);
    is_rec(&rt, &ram, 0, Isa::M68, 1, 0x1_0040, false);
}

/// The targets of the records in the choices.
const OLD: u32 = 1;

const NATIVE: u32 = 2;

const NEW: u32 = 3;

const OTHER: u32 = 4;

const CFM: u32 = 5;

const NATIVE_CFM: u32 = 6;

/// A record of CFM-68K code.
fn cfm_rec(flags: u32, target: u32) -> Rec {
    let mut rec = rec(0xB9, Isa::M68, flags, target, 7);
    rec.cfm = true;
    rec
}

/// The record with this target.
fn rec_at(target: u32) -> Rec {
    match target {
        OLD => rec(0xB9, Isa::M68, 0, OLD, 7),
        NATIVE => rec(0xB9, Isa::M68, 4, NATIVE, 7),
        NEW => rec(0xB9, Isa::Ppc, 0, NEW, 7),
        CFM => cfm_rec(0, CFM),
        NATIVE_CFM => cfm_rec(4, NATIVE_CFM),
        _ => rec(0xB9, Isa::M68, 0x10, OTHER, 9),
    }
}

/// The target that is chosen among the two records with these.
fn chosen(first: u32, second: u32, caller: Isa, selector: Option<u32>) -> Option<u32> {
    let mut recs = [Rec::empty(); 64];
    recs[0] = rec_at(first);
    recs[1] = rec_at(second);
    let desc = Desc {
        at: AT,
        count: 2,
        recs,
    };
    choose(&desc, caller, selector).map(|rec| rec.target)
}

/// A caller gets the third of each row among the first two.
fn chooses(rt: &impl Abort, caller: Isa, selector: Option<u32>, rows: &[[u32; 3]]) {
    for [first, second, wanted] in rows {
        let found = chosen(*first, *second, caller, selector);
        equal(rt, *first, found, Some(*wanted));
    }
}

#[test]
fn the_choice_among_records(rt: HostRuntime) {
    chooses(
        &rt,
        Isa::M68,
        None,
        &[
            [OLD, NEW, OLD],
            [NATIVE, NEW, NEW],
            [NEW, NATIVE, NATIVE],
            [NEW, NEW, NEW],
            [NATIVE, OLD, NATIVE],
            [OLD, NATIVE, OLD],
            [NEW, OLD, OLD],
            [CFM, NEW, CFM],
            [NEW, CFM, CFM],
            [CFM, OLD, CFM],
            [OLD, CFM, OLD],
            [NATIVE_CFM, NEW, NEW],
            [NEW, NATIVE_CFM, NATIVE_CFM],
        ],
    );
    chooses(
        &rt,
        Isa::Ppc,
        None,
        &[
            [OLD, NEW, NEW],
            [OLD, NATIVE, OLD],
            [NEW, OLD, NEW],
            [CFM, NEW, NEW],
        ],
    );
}

#[test]
fn the_choice_among_records_with_selectors(rt: HostRuntime) {
    chooses(
        &rt,
        Isa::M68,
        Some(7),
        &[
            [OTHER, NEW, NEW],
            [NATIVE, OTHER, NATIVE],
            [NATIVE, NEW, NEW],
        ],
    );
    chooses(&rt, Isa::M68, Some(9), &[[OTHER, OLD, OTHER]]);
    chooses(
        &rt,
        Isa::Ppc,
        Some(7),
        &[[OTHER, OLD, OLD], [NATIVE, NEW, NEW]],
    );
    chooses(&rt, Isa::Ppc, Some(8), &[[OLD, OTHER, OTHER]]);
    chooses(
        &rt,
        Isa::Ppc,
        Some(9),
        &[[OLD, OTHER, OTHER], [OTHER, NEW, OTHER]],
    );
    let none = chosen(OLD, NEW, Isa::Ppc, Some(8));
    equal(&rt, "no record", none, None);
}
