ghost use Rattle.std.specs.Prelude.{◌≡◌, ◌%◌, ◌^◌, ◌<◌, ◌≤◌, length};

use crate::checks::same;
use crate::equal::must;
use big_memory::{Access, Did, Ram, leave, refuse, stop};
use mix_bits::{Fault, FaultKind, Size};
use std::alloc::Global;
use std::process::Abort;

/// A memory of so many bytes.
fn memory(rt: &impl Abort, alloc: Global, bytes: u32) -> Ram
    requires least { 131072 ≤ bytes }
    requires most { bytes ≤ 16777216 }
    requires whole { bytes % 1024 ≡ 0 }
{
    Ram::new(alloc, bytes).expect(rt, "there is memory for a test")
}

/// The memory ends here.
fn check_len(rt: &impl Abort, ram: &Ram, len: u32)
    ensures { length ram.now.bytes ≡ len }
{
    must(rt, ram.len() == len);
}

/// These bytes stand at `a`.
fn check_bytes(rt: &impl Abort, ram: &Ram, a: u32, wanted: &[u8])
    requires { length wanted.now < 2 ^ 32 }
{
    same(rt, ram.span(a, wanted.len() as u32), Ok(wanted));
}

/// A place and a size, and what a store there answers.
type Store = (u32, Size, Result<(), Access>);

/// Each store of this value is answered so.
fn check_stores(rt: &impl Abort, ram: &mut Ram, value: u32, stores: &[Store]) {
    for (a, size, wanted) in stores {
        same(rt, ram.store(*a, *size, value), *wanted);
    }
}

/// A place, a count of bytes, and what a store of so many answers there.
type Range = (u32, u32, Result<(), Access>);

/// Each range is probed and filled so.
fn check_ranges(rt: &impl Abort, ram: &mut Ram, ranges: &[Range]) {
    for (a, n, wanted) in ranges {
        same(rt, ram.probe(*a, *n), *wanted);
        same(rt, ram.fill(*a, *n), *wanted);
    }
}

#[test]
fn a_guarded_unit_refuses_each_store_that_meets_it(rt: HostRuntime) {
    let mut ram = memory(&rt, rt.alloc(), 0x10_0000);
    guarded(&rt, &mut ram);
    unguarded(&rt, &mut ram);
}

/// Stores that meet the unit from $C0010 to $C0020, or lie beside it.
const STORES_AT_A_GUARD: [Store; 4] = [
    (0xC_000D, Size::Four, Err(Access::Frame(0xC_000D))),
    (0xC_000C, Size::Four, Ok(())),
    (0xC_001F, Size::One, Err(Access::Frame(0xC_001F))),
    (0xC_0020, Size::One, Ok(())),
];

/// This unit of a memory of 1024 KiB is guarded.
fn guarded(rt: &impl Abort, ram: &mut Ram) {
    same(rt, ram.floor(), 0xC_0000);
    check_len(rt, ram, 0x10_0000);
    ram.guard(0xC_0010, 0xC_0020);
    check_stores(rt, ram, 0x1122_3344, &STORES_AT_A_GUARD);
    let refused = Err(Access::Frame(0xC_0000));
    same(rt, ram.fill(0xC_0000, 64), refused);
    same(rt, ram.copy(0x8000, 0xC_0000, 64), refused);
    same(rt, ram.load(0xC_000C, Size::Four), Ok(0x1122_3344));
    same(rt, ram.load(0xC_0020, Size::Two), Ok(0x4400));
}

/// What is fixed passes the guard, and stays as other stores do once the guard is gone.
fn unguarded(rt: &impl Abort, ram: &mut Ram) {
    check_len(rt, ram, 0x10_0000);
    ram.fix(0xC_0010, b"held");
    check_bytes(rt, ram, 0xC_000F, b"\x44held\x00");
    check_len(rt, ram, 0x10_0000);
    ram.unguard(0xC_0010, 0xC_0020);
    same(rt, ram.fill(0xC_0000, 64), Ok(()));
    same(rt, ram.load(0xC_0010, Size::Four), Ok(0));
}

/// Both edges of memory, for each call.
fn ends_at(rt: &impl Abort, ram: &mut Ram, len: u32)
    requires low { 131072 ≤ len }
    requires high { len ≤ 16777216 }
{
    same(rt, ram.len(), len);
    stores_end_at(rt, ram, len);
    spans_end_at(rt, ram, len);
    copies_end_at(rt, ram, len);
    let ranges = [
        (0, len, Err(Access::Gate(0))),
        (0, len + 1, Err(Access::Outside(0))),
        (0x2000, len - 0x2000, Ok(())),
        (len - 2, 3, Err(Access::Outside(len - 2))),
    ];
    check_ranges(rt, ram, &ranges);
}

/// Loads are answered as stores are.
fn stores_end_at(rt: &impl Abort, ram: &mut Ram, len: u32)
    requires low { 131072 ≤ len }
    requires high { len ≤ 16777216 }
{
    let stores = [
        (0, Size::One, Ok(())),
        (len - 1, Size::One, Ok(())),
        (len - 2, Size::Two, Ok(())),
        (len - 4, Size::Four, Ok(())),
        (len, Size::Zero, Ok(())),
        (len, Size::One, Err(Access::Outside(len))),
        (len - 1, Size::Two, Err(Access::Outside(len - 1))),
        (len - 3, Size::Four, Err(Access::Outside(len - 3))),
        (0xFFFF_FFFF, Size::Zero, Ok(())),
        (0xFFFF_FFFF, Size::Two, Err(Access::Outside(0xFFFF_FFFF))),
    ];
    for (a, size, wanted) in &stores {
        same(rt, ram.store(*a, *size, 0x0102_0304), *wanted);
        same(rt, ram.load(*a, *size).is_ok(), wanted.is_ok());
    }
}

/// The last long was stored.
fn spans_end_at(rt: &impl Abort, ram: &Ram, len: u32)
    requires low { 131072 ≤ len }
    requires high { len ≤ 16777216 }
{
    same(rt, ram.load(len - 4, Size::Four), Ok(0x0102_0304));
    check_bytes(rt, ram, len - 2, b"\x03\x04");
    check_bytes(rt, ram, 0xFFFF_FFFF, b"");
    same(
        rt,
        ram.span(len - 2, 3).err(),
        Some(Access::Outside(len - 2)),
    );
}

fn copies_end_at(rt: &impl Abort, ram: &mut Ram, len: u32)
    requires low { 131072 ≤ len }
    requires high { len ≤ 16777216 }
{
    let copies = [
        (len - 2, 0x2000, 2, Ok(())),
        (len - 2, 0x2000, 3, Err(Access::Outside(len - 2))),
        (len - 2, len - 1, 2, Err(Access::Outside(len - 1))),
        (0xFFFF_FFFF, 0x1000, 0, Ok(())),
    ];
    for (from, to, n, wanted) in &copies {
        same(rt, ram.copy(*from, *to, *n), *wanted);
    }
}

#[test]
fn the_smallest_and_the_largest_memory_end_where_they_should(rt: HostRuntime) {
    let mut small = memory(&rt, rt.alloc(), 0x2_0000);
    ends_at(&rt, &mut small, 0x2_0000);
    same(&rt, small.floor(), 0x1_8000);
    drop(small);
    let mut large = memory(&rt, rt.alloc(), 0x100_0000);
    ends_at(&rt, &mut large, 0x100_0000);
    same(&rt, large.floor(), 0xC0_0000);
    ram_whole_guard(&rt, &mut large);
}

/// The whole stack of the largest memory guarded, and freed again but for its last unit.
fn ram_whole_guard(rt: &impl Abort, ram: &mut Ram) {
    check_len(rt, ram, 0x100_0000);
    ram.guard(0xC0_0000, 0x100_0000);
    same(rt, ram.probe(0xBF_FFF0, 17), Err(Access::Frame(0xBF_FFF0)));
    check_len(rt, ram, 0x100_0000);
    ram.unguard(0xC0_0000, 0xFF_FFF0);
    same(rt, ram.probe(0x8000, 0xFF_7FF0), Ok(()));
    same(rt, ram.probe(0x8000, 0xFF_7FF1), Err(Access::Frame(0x8000)));
}

#[test]
fn the_gate_page_refuses_stores_alone(rt: HostRuntime) {
    store_at_gates(&rt, &mut memory(&rt, rt.alloc(), 0x2_0000));
}

/// Ranges that meet the gate page, or lie beside it.
const RANGES_AT_GATES: [Range; 6] = [
    (0xFFF, 1, Ok(())),
    (0xFFF, 2, Err(Access::Gate(0xFFF))),
    (0x1000, 1, Err(Access::Gate(0x1000))),
    (0x1FFF, 1, Err(Access::Gate(0x1FFF))),
    (0x1FFF, 0, Ok(())),
    (0x2000, 1, Ok(())),
];

/// Stores that meet the gate page, or lie beside it.
const STORES_AT_GATES: [Store; 3] = [
    (0xFFD, Size::Four, Err(Access::Gate(0xFFD))),
    (0xFFC, Size::Four, Ok(())),
    (0x1FFF, Size::Two, Err(Access::Gate(0x1FFF))),
];

fn store_at_gates(rt: &impl Abort, ram: &mut Ram) {
    check_ranges(rt, ram, &RANGES_AT_GATES);
    check_reached(rt, ram, &RANGES_AT_GATES);
    check_stores(rt, ram, 1, &STORES_AT_GATES);
    same(rt, ram.load(0xFFE, Size::Four), Ok(0x0001_0000));
}

/// A copy of the gate page into each range is answered so, and each range is read.
fn check_reached(rt: &impl Abort, ram: &mut Ram, ranges: &[Range]) {
    for (a, n, wanted) in ranges {
        same(rt, ram.copy(0x1000, *a, *n), *wanted);
        same(rt, ram.span(*a, *n).is_ok(), true);
    }
}

#[test]
fn a_copy_goes_over_an_overlap_both_ways(rt: HostRuntime) {
    copy_over(&rt, &mut memory(&rt, rt.alloc(), 0x2_0000));
}

/// Six letters are copied up by two places, and down by one.
fn copy_over(rt: &impl Abort, ram: &mut Ram) {
    check_len(rt, ram, 0x2_0000);
    ram.fix(0x4000, b"abcdef");
    same(rt, ram.copy(0x4000, 0x4002, 6), Ok(()));
    check_bytes(rt, ram, 0x4000, b"ababcdef");
    same(rt, ram.copy(0x4002, 0x4001, 6), Ok(()));
    check_bytes(rt, ram, 0x4000, b"aabcdeff");
}

#[test]
fn longs_are_stored_all_or_none(rt: HostRuntime) {
    store_longs(&rt, &mut memory(&rt, rt.alloc(), 0x2_0000));
}

/// A place, longs, and what a store of them answers there.
type Longs = (u32, &'static [u32], Result<(), Access>);

/// Longs that fit, and longs across an edge.
const LONGS: [Longs; 4] = [
    (0x4000, &[0x0102_0304, 0x0506_0708], Ok(())),
    (0xFF8, &[1, 2, 3], Err(Access::Gate(0x1000))),
    (0xFFFF_FFFC, &[1, 2], Err(Access::Outside(0xFFFF_FFFC))),
    (0xFFFF_FFFC, &[], Ok(())),
];

fn store_longs(rt: &impl Abort, ram: &mut Ram) {
    for (a, longs, wanted) in &LONGS {
        same(rt, ram.store_longs(*a, longs), *wanted);
    }
    check_bytes(rt, ram, 0x4000, b"\x01\x02\x03\x04\x05\x06\x07\x08");
    same(rt, ram.load_long(0xFF8), Ok(0));
}

#[test]
fn words_and_bytes_are_stored_cut(rt: HostRuntime) {
    store_cut(&rt, &mut memory(&rt, rt.alloc(), 0x2_0000));
}

/// A long, a word and a byte, one over the other.
fn store_cut(rt: &impl Abort, ram: &mut Ram) {
    same(rt, ram.store_long(0x4000, 0x0102_0304), Ok(()));
    same(rt, ram.store_word(0x4001, 0xAABB_CCDD), Ok(()));
    same(rt, ram.store_byte(0x4004, 0xEEFF), Ok(()));
    same(rt, ram.load_word(0x4000), Ok(0x01CC));
    same(rt, ram.load_byte(0x4004), Ok(0xFF));
    same(rt, ram.store_long(0x1FFF, 1), Err(Access::Gate(0x1FFF)));
}

/// A fault in the cell: what it is, where, and its detail.
fn check_fault(rt: &impl Abort, cell: &Fault, kind: FaultKind, pc: u32, detail: u32) {
    same(rt, (cell.kind, cell.pc, cell.detail), (kind, pc, detail));
}

#[test]
fn what_a_step_answers_stands_in_its_cell(rt: HostRuntime) {
    let mut cell = Fault {
        kind: FaultKind::Odd,
        pc: 0,
        detail: 0,
        also: 9,
    };
    let stopped = stop::<u32>(&mut cell, FaultKind::Illegal, 0x2000, 0x4AFC) == Did::Stop;
    check_fault(&rt, &cell, FaultKind::Illegal, 0x2000, 0x4AFC);
    same(&rt, (stopped, cell.also), (true, 0));
    let refused = refuse::<u32>(&mut cell, 0x2002, Access::Frame(0xC_0000)) == Did::Stop;
    check_fault(&rt, &cell, FaultKind::FrameStore, 0x2002, 0xC_0000);
    let left = leave::<u32>(&mut cell, 0xA9F4) == Did::Leave;
    same(&rt, (refused, left, cell.detail), (true, true, 0xA9F4));
}
