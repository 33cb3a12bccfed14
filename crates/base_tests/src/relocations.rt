ghost use Rattle.std.specs.Prelude.{◌≡◌, ◌≤◌, length};

use crate::equal::{equal, must};
use End::{Leaves, Refused, Stops};
use big_memory::{Access, Ram};
use mix_bits::Size;
use pef_reloc::{RelocError, relocate};
use std::alloc::Global;
use std::process::Abort;

/// Where section 0 stands.
const C: u32 = 0x1_0000;

/// Where section 1 stands, which is relocated.
const D: u32 = 0x1_0100;

const IMPORTS: [u32; 3] = [0x1448, 0x1450, 0x1458];

/// What fails where a test has no memory.
const MEMORY: &str = "there is memory for a test";

/// Words, and how often they are run.
type Piece = (u32, &'static [u16]);

/// Section 1 before it is relocated: its size, its first bytes, and what is run before the words of each row.
#[derive(Clone, Copy)]
struct Start {
    total: u32,
    bytes: &'static [u8],
    front: &'static [Piece],
}

/// A section of eight longs 0.
const ZEROS: Start = Start {
    total: 32,
    bytes: b"",
    front: &[],
};

/// How a run ends.
#[derive(Clone, Copy)]
enum End {
    /// It leaves these longs, and behind them 0.
    Leaves(&'static [u32]),
    Refused(RelocError),
    /// It is refused, and leaves these longs, and behind them 0.
    Stops(RelocError, &'static [u32]),
}

/// What a run answers, and the eight longs from the beginning of section 1 on.
type Outcome = (Result<(), RelocError>, [u32; 8]);

/// The outcome that is wanted. Where no longs are, these are.
fn outcome(end: End, longs: [u32; 8]) -> Outcome {
    match end {
        Leaves(left) => (Ok(()), and_zeros(left)),
        Refused(error) => (Err(error), longs),
        Stops(error, left) => (Err(error), and_zeros(left)),
    }
}

/// These longs, and behind them 0.
fn and_zeros(longs: &[u32]) -> [u32; 8] {
    let mut all = [0; 8];
    for (to, long) in all.iter_mut().zip(longs) {
        *to = *long;
    }
    all
}

/// The longs of section 1.
fn longs_of(ram: &Ram) -> [u32; 8] {
    let mut longs = [0; 8];
    for (k, long) in longs.iter_mut().enumerate() {
        *long = ram
            .load(D + 4 * k as u32, Size::Four)
            .unwrap_or(0xEEEE_EEEE);
    }
    longs
}

/// Puts words behind others.
fn put(rt: &impl Abort, all: &mut Vec<u8>, words: &[u16]) {
    for word in words {
        all.extend_from_slice(&word.to_be_bytes())
            .expect(rt, MEMORY);
    }
}

/// All words of a run.
fn all_words(rt: &impl Abort, alloc: Global, front: &[Piece], words: &[u16]) -> Vec<u8> {
    let mut all = Vec::new(alloc);
    for (times, piece) in front {
        for _ in 0..*times {
            put(rt, &mut all, piece);
        }
    }
    put(rt, &mut all, words);
    all
}

fn memory(rt: &impl Abort, alloc: Global) -> Ram {
    Ram::new(alloc, 0x2_0000).expect(rt, MEMORY)
}

/// The memory has 131072 bytes.
fn check_len(rt: &impl Abort, ram: &Ram)
    ensures { length ram.now.bytes ≡ 131072 }
{
    must(rt, ram.len() == 0x2_0000);
}

/// Relocates section 1.
fn run(rt: &impl Abort, ram: &mut Ram, start: Start, words: &[u8]) -> Result<(), RelocError> {
    must(rt, start.total <= 32 && start.bytes.len() <= 32);
    must(rt, words.len() <= 0x100_0000 && words.len() % 2 == 0);
    check_len(rt, ram);
    ram.fix(D, start.bytes);
    check_len(rt, ram);
    relocate(ram, 1, words, &[C, D], &[16, start.total], &IMPORTS)
}

/// What comes of words in a memory of their own.
fn relocated(rt: &impl Abort, alloc: Global, start: Start, words: &[u16]) -> Outcome {
    let all = all_words(rt, alloc, start.front, words);
    let mut ram = memory(rt, alloc);
    let answer = run(rt, &mut ram, start, &all);
    (answer, longs_of(&ram))
}

/// Words, and how their run ends.
type Row = (&'static [u16], End);

/// The run of each row ends so.
fn check(rt: &impl Abort, alloc: Global, start: Start, rows: &[Row]) {
    for (words, end) in rows {
        let found = relocated(rt, alloc, start, words);
        let wanted = outcome(*end, found.1);
        equal(rt, "relocations", (*words, found), (*words, wanted));
    }
}

static EFFECTS: &[Row] = &[
    // BySectDWithSkip: over one long, then D twice
    (&[0x0042], Leaves(&[0, D, D])),
    // BySectC, BySectD
    (&[0x4001, 0x4200], Leaves(&[C, C, D])),
    // TVector12, TVector8
    (&[0x4401, 0x4000], Leaves(&[C, D, 0, C, D, 0, C])),
    (&[0x4601, 0x4000], Leaves(&[C, D, C, D, C])),
    // VTable8
    (&[0x4801, 0x4000], Leaves(&[D, 0, D, 0, C])),
    // ImportRun, twice two imports: the index goes on
    (&[0x4A00, 0x4A01], Leaves(&[0x1448, 0x1450, 0x1458])),
    // SmByImport 1, and the import behind it
    (&[0x6001, 0x4A00], Leaves(&[0x1450, 0x1458])),
    // SmSetSectC 1, SmSetSectD 0, SmBySection
    (&[0x6201, 0x4000], Leaves(&[D])),
    (&[0x6400, 0x4200], Leaves(&[C])),
    (&[0x6600, 0x6601], Leaves(&[C, D])),
    // IncrPosition 8
    (&[0x8007, 0x4000], Leaves(&[0, 0, C])),
    // SmRepeat: one word two further times, two words one further time
    (&[0x4200, 0x9001], Leaves(&[D, D, D])),
    (&[0x4000, 0x4200, 0x9100], Leaves(&[C, D, C, D])),
    // SetPosition 8, and back
    (
        &[0xA000, 0x0008, 0x4000, 0xA000, 0x0000, 0x4200],
        Leaves(&[D, 0, C]),
    ),
    // LgByImport 1, and the import behind it
    (&[0xA400, 0x0001, 0x4A00], Leaves(&[0x1450, 0x1458])),
    // LgSetOrBySection: add it, C, D
    (&[0xB400, 0x0001], Leaves(&[D])),
    (&[0xB440, 0x0001, 0x4000], Leaves(&[D])),
    (&[0xB480, 0x0000, 0x4200], Leaves(&[C])),
];

#[test]
fn each_row_has_its_effect(rt: HostRuntime) {
    check(&rt, rt.alloc(), ZEROS, EFFECTS);
}

static LARGE: &[Row] = &[
    (
        &[0xA3FF, 0xFFFE, 0x4000],
        Refused(RelocError::OutsideSection(0x3FF_FFFE)),
    ),
    (
        &[0xA600, 0x0001],
        Refused(RelocError::ImportIndex(0x200_0001)),
    ),
    (
        &[0xB43F, 0xFFFF],
        Refused(RelocError::SectionIndex(0x3F_FFFF)),
    ),
];

#[test]
fn large_numbers_have_their_high_bits_in_the_first_word(rt: HostRuntime) {
    check(&rt, rt.alloc(), ZEROS, LARGE);
}

static BOUNDS: &[Row] = &[
    (
        &[0xA000, 28, 0x4000],
        Leaves(&[0, 0, 0, 0, 0, 0, 0, 0x1_0000]),
    ),
    // a long across two others: the high half of C goes into the first
    (&[0x8001, 0x4000], Leaves(&[1])),
    (
        &[0xA000, 29, 0x4000],
        Refused(RelocError::OutsideSection(29)),
    ),
    (&[0x0908], Refused(RelocError::OutsideSection(144))),
    // nine longs
    (
        &[0x4008],
        Stops(RelocError::OutsideSection(32), &[0x1_0000; 8]),
    ),
];

#[test]
fn an_addition_stays_in_its_section(rt: HostRuntime) {
    check(&rt, rt.alloc(), ZEROS, BOUNDS);
}

/// 4096 bytes, 1048576 times: 4080 times 257, and 16.
const ROUND: Start = Start {
    total: 32,
    bytes: b"",
    front: &[(4080, &[0x8FFF, 0x90FF]), (1, &[0x8FFF, 0x900E])],
};

#[test]
fn a_position_is_tested_before_it_is_cut_to_32_bits(rt: HostRuntime) {
    let refused = Refused(RelocError::OutsideSection(0));
    check(&rt, rt.alloc(), ROUND, &[(&[0x4000], refused)]);
}

static MISSING: &[Row] = &[
    (
        &[0x6003, 0x0000, 0x0000],
        Refused(RelocError::ImportIndex(3)),
    ),
    (
        &[0x4A03, 0x0000, 0x0000],
        Refused(RelocError::ImportIndex(3)),
    ),
    (
        &[0x6602, 0x0000, 0x0000],
        Refused(RelocError::SectionIndex(2)),
    ),
    (
        &[0x6202, 0x0000, 0x0000],
        Refused(RelocError::SectionIndex(2)),
    ),
    (
        &[0x6403, 0x0000, 0x0000],
        Refused(RelocError::SectionIndex(3)),
    ),
    (
        &[0xB440, 0x0005, 0x0000],
        Refused(RelocError::SectionIndex(5)),
    ),
    (
        &[0xA000, 0x0020, 0x6009],
        Refused(RelocError::OutsideSection(32)),
    ),
    (
        &[0xA000, 0x0020, 0x6609],
        Refused(RelocError::OutsideSection(32)),
    ),
    (
        &[0xA000, 0x0020, 0x6209],
        Refused(RelocError::SectionIndex(9)),
    ),
    (&[0x0000, 0x4000, 0xA400], Refused(RelocError::Short(4))),
    (
        &[0xB000, 0x0000, 0x0000],
        Refused(RelocError::Unsupported(0xB000)),
    ),
    (
        &[0x0000, 0x0000, 0xB000],
        Refused(RelocError::Unsupported(0xB000)),
    ),
    (
        &[0x4C00, 0x0000, 0x0000],
        Refused(RelocError::Unsupported(0x4C00)),
    ),
    (
        &[0x0000, 0x0000, 0xB4C0],
        Refused(RelocError::Unsupported(0xB4C0)),
    ),
    (&[0xA000], Refused(RelocError::Short(0))),
];

#[test]
fn what_is_missing_is_refused_behind_the_position(rt: HostRuntime) {
    check(&rt, rt.alloc(), ZEROS, MISSING);
}

static REPEATS: &[Row] = &[
    (&[0x9001], Refused(RelocError::RepeatFront(0))),
    (&[0x4200, 0x9101], Refused(RelocError::RepeatFront(2))),
    // a repeat in the span
    (
        &[0x4000, 0x9000, 0x9100],
        Refused(RelocError::RepeatFront(4)),
    ),
    // the span ends within SetPosition
    (
        &[0xA000, 0xA000, 0x9000],
        Refused(RelocError::RepeatFront(4)),
    ),
    // the span is the second word of SetPosition, which is no instruction
    (
        &[0xA000, 0xB000, 0x9000],
        Refused(RelocError::Unsupported(0xB000)),
    ),
    // the span is the second word of SetPosition, which adds D at 1
    (&[0xA000, 0x0001, 0x9000], Leaves(&[0x0000_0101])),
    // the span is SetPosition as a whole
    (&[0x4200, 0xA000, 0x0000, 0x9203], Leaves(&[0x5_0500])),
    // the longest span
    (
        &[0, 0, 0, 0, 0, 0, 0, 0, 0, 0, 0, 0, 0, 0, 0, 0x4200, 0x9F00],
        Leaves(&[0x1_0100, 0x1_0100]),
    ),
];

#[test]
fn a_repeat_goes_back_over_whole_instructions(rt: HostRuntime) {
    check(&rt, rt.alloc(), ZEROS, REPEATS);
}

/// SetPosition 0 and a repeat that runs it 256 further times: 258 instructions.
const GROUP: &[u16] = &[0xA000, 0x0000, 0x91FF];

/// A section of four bytes, and so many instructions.
const BELOW: Start = Start {
    total: 4,
    bytes: b"",
    front: &[(65027, GROUP)],
};

const ABOVE: Start = Start {
    total: 4,
    bytes: b"",
    front: &[(65028, GROUP)],
};

#[test]
fn as_many_instructions_are_run_as_the_limit_allows(rt: HostRuntime) {
    check(&rt, rt.alloc(), BELOW, &[(&[], Leaves(&[]))]);
}

#[test]
fn no_more_instructions_are_run_than_the_limit_allows(rt: HostRuntime) {
    check(
        &rt,
        rt.alloc(),
        ABOVE,
        &[(&[], Stops(RelocError::Work, &[]))],
    );
}

/// As many instructions as may be run: behind those groups one that adds nothing, and a repeat that runs it 248
/// further times, which are 250 instructions. They leave the position at 0.
const LIMIT: Start = Start {
    total: 4,
    bytes: b"",
    front: &[(65027, GROUP), (1, &[0x0000, 0x90F7])],
};

/// The same, but they leave the position behind the section.
const LIMIT_BEHIND: Start = Start {
    total: 4,
    bytes: b"",
    front: &[(65027, GROUP), (1, &[0x8003, 0x90F7])],
};

static LATE: &[Row] = &[
    (&[], Leaves(&[])),
    (&[0x4000], Refused(RelocError::Work)),
    (&[0x0000], Refused(RelocError::Work)),
    (&[0x6602], Refused(RelocError::SectionIndex(2))),
    (&[0x6003], Refused(RelocError::ImportIndex(3))),
    (&[0x9F00], Refused(RelocError::RepeatFront(390_166))),
    (&[0xA000], Refused(RelocError::Short(390_166))),
    (&[0xB000], Refused(RelocError::Unsupported(0xB000))),
];

#[test]
fn the_limit_is_tested_last(rt: HostRuntime) {
    check(&rt, rt.alloc(), LIMIT, LATE);
    let refused = Refused(RelocError::OutsideSection(996));
    check(&rt, rt.alloc(), LIMIT_BEHIND, &[(&[0x4000], refused)]);
}

const THREE: Start = Start {
    total: 12,
    bytes: &[0, 0, 0, 1, 0, 0, 0, 2, 0, 0, 0, 3],
    front: &[],
};

#[test]
fn examples_by_hand(rt: HostRuntime) {
    let left = Leaves(&[0x1_0101, 0x1_0102, 0x1_0103]);
    check(&rt, rt.alloc(), THREE, &[(&[0x4200, 0x9001], left)]);
}

const ONES: Start = Start {
    total: 4,
    bytes: &[0xFF; 4],
    front: &[],
};

#[test]
fn a_sum_is_cut_to_32_bits(rt: HostRuntime) {
    let left = Leaves(&[0x1_00FF]);
    check(&rt, rt.alloc(), ONES, &[(&[0x4200], left)]);
}

#[test]
fn a_guard_and_the_gate_page_are_passed(rt: HostRuntime) {
    let mut ram = memory(&rt, rt.alloc());
    pass_the_gate_page(&rt, &mut ram);
    pass_a_guard(&rt, &mut ram);
}

fn pass_the_gate_page(rt: &impl Abort, ram: &mut Ram) {
    check_len(rt, ram);
    let answer = relocate(ram, 0, &[0x40, 0x00], &[0x1000], &[4], &[]);
    equal(rt, "the gate page", answer, Ok(()));
    check_long(rt, ram, 0x1000, 0x1000);
    check_long(rt, ram, 0x1004, 0);
}

/// Section D is missing, and counts as 0.
fn pass_a_guard(rt: &impl Abort, ram: &mut Ram) {
    check_len(rt, ram);
    ram.guard(0x1_8000, 0x1_8010);
    check_len(rt, ram);
    let answer = relocate(ram, 0, &[0x46, 0x00], &[0x1_8000], &[8], &[]);
    equal(rt, "a guard", answer, Ok(()));
    check_long(rt, ram, 0x1_8000, 0x1_8000);
    check_long(rt, ram, 0x1_8004, 0);
    let guarded = Err(Access::Frame(0x1_8000));
    equal(rt, "the guard", ram.probe(0x1_8000, 1), guarded);
}

fn check_long(rt: &impl Abort, ram: &Ram, a: u32, wanted: u32) {
    equal(rt, a, ram.load(a, Size::Four), Ok(wanted));
}

#[test]
fn an_empty_section_may_stand_anywhere(rt: HostRuntime) {
    let mut ram = memory(&rt, rt.alloc());
    pass_nowhere(&rt, &mut ram);
}

/// A section of no bytes, far behind the memory.
fn pass_nowhere(rt: &impl Abort, ram: &mut Ram) {
    let bases = [0xFFFF_FFF0];
    let answer = relocate(ram, 0, &[], &bases, &[0], &[]);
    equal(rt, "no words", answer, Ok(()));
    let answer = relocate(ram, 0, &[0x40, 0x00], &bases, &[0], &[]);
    let refused = Err(RelocError::OutsideSection(0));
    equal(rt, "an addition", answer, refused);
}
