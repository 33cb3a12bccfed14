use crate::arguments::signature;
use crate::equal::equal;
use mix_bits::Size;
use proc_info::{BadInfo, Conv, Param, Sig, read, write};
use std::process::Abort;

/// Each word is refused so.
fn are_refused(rt: &impl Abort, rows: &[(u32, BadInfo)]) {
    for (w, wanted) in rows {
        equal(rt, *w, read(*w).err(), Some(*wanted));
    }
}

/// Words that break rules, and the first that each breaks.
const REFUSED: [(u32, BadInfo); 11] = [
    (0xF, BadInfo::Convention),
    (0x8000_0002, BadInfo::TopBit),
    (0x3E2, BadInfo::Place),
    (0x440, BadInfo::Gap),
    (0xC000_0001, BadInfo::Gap),
    (0x13_9802, BadInfo::Twice),
    (0x8000_03FF, BadInfo::Convention),
    (0x8000_03E2, BadInfo::TopBit),
    (0x42, BadInfo::Place),
    (0x118, BadInfo::Gap),
    (0x2002, BadInfo::Gap),
];

#[test]
fn a_word_is_refused_by_the_first_rule_that_it_breaks(rt: HostRuntime) {
    are_refused(&rt, &REFUSED);
}

/// Refusals by convention, top bit, place, gap, and for a register that is there twice.
const NUMBERS: [(BadInfo, u32); 5] = [
    (BadInfo::Convention, 1),
    (BadInfo::TopBit, 2),
    (BadInfo::Place, 3),
    (BadInfo::Gap, 4),
    (BadInfo::Twice, 5),
];

#[test]
fn a_refusal_has_its_number(rt: HostRuntime) {
    for (bad, number) in &NUMBERS {
        equal(&rt, *number, bad.code(), *number);
    }
}

/// The signature that a word spells, which spells it again.
fn both_ways(rt: &impl Abort, w: u32) -> Sig {
    let sig = signature(rt, w);
    equal(rt, "the word", write(&sig), w);
    sig
}

/// A signature has this convention and these parameters.
fn has(rt: &impl Abort, sig: &Sig, conv: Conv, params: &[Param]) {
    equal(rt, "the convention", sig.conv, conv);
    equal(rt, "the parameters", sig.params(), params);
}

/// A word, its convention, the sizes of its result and of its selector, and its parameters.
type Spelled = (u32, Conv, Size, Size, &'static [Param]);

/// The word spells this, and this the word.
fn spells(rt: &impl Abort, row: &Spelled) {
    let (w, conv, result_size, selector, params) = *row;
    let sig = both_ways(rt, w);
    has(rt, &sig, conv, params);
    equal(rt, "the result", sig.result, result_size);
    equal(rt, "the selector", sig.selector, selector);
}

const TWO: [Param; 2] = [
    Param {
        size: Size::Two,
        reg: 0,
    },
    Param {
        size: Size::Four,
        reg: 0,
    },
];

const THIRTEEN: [Param; 13] = [Param {
    size: Size::One,
    reg: 0,
}; 13];

const TWELVE: [Param; 12] = [Param {
    size: Size::One,
    reg: 0,
}; 12];

/// A word of each convention but the registers', nearly all with as many parameters as it may have.
const SPELLED: [Spelled; 7] = [
    (0x3B0, Conv::Pascal, Size::Four, Size::Zero, &TWO),
    (0x5555_5570, Conv::Pascal, Size::Four, Size::Zero, &THIRTEEN),
    (0x5555_5541, Conv::C, Size::Zero, Size::Zero, &THIRTEEN),
    (0x5555_5558, Conv::D0Pascal, Size::One, Size::One, &TWELVE),
    (0x5555_5589, Conv::D0C, Size::Zero, Size::Two, &TWELVE),
    (0x5555_55EC, Conv::D1Pascal, Size::Two, Size::Four, &TWELVE),
    (
        0x5555_55FE,
        Conv::StackPascal,
        Size::Four,
        Size::Four,
        &TWELVE,
    ),
];

#[test]
fn every_convention_has_its_largest_number_of_parameters(rt: HostRuntime) {
    for row in &SPELLED {
        spells(&rt, row);
    }
}

/// D0 and D1 with four bytes, A0 with four, A3 with one.
const REGISTERS: [Param; 4] = [
    Param {
        size: Size::Four,
        reg: 0,
    },
    Param {
        size: Size::Four,
        reg: 1,
    },
    Param {
        size: Size::Four,
        reg: 4,
    },
    Param {
        size: Size::One,
        reg: 7,
    },
];

#[test]
fn registers_have_their_codes(rt: HostRuntime) {
    // The result is in A0.
    let sig = both_ways(&rt, 0x7667_1932);
    has(&rt, &sig, Conv::Register, &REGISTERS);
    equal(&rt, "the place", sig.place, 4);
}
