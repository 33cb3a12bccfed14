// An operand and an address register into the register.
ghost use Rattle.std.specs.Prelude.{◌≡◌, ◌<◌};
ghost use Rattle.m68_isa.specs.First.{first_of, long_or_word};
ghost use Rattle.m68_isa.specs.Operands.{operand_at};
ghost use Rattle.big_memory.specs.StepsClauses.{Does};
ghost use Rattle.m68_effects.specs.laws.Tried.{Tries};
ghost use Rattle.m68_ea.specs.Words.{words_at};
ghost use Rattle.m68_effects.specs.laws.Operations.{runs_with};
ghost use Rattle.m68_effects.specs.laws.Ops.{by_op};
ghost use Rattle.m68_arithmetic.specs.inner.Parts.{into_address as into_address_of};

use super::ways::{Way, away};
use big_memory::{Did, Ram};
use m68_ea::{immediate_at, source, usual_source};
use m68_effects::go_on;
use m68_isa::{Op68, Regs68, bit8_of, immediate_words, lower_of, mode_of, upper_of};
use mix_bits::{Fault, Size, sext, trunc};

/// adda: an address register goes onward by an operand.
#[inline(never)]
pub fn do_adda(regs: &mut Regs68, ram: &Ram, fault: &mut Fault, word: u32) -> Did
    ensures { Does (by_op Op68.Adda regs.old ram.now word) result fault.new regs.old regs.new ram.now ram.now }
{
    adda_or_suba(regs, ram, fault, word, Way::Onward)
}

/// suba: an address register goes backward by an operand.
#[inline(never)]
pub fn do_suba(regs: &mut Regs68, ram: &Ram, fault: &mut Fault, word: u32) -> Did
    ensures { Does (by_op Op68.Suba regs.old ram.now word) result fault.new regs.old regs.new ram.now ram.now }
{
    adda_or_suba(regs, ram, fault, word, Way::Backward)
}

/// An address register goes one way by an operand of the size in bit 8. A register, and memory of a usual mode, are
/// tried first.
#[inline(always)]
fn adda_or_suba(regs: &mut Regs68, ram: &Ram, fault: &mut Fault, word: u32, way: Way) -> Did
    ensures { let f = first_of word in
        let size = long_or_word f.bit8 in
        let from = operand_at (words_at ram.now regs.old.pc) 1 size f.mode f.lower in
        Does (runs_with regs.old word from (λ next. into_address_of way regs.old ram.now next size from.ea f.upper)) result fault.new regs.old regs.new ram.now ram.now }
{
    if mode_of(word) > 5 {
        by_other(regs, ram, fault, word, way)
    } else if by_usual(regs, ram, word, way) {
        Did::Next
    } else {
        by_operand(regs, ram, fault, word, way)
    }
}

/// Tries to let an address register go one way by a register, or by memory of a usual mode.
#[inline(always)]
fn by_usual(regs: &mut Regs68, ram: &Ram, word: u32, way: Way) -> bool
    ensures { let f = first_of word in
        let size = long_or_word f.bit8 in
        let from = operand_at (words_at ram.now regs.old.pc) 1 size f.mode f.lower in
        Tries (runs_with regs.old word from (λ next. into_address_of way regs.old ram.now next size from.ea f.upper)) result regs.old regs.new ram.now ram.now }
{
    if bit8_of(word) == 0 {
        by_usual_sized(regs, ram, word, Size::Two, way)
    } else {
        by_usual_sized(regs, ram, word, Size::Four, way)
    }
}

/// The same of this size.
#[inline(always)]
fn by_usual_sized(regs: &mut Regs68, ram: &Ram, word: u32, size: Size, way: Way) -> bool
    ensures { let f = first_of word in
        let from = operand_at (words_at ram.now regs.old.pc) 1 size f.mode f.lower in
        Tries (runs_with regs.old word from (λ next. into_address_of way regs.old ram.now next size from.ea f.upper)) result regs.old regs.new ram.now ram.now }
{
    let upper = upper_of(word);
    let mut next = 1;
    let Some(value) = usual_source(regs, ram, &mut next, size, mode_of(word), lower_of(word)) else {
        return false;
    };
    regs.a[upper] = away(way, regs.a[upper], sext(value, size));
    go_on(regs, next);
    true
}

/// An address register goes one way by an operand of mode 6 or 7, most often an immediate one.
#[inline(never)]
fn by_other(regs: &mut Regs68, ram: &Ram, fault: &mut Fault, word: u32, way: Way) -> Did
    ensures { let f = first_of word in
        let size = long_or_word f.bit8 in
        let from = operand_at (words_at ram.now regs.old.pc) 1 size f.mode f.lower in
        Does (runs_with regs.old word from (λ next. into_address_of way regs.old ram.now next size from.ea f.upper)) result fault.new regs.old regs.new ram.now ram.now }
{
    if mode_of(word) == 7 && lower_of(word) == 4 {
        by_number(regs, ram, fault, word, way)
    } else {
        by_operand(regs, ram, fault, word, way)
    }
}

/// An address register goes one way by an immediate number of the size in bit 8.
#[inline(always)]
fn by_number(regs: &mut Regs68, ram: &Ram, fault: &mut Fault, word: u32, way: Way) -> Did
    requires mode { (first_of word).mode ≡ 7 }
    requires register { (first_of word).lower ≡ 4 }
    ensures { let f = first_of word in
        let size = long_or_word f.bit8 in
        let from = operand_at (words_at ram.now regs.old.pc) 1 size f.mode f.lower in
        Does (runs_with regs.old word from (λ next. into_address_of way regs.old ram.now next size from.ea f.upper)) result fault.new regs.old regs.new ram.now ram.now }
{
    if bit8_of(word) == 0 {
        by_number_sized(regs, ram, fault, word, Size::Two, way)
    } else {
        by_number_sized(regs, ram, fault, word, Size::Four, way)
    }
}

/// The same of this size.
#[inline(always)]
fn by_number_sized(
    regs: &mut Regs68,
    ram: &Ram,
    fault: &mut Fault,
    word: u32,
    size: Size,
    way: Way,
) -> Did
    requires mode { (first_of word).mode ≡ 7 }
    requires register { (first_of word).lower ≡ 4 }
    ensures { let f = first_of word in
        let from = operand_at (words_at ram.now regs.old.pc) 1 size f.mode f.lower in
        Does (runs_with regs.old word from (λ next. into_address_of way regs.old ram.now next size from.ea f.upper)) result fault.new regs.old regs.new ram.now ram.now }
{
    let upper = upper_of(word);
    let number = trunc(immediate_at(ram, regs.pc, 1, size), size);
    regs.a[upper] = away(way, regs.a[upper], sext(number, size));
    go_on(regs, 1 + immediate_words(size))
}

/// An address register goes one way by any operand of the size in bit 8.
#[inline(never)]
fn by_operand(regs: &mut Regs68, ram: &Ram, fault: &mut Fault, word: u32, way: Way) -> Did
    ensures { let f = first_of word in
        let size = long_or_word f.bit8 in
        let from = operand_at (words_at ram.now regs.old.pc) 1 size f.mode f.lower in
        Does (runs_with regs.old word from (λ next. into_address_of way regs.old ram.now next size from.ea f.upper)) result fault.new regs.old regs.new ram.now ram.now }
{
    if bit8_of(word) == 0 {
        into_address(regs, ram, fault, word, Size::Two, way)
    } else {
        into_address(regs, ram, fault, word, Size::Four, way)
    }
}

/// An address register goes one way by an operand of this size.
#[inline(always)]
fn into_address(
    regs: &mut Regs68,
    ram: &Ram,
    fault: &mut Fault,
    word: u32,
    size: Size,
    way: Way,
) -> Did
    ensures { let f = first_of word in
        let from = operand_at (words_at ram.now regs.old.pc) 1 size f.mode f.lower in
        Does (runs_with regs.old word from (λ next. into_address_of way regs.old ram.now next size from.ea f.upper)) result fault.new regs.old regs.new ram.now ram.now }
{
    let (mode, lower, upper) = (mode_of(word), lower_of(word), upper_of(word));
    let mut next = 1;
    let Some(value) = source(regs, ram, fault, word, &mut next, size, mode, lower) else {
        return Did::Stop;
    };
    regs.a[upper] = away(way, regs.a[upper], sext(value, size));
    go_on(regs, next)
}
