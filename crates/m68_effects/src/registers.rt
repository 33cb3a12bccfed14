// Data registers that an operation with an operand changes.
ghost use Rattle.std.specs.Prelude.{◌≡◌, ◌≢◌, ◌≤◌};
ghost use Rattle.mix_bits.specs.declared.size.Size.TheVariants.{Zero};
ghost use Rattle.m68_isa.specs.First.{first_of};
ghost use Rattle.m68_isa.specs.Operands.{operand_at};
ghost use Rattle.big_memory.specs.StepsClauses.{Does};
ghost use Rattle.m68_ea.specs.FindsClauses.{IsAt};
ghost use Rattle.m68_effects.specs.laws.Tried.{Tries};
ghost use Rattle.m68_ea.specs.Words.{words_at};
ghost use Rattle.m68_effects.specs.Operations.{taken_at, taken_by};

use super::operation::{Operation, apply};
use crate::go_on;
use big_memory::{Did, Ram};
use m68_ea::{data_address, immediate_at, load, source, usual_source};
use m68_isa::{Regs68, immediate_words, is_long, lower_of, mode_of, size_bits_of, upper_of};
use mix_bits::{Fault, Size, trunc, with_low};

/// Changes the data register of bits 11 to 9 by an operation with another data register, of the size in bits 7
/// and 6.
#[inline(always)]
pub fn take_register(
    regs: &mut Regs68,
    ram: &Ram,
    fault: &mut Fault,
    word: u32,
    op: Operation,
) -> Did
    requires { (first_of word).mode ≡ 0 }
    ensures { Does (taken_by op word regs.old ram.now) result fault.new regs.old regs.new ram.now ram.now }
{
    if is_long(word) {
        return take_low(regs, ram, fault, word, Size::Four, op);
    }
    match size_bits_of(word) {
        0 => take_low(regs, ram, fault, word, Size::One, op),
        _ => take_low(regs, ram, fault, word, Size::Two, op),
    }
}

/// The same of this size.
#[inline(always)]
fn take_low(
    regs: &mut Regs68,
    ram: &Ram,
    fault: &mut Fault,
    word: u32,
    size: Size,
    op: Operation,
) -> Did
    requires some { size ≢ Zero }
    requires register { (first_of word).mode ≡ 0 }
    ensures { Does (taken_at size op word regs.old ram.now) result fault.new regs.old regs.new ram.now ram.now }
{
    let (lower, upper) = (lower_of(word), upper_of(word));
    let out = apply(
        op,
        size,
        regs.d[upper],
        trunc(regs.d[lower], size),
        regs.ccr,
    );
    regs.d[upper] = with_low(regs.d[upper], out.value, size);
    regs.ccr = out.ccr;
    go_on(regs, 1)
}

/// Changes the data register of bits 11 to 9 by an operation with an operand of the size in bits 7 and 6:
/// an address register and memory of a usual mode are tried first.
#[inline(always)]
pub fn take_operand(
    regs: &mut Regs68,
    ram: &Ram,
    fault: &mut Fault,
    word: u32,
    op: Operation,
) -> Did
    ensures { Does (taken_by op word regs.old ram.now) result fault.new regs.old regs.new ram.now ram.now }
{
    if mode_of(word) > 5 {
        take_elsewhere(regs, ram, fault, word, op)
    } else if take_usual(regs, ram, word, op) {
        Did::Next
    } else {
        take_other(regs, ram, fault, word, op)
    }
}

/// The same of an operand of mode 6 or 7, by a body for each operation.
#[inline(always)]
fn take_elsewhere(regs: &mut Regs68, ram: &Ram, fault: &mut Fault, word: u32, op: Operation) -> Did
    ensures { Does (taken_by op word regs.old ram.now) result fault.new regs.old regs.new ram.now ram.now }
{
    match op {
        Operation::Add => add_elsewhere(regs, ram, fault, word),
        Operation::Sub => sub_elsewhere(regs, ram, fault, word),
        Operation::And => and_elsewhere(regs, ram, fault, word),
        _ => take_other(regs, ram, fault, word, op),
    }
}

/// The sum with an operand of mode 6 or 7.
#[inline(never)]
fn add_elsewhere(regs: &mut Regs68, ram: &Ram, fault: &mut Fault, word: u32) -> Did
    ensures { Does (taken_by Operation.Add word regs.old ram.now) result fault.new regs.old regs.new ram.now ram.now }
{
    take_far(regs, ram, fault, word, Operation::Add)
}

/// The difference from an operand of mode 6 or 7.
#[inline(never)]
fn sub_elsewhere(regs: &mut Regs68, ram: &Ram, fault: &mut Fault, word: u32) -> Did
    ensures { Does (taken_by Operation.Sub word regs.old ram.now) result fault.new regs.old regs.new ram.now ram.now }
{
    take_far(regs, ram, fault, word, Operation::Sub)
}

/// The bits that are also an operand's of mode 6 or 7.
#[inline(never)]
fn and_elsewhere(regs: &mut Regs68, ram: &Ram, fault: &mut Fault, word: u32) -> Did
    ensures { Does (taken_by Operation.And word regs.old ram.now) result fault.new regs.old regs.new ram.now ram.now }
{
    take_far(regs, ram, fault, word, Operation::And)
}

/// The same by one operation. An address is found before the size is matched, since it doesn't depend on it.
#[inline(always)]
fn take_far(regs: &mut Regs68, ram: &Ram, fault: &mut Fault, word: u32, op: Operation) -> Did
    ensures { Does (taken_by op word regs.old ram.now) result fault.new regs.old regs.new ram.now ram.now }
{
    let (mode, lower) = (mode_of(word), lower_of(word));
    if mode == 7 && lower == 4 {
        return take_data(regs, ram, fault, word, op);
    }
    if mode != 6 && (mode != 7 || lower > 3) {
        return take_other(regs, ram, fault, word, op);
    }
    let mut next = 1;
    let Some(at) = data_address(regs, ram, fault, word, &mut next, mode, lower) else {
        return Did::Stop;
    };
    match size_bits_of(word) {
        0 => take_at(regs, ram, fault, word, Size::One, op, at, next),
        1 => take_at(regs, ram, fault, word, Size::Two, op, at, next),
        _ => take_at(regs, ram, fault, word, Size::Four, op, at, next),
    }
}

/// Takes an operand of this size in memory, where it was found.
#[inline(always)]
fn take_at(
    regs: &mut Regs68,
    ram: &Ram,
    fault: &mut Fault,
    word: u32,
    size: Size,
    op: Operation,
    at: u32,
    next: u32,
) -> Did
    requires some { size ≢ Zero }
    requires near { next ≤ 5 }
    requires found { IsAt regs.old size (operand_at (words_at ram.now regs.old.pc) 1 size (first_of word).mode (first_of word).lower) at next }
    ensures { Does (taken_at size op word regs.old ram.now) result fault.new regs.old regs.new ram.now ram.now }
{
    let upper = upper_of(word);
    let Some(value) = load(ram, fault, regs.pc, at, size) else {
        return Did::Stop;
    };
    let out = apply(op, size, regs.d[upper], value, regs.ccr);
    regs.d[upper] = with_low(regs.d[upper], out.value, size);
    regs.ccr = out.ccr;
    go_on(regs, next)
}

/// Takes immediate data.
#[inline(always)]
fn take_data(regs: &mut Regs68, ram: &Ram, fault: &mut Fault, word: u32, op: Operation) -> Did
    requires mode { (first_of word).mode ≡ 7 }
    requires lower { (first_of word).lower ≡ 4 }
    ensures { Does (taken_by op word regs.old ram.now) result fault.new regs.old regs.new ram.now ram.now }
{
    match size_bits_of(word) {
        0 => take_data_sized(regs, ram, fault, word, Size::One, op),
        1 => take_data_sized(regs, ram, fault, word, Size::Two, op),
        _ => take_data_sized(regs, ram, fault, word, Size::Four, op),
    }
}

/// The same of this size.
#[inline(always)]
fn take_data_sized(
    regs: &mut Regs68,
    ram: &Ram,
    fault: &mut Fault,
    word: u32,
    size: Size,
    op: Operation,
) -> Did
    requires some { size ≢ Zero }
    requires mode { (first_of word).mode ≡ 7 }
    requires lower { (first_of word).lower ≡ 4 }
    ensures { Does (taken_at size op word regs.old ram.now) result fault.new regs.old regs.new ram.now ram.now }
{
    let upper = upper_of(word);
    let value = trunc(immediate_at(ram, regs.pc, 1, size), size);
    let out = apply(op, size, regs.d[upper], value, regs.ccr);
    regs.d[upper] = with_low(regs.d[upper], out.value, size);
    regs.ccr = out.ccr;
    go_on(regs, 1 + immediate_words(size))
}

/// Tries to take an address register, or memory of a usual mode, and tells whether it is done.
#[inline(always)]
fn take_usual(regs: &mut Regs68, ram: &Ram, word: u32, op: Operation) -> bool
    ensures { Tries (taken_by op word regs.old ram.now) result regs.old regs.new ram.now ram.now }
{
    if is_long(word) {
        return take_in_memory(regs, ram, word, Size::Four, op);
    }
    match size_bits_of(word) {
        0 => take_in_memory(regs, ram, word, Size::One, op),
        _ => take_in_memory(regs, ram, word, Size::Two, op),
    }
}

/// The same of this size.
#[inline(always)]
fn take_in_memory(regs: &mut Regs68, ram: &Ram, word: u32, size: Size, op: Operation) -> bool
    requires { size ≢ Zero }
    ensures { Tries (taken_at size op word regs.old ram.now) result regs.old regs.new ram.now ram.now }
{
    let upper = upper_of(word);
    let mut next = 1;
    let Some(value) = usual_source(regs, ram, &mut next, size, mode_of(word), lower_of(word)) else {
        return false;
    };
    let out = apply(op, size, regs.d[upper], value, regs.ccr);
    regs.d[upper] = with_low(regs.d[upper], out.value, size);
    regs.ccr = out.ccr;
    go_on(regs, next);
    true
}

/// The same with any operand, by one body for all operations.
#[inline(never)]
fn take_other(regs: &mut Regs68, ram: &Ram, fault: &mut Fault, word: u32, op: Operation) -> Did
    ensures { Does (taken_by op word regs.old ram.now) result fault.new regs.old regs.new ram.now ram.now }
{
    match size_bits_of(word) {
        0 => take_sized(regs, ram, fault, word, Size::One, op),
        1 => take_sized(regs, ram, fault, word, Size::Two, op),
        _ => take_sized(regs, ram, fault, word, Size::Four, op),
    }
}

/// The same of this size.
#[inline(always)]
fn take_sized(
    regs: &mut Regs68,
    ram: &Ram,
    fault: &mut Fault,
    word: u32,
    size: Size,
    op: Operation,
) -> Did
    requires { size ≢ Zero }
    ensures { Does (taken_at size op word regs.old ram.now) result fault.new regs.old regs.new ram.now ram.now }
{
    let (mode, lower, upper) = (mode_of(word), lower_of(word), upper_of(word));
    let mut next = 1;
    let Some(value) = source(regs, ram, fault, word, &mut next, size, mode, lower) else {
        return Did::Stop;
    };
    let out = apply(op, size, regs.d[upper], value, regs.ccr);
    regs.d[upper] = with_low(regs.d[upper], out.value, size);
    regs.ccr = out.ccr;
    go_on(regs, next)
}
