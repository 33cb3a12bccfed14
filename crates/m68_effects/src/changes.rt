// Operands that an operation changes.
ghost use Rattle.std.specs.Prelude.{◌≡◌, ◌≢◌, ◌+◌, ◌<◌, ◌≤◌, slice_index};
ghost use Rattle.mix_bits.specs.declared.size.Size.TheVariants.{Zero, One, Two, Four};
ghost use Rattle.m68_isa.specs.First.{first_of};
ghost use Rattle.m68_isa.specs.laws.Fits.{IsChangeable};
ghost use Rattle.m68_isa.specs.Operands.{operand_at};
ghost use Rattle.big_memory.specs.StepsClauses.{Does};
ghost use Rattle.m68_ea.specs.FindsClauses.{IsAt};
ghost use Rattle.m68_effects.specs.laws.Tried.{Tries};
ghost use Rattle.m68_ea.specs.Words.{words_at};
ghost use Rattle.m68_effects.specs.Operations.{changed_at, changed_by, changed_by_data, changed_by_data_at};

use super::operation::{Operation, apply, set_flags};
use crate::go_on;
use big_memory::{Did, Ram};
use m68_ea::{data_address, find, find_usual, immediate_at, put, put_usual, value};
use m68_isa::{Regs68, immediate_words, is_long, lower_of, mode_of, size_bits_of, upper_of};
use mix_bits::{Fault, Size, trunc, with_low};

/// Changes an operand of this size by an operation with a number. Its extension words begin with word `first`.
#[inline(always)]
pub fn change(
    regs: &mut Regs68,
    ram: &mut Ram,
    fault: &mut Fault,
    word: u32,
    first: u32,
    size: Size,
    op: Operation,
    by: u32,
) -> Did
    requires some { size ≢ Zero }
    requires first { first < 4 }
    requires changeable { IsChangeable word }
    ensures { Does (changed_at size op first by word regs.old ram.old) result fault.new regs.old regs.new ram.old ram.new }
{
    let (mode, lower) = (mode_of(word), lower_of(word));
    let mut next = first;
    let Some(target) = find(regs, ram, fault, word, &mut next, size, mode, lower) else {
        return Did::Stop;
    };
    let Some(old) = value(regs, ram, fault, target, size) else {
        return Did::Stop;
    };
    let out = apply(op, size, old, by, regs.ccr);
    if !put(regs, ram, fault, target, size, out.value) {
        return Did::Stop;
    }
    regs.ccr = out.ccr;
    go_on(regs, next)
}

/// Changes an operand of the size in bits 7 and 6 by an operation with a number.
#[inline(always)]
pub fn change_sized(
    regs: &mut Regs68,
    ram: &mut Ram,
    fault: &mut Fault,
    word: u32,
    op: Operation,
    by: u32,
) -> Did
    requires { IsChangeable word }
    ensures { Does (changed_by op 1 by word regs.old ram.old) result fault.new regs.old regs.new ram.old ram.new }
{
    match size_bits_of(word) {
        0 => change(regs, ram, fault, word, 1, Size::One, op, by),
        1 => change(regs, ram, fault, word, 1, Size::Two, op, by),
        _ => change(regs, ram, fault, word, 1, Size::Four, op, by),
    }
}

/// The same, by one body for all operations.
#[inline(never)]
fn change_other(
    regs: &mut Regs68,
    ram: &mut Ram,
    fault: &mut Fault,
    word: u32,
    op: Operation,
    by: u32,
) -> Did
    requires { IsChangeable word }
    ensures { Does (changed_by op 1 by word regs.old ram.old) result fault.new regs.old regs.new ram.old ram.new }
{
    change_sized(regs, ram, fault, word, op, by)
}

/// The same; memory of a usual mode is tried first.
#[inline(always)]
pub fn change_operand(
    regs: &mut Regs68,
    ram: &mut Ram,
    fault: &mut Fault,
    word: u32,
    op: Operation,
    by: u32,
) -> Did
    requires { IsChangeable word }
    ensures { Does (changed_by op 1 by word regs.old ram.old) result fault.new regs.old regs.new ram.old ram.new }
{
    if mode_of(word) > 5 {
        change_elsewhere(regs, ram, fault, word, op, by)
    } else if change_usual(regs, ram, word, op, by) {
        Did::Next
    } else {
        change_other(regs, ram, fault, word, op, by)
    }
}

/// The same of an operand of mode 6 or 7. The operations that programs do there most have a body each.
#[inline(always)]
fn change_elsewhere(
    regs: &mut Regs68,
    ram: &mut Ram,
    fault: &mut Fault,
    word: u32,
    op: Operation,
    by: u32,
) -> Did
    requires { IsChangeable word }
    ensures { Does (changed_by op 1 by word regs.old ram.old) result fault.new regs.old regs.new ram.old ram.new }
{
    match op {
        Operation::Add => add_elsewhere(regs, ram, fault, word, by),
        Operation::Sub => sub_elsewhere(regs, ram, fault, word, by),
        _ => change_other(regs, ram, fault, word, op, by),
    }
}

/// A number to an operand of mode 6 or 7.
#[inline(never)]
fn add_elsewhere(regs: &mut Regs68, ram: &mut Ram, fault: &mut Fault, word: u32, by: u32) -> Did
    requires { IsChangeable word }
    ensures { Does (changed_by Operation.Add 1 by word regs.old ram.old) result fault.new regs.old regs.new ram.old ram.new }
{
    change_far(regs, ram, fault, word, Operation::Add, by)
}

/// A number from an operand of mode 6 or 7.
#[inline(never)]
fn sub_elsewhere(regs: &mut Regs68, ram: &mut Ram, fault: &mut Fault, word: u32, by: u32) -> Did
    requires { IsChangeable word }
    ensures { Does (changed_by Operation.Sub 1 by word regs.old ram.old) result fault.new regs.old regs.new ram.old ram.new }
{
    change_far(regs, ram, fault, word, Operation::Sub, by)
}

/// The same by one operation. An address is found before the size is matched, since it doesn't depend on it.
#[inline(always)]
fn change_far(
    regs: &mut Regs68,
    ram: &mut Ram,
    fault: &mut Fault,
    word: u32,
    op: Operation,
    by: u32,
) -> Did
    requires { IsChangeable word }
    ensures { Does (changed_by op 1 by word regs.old ram.old) result fault.new regs.old regs.new ram.old ram.new }
{
    let (mode, lower) = (mode_of(word), lower_of(word));
    if mode != 6 && (mode != 7 || lower > 1) {
        return change_other(regs, ram, fault, word, op, by);
    }
    let mut next = 1;
    let Some(at) = data_address(regs, ram, fault, word, &mut next, mode, lower) else {
        return Did::Stop;
    };
    if change_there(regs, ram, word, op, by, at, next) {
        Did::Next
    } else {
        change_other(regs, ram, fault, word, op, by)
    }
}

/// Tries to change an operand of the size in bits 7 and 6 where it was found in memory, and tells whether it is
/// done.
#[inline(always)]
fn change_there(
    regs: &mut Regs68,
    ram: &mut Ram,
    word: u32,
    op: Operation,
    by: u32,
    at: u32,
    next: u32,
) -> bool
    requires near { next ≤ 5 }
    requires byte { IsAt regs.old One (operand_at (words_at ram.old regs.old.pc) 1 One (first_of word).mode (first_of word).lower) at next }
    requires word { IsAt regs.old Two (operand_at (words_at ram.old regs.old.pc) 1 Two (first_of word).mode (first_of word).lower) at next }
    requires long { IsAt regs.old Four (operand_at (words_at ram.old regs.old.pc) 1 Four (first_of word).mode (first_of word).lower) at next }
    ensures { Tries (changed_by op 1 by word regs.old ram.old) result regs.old regs.new ram.old ram.new }
{
    if is_long(word) {
        return change_at(regs, ram, word, Size::Four, op, by, at, next);
    }
    match size_bits_of(word) {
        0 => change_at(regs, ram, word, Size::One, op, by, at, next),
        _ => change_at(regs, ram, word, Size::Two, op, by, at, next),
    }
}

/// The same of this size.
#[inline(always)]
fn change_at(
    regs: &mut Regs68,
    ram: &mut Ram,
    word: u32,
    size: Size,
    op: Operation,
    by: u32,
    at: u32,
    next: u32,
) -> bool
    requires some { size ≢ Zero }
    requires near { next ≤ 5 }
    requires found { IsAt regs.old size (operand_at (words_at ram.old regs.old.pc) 1 size (first_of word).mode (first_of word).lower) at next }
    ensures { Tries (changed_at size op 1 by word regs.old ram.old) result regs.old regs.new ram.old ram.new }
{
    let Ok(old) = ram.load(at, size) else {
        return false;
    };
    let value = apply(op, size, old, by, regs.ccr).value;
    if !ram.store_if_open(at, size, value) {
        return false;
    }
    set_flags(&mut regs.ccr, op, size, old, by);
    go_on(regs, next);
    true
}

/// The same by the data register of bits 11 to 9.
#[inline(always)]
pub fn change_by_register(
    regs: &mut Regs68,
    ram: &mut Ram,
    fault: &mut Fault,
    word: u32,
    op: Operation,
) -> Did
    requires { IsChangeable word }
    ensures { Does (changed_by op 1 (slice_index regs.old.d (first_of word).upper) word regs.old ram.old) result fault.new regs.old regs.new ram.old ram.new }
{
    let by = regs.d[upper_of(word)];
    change_operand(regs, ram, fault, word, op, by)
}

/// Tries to change an operand in memory of a usual mode, of the size in bits 7 and 6, and tells whether it is
/// done.
#[inline(always)]
fn change_usual(regs: &mut Regs68, ram: &mut Ram, word: u32, op: Operation, by: u32) -> bool
    ensures { Tries (changed_by op 1 by word regs.old ram.old) result regs.old regs.new ram.old ram.new }
{
    if is_long(word) {
        return change_in_memory(regs, ram, word, 1, Size::Four, op, by);
    }
    match size_bits_of(word) {
        0 => change_in_memory(regs, ram, word, 1, Size::One, op, by),
        _ => change_in_memory(regs, ram, word, 1, Size::Two, op, by),
    }
}

/// The same of this size. The operand's extension words begin with word `first`.
#[inline(always)]
fn change_in_memory(
    regs: &mut Regs68,
    ram: &mut Ram,
    word: u32,
    first: u32,
    size: Size,
    op: Operation,
    by: u32,
) -> bool
    requires some { size ≢ Zero }
    requires first { first < 4 }
    ensures { Tries (changed_at size op first by word regs.old ram.old) result regs.old regs.new ram.old ram.new }
{
    let lower = lower_of(word);
    let Some((to, old)) = find_usual(regs, ram, first, size, mode_of(word), lower) else {
        return false;
    };
    let value = apply(op, size, old, by, regs.ccr).value;
    if !put_usual(regs, ram, to, lower, size, value) {
        return false;
    }
    set_flags(&mut regs.ccr, op, size, old, by);
    go_on(regs, to.next);
    true
}

/// Changes the data register of bits 2 to 0, of the size in bits 7 and 6, by an operation with a number.
#[inline(always)]
pub fn change_register(
    regs: &mut Regs68,
    ram: &Ram,
    fault: &mut Fault,
    word: u32,
    op: Operation,
    by: u32,
) -> Did
    requires { (first_of word).mode ≡ 0 }
    ensures { Does (changed_by op 1 by word regs.old ram.now) result fault.new regs.old regs.new ram.now ram.now }
{
    if is_long(word) {
        return change_low(regs, ram, fault, word, Size::Four, op, by);
    }
    match size_bits_of(word) {
        0 => change_low(regs, ram, fault, word, Size::One, op, by),
        _ => change_low(regs, ram, fault, word, Size::Two, op, by),
    }
}

/// The same of this size.
#[inline(always)]
fn change_low(
    regs: &mut Regs68,
    ram: &Ram,
    fault: &mut Fault,
    word: u32,
    size: Size,
    op: Operation,
    by: u32,
) -> Did
    requires some { size ≢ Zero }
    requires register { (first_of word).mode ≡ 0 }
    ensures { Does (changed_at size op 1 by word regs.old ram.now) result fault.new regs.old regs.new ram.now ram.now }
{
    let lower = lower_of(word);
    let old = trunc(regs.d[lower], size);
    let value = apply(op, size, old, by, regs.ccr).value;
    regs.d[lower] = with_low(regs.d[lower], value, size);
    set_flags(&mut regs.ccr, op, size, old, by);
    go_on(regs, 1)
}

/// Changes an operand of the size in bits 7 and 6 by an operation with immediate data, whose words come first.
/// A data register is changed here; of memory, the operations that programs do there most have a body each.
#[inline(always)]
pub fn change_by_immediate(
    regs: &mut Regs68,
    ram: &mut Ram,
    fault: &mut Fault,
    word: u32,
    op: Operation,
) -> Did
    requires { IsChangeable word }
    ensures { Does (changed_by_data op word regs.old ram.old) result fault.new regs.old regs.new ram.old ram.new }
{
    if mode_of(word) == 0 {
        return change_register_by_data(regs, ram, fault, word, op);
    }
    match op {
        Operation::Add => add_data(regs, ram, fault, word),
        Operation::Sub => sub_data(regs, ram, fault, word),
        Operation::And => and_data(regs, ram, fault, word),
        Operation::Or => or_data(regs, ram, fault, word),
        _ => change_other_by_data(regs, ram, fault, word, op),
    }
}

/// Changes the data register of bits 2 to 0 by an operation with immediate data.
#[inline(always)]
fn change_register_by_data(
    regs: &mut Regs68,
    ram: &Ram,
    fault: &mut Fault,
    word: u32,
    op: Operation,
) -> Did
    requires { (first_of word).mode ≡ 0 }
    ensures { Does (changed_by_data op word regs.old ram.now) result fault.new regs.old regs.new ram.now ram.now }
{
    match size_bits_of(word) {
        0 => change_low_by_data(regs, ram, fault, word, Size::One, op),
        1 => change_low_by_data(regs, ram, fault, word, Size::Two, op),
        _ => change_low_by_data(regs, ram, fault, word, Size::Four, op),
    }
}

/// The same of this size.
#[inline(always)]
fn change_low_by_data(
    regs: &mut Regs68,
    ram: &Ram,
    fault: &mut Fault,
    word: u32,
    size: Size,
    op: Operation,
) -> Did
    requires some { size ≢ Zero }
    requires register { (first_of word).mode ≡ 0 }
    ensures { Does (changed_by_data_at size op word regs.old ram.now) result fault.new regs.old regs.new ram.now ram.now }
{
    let lower = lower_of(word);
    let by = immediate_at(ram, regs.pc, 1, size);
    let old = trunc(regs.d[lower], size);
    let value = apply(op, size, old, by, regs.ccr).value;
    regs.d[lower] = with_low(regs.d[lower], value, size);
    set_flags(&mut regs.ccr, op, size, old, by);
    go_on(regs, 1 + immediate_words(size))
}

/// Immediate data to memory.
#[inline(never)]
fn add_data(regs: &mut Regs68, ram: &mut Ram, fault: &mut Fault, word: u32) -> Did
    requires { IsChangeable word }
    ensures { Does (changed_by_data Operation.Add word regs.old ram.old) result fault.new regs.old regs.new ram.old ram.new }
{
    change_memory_by_data(regs, ram, fault, word, Operation::Add)
}

/// Immediate data from memory.
#[inline(never)]
fn sub_data(regs: &mut Regs68, ram: &mut Ram, fault: &mut Fault, word: u32) -> Did
    requires { IsChangeable word }
    ensures { Does (changed_by_data Operation.Sub word regs.old ram.old) result fault.new regs.old regs.new ram.old ram.new }
{
    change_memory_by_data(regs, ram, fault, word, Operation::Sub)
}

/// Immediate data into memory, by AND.
#[inline(never)]
fn and_data(regs: &mut Regs68, ram: &mut Ram, fault: &mut Fault, word: u32) -> Did
    requires { IsChangeable word }
    ensures { Does (changed_by_data Operation.And word regs.old ram.old) result fault.new regs.old regs.new ram.old ram.new }
{
    change_memory_by_data(regs, ram, fault, word, Operation::And)
}

/// Immediate data into memory, by OR.
#[inline(never)]
fn or_data(regs: &mut Regs68, ram: &mut Ram, fault: &mut Fault, word: u32) -> Did
    requires { IsChangeable word }
    ensures { Does (changed_by_data Operation.Or word regs.old ram.old) result fault.new regs.old regs.new ram.old ram.new }
{
    change_memory_by_data(regs, ram, fault, word, Operation::Or)
}

/// Changes memory by an operation with immediate data: a usual mode is tried first.
#[inline(always)]
fn change_memory_by_data(
    regs: &mut Regs68,
    ram: &mut Ram,
    fault: &mut Fault,
    word: u32,
    op: Operation,
) -> Did
    requires { IsChangeable word }
    ensures { Does (changed_by_data op word regs.old ram.old) result fault.new regs.old regs.new ram.old ram.new }
{
    if change_usual_by_data(regs, ram, word, op) {
        Did::Next
    } else {
        change_other_by_data(regs, ram, fault, word, op)
    }
}

/// Tries to change an operand in memory of a usual mode by immediate data, and tells whether it is done.
#[inline(always)]
fn change_usual_by_data(regs: &mut Regs68, ram: &mut Ram, word: u32, op: Operation) -> bool
    ensures { Tries (changed_by_data op word regs.old ram.old) result regs.old regs.new ram.old ram.new }
{
    match size_bits_of(word) {
        0 => change_in_memory_by_data(regs, ram, word, Size::One, op),
        1 => change_in_memory_by_data(regs, ram, word, Size::Two, op),
        _ => change_in_memory_by_data(regs, ram, word, Size::Four, op),
    }
}

/// The same of this size.
#[inline(always)]
fn change_in_memory_by_data(
    regs: &mut Regs68,
    ram: &mut Ram,
    word: u32,
    size: Size,
    op: Operation,
) -> bool
    requires { size ≢ Zero }
    ensures { Tries (changed_by_data_at size op word regs.old ram.old) result regs.old regs.new ram.old ram.new }
{
    let by = immediate_at(ram, regs.pc, 1, size);
    change_in_memory(regs, ram, word, 1 + immediate_words(size), size, op, by)
}

/// Changes any operand by an operation with immediate data, by one body for all operations.
#[inline(never)]
fn change_other_by_data(
    regs: &mut Regs68,
    ram: &mut Ram,
    fault: &mut Fault,
    word: u32,
    op: Operation,
) -> Did
    requires { IsChangeable word }
    ensures { Does (changed_by_data op word regs.old ram.old) result fault.new regs.old regs.new ram.old ram.new }
{
    match size_bits_of(word) {
        0 => change_by_data(regs, ram, fault, word, Size::One, op),
        1 => change_by_data(regs, ram, fault, word, Size::Two, op),
        _ => change_by_data(regs, ram, fault, word, Size::Four, op),
    }
}

/// The same of this size.
#[inline(always)]
fn change_by_data(
    regs: &mut Regs68,
    ram: &mut Ram,
    fault: &mut Fault,
    word: u32,
    size: Size,
    op: Operation,
) -> Did
    requires some { size ≢ Zero }
    requires changeable { IsChangeable word }
    ensures { Does (changed_by_data_at size op word regs.old ram.old) result fault.new regs.old regs.new ram.old ram.new }
{
    let by = immediate_at(ram, regs.pc, 1, size);
    let first = 1 + immediate_words(size);
    change(regs, ram, fault, word, first, size, op, by)
}
