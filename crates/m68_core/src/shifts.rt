// Shifts and rotates.
ghost use Rattle.std.specs.Prelude.{◌≡◌, ◌≢◌, ◌<◌, ◌==◌, ◌%◌};
ghost use Rattle.mix_bits.specs.Addresses.{onward as onward_of};
ghost use Rattle.mix_bits.specs.declared.size.Size.TheVariants.{Zero};
ghost use Rattle.m68_isa.specs.First.{first_of, size_of};
ghost use Rattle.m68_isa.specs.laws.Fits.{Fits};
ghost use Rattle.m68_isa.specs.Shifts.{shift_count};
ghost use Rattle.big_memory.specs.StepsClauses.{Does};
ghost use Rattle.m68_effects.specs.laws.Ops.{by_op};
ghost use Rattle.m68_effects.specs.Parts.{after};
ghost use Rattle.m68_effects.specs.Shifts.{count_of as count_in};
ghost use Rattle.m68_effects.specs.inner.Rows.{shift as shift_effect};

use big_memory::{Did, Ram};
use m68_alu::shift;
use m68_ea::{find, put, value};
use m68_effects::go_on;
use m68_isa::{
    Op68, Regs68, ShiftCount, ShiftOp, is_left, is_long, lower_of, memory_shift_of, mode_of,
    register_shift_of, shift_count_of, size_bits_of,
};
use mix_bits::{Fault, Size, with_low};

/// asl, asr, lsl, lsr, roxl, roxr, rol and ror: a data register by a count. Arithmetic shifts stand apart, since
/// the others need no register saved.
#[inline(never)]
pub fn do_shift(regs: &mut Regs68, ram: &Ram, fault: &mut Fault, word: u32) -> Did
    ensures { Does (by_op Op68.Shift regs.old ram.now word) result fault.new regs.old regs.new ram.now ram.now }
{
    match register_shift_of(word) {
        ShiftOp::As => shift_arithmetically(regs, ram, fault, word),
        ShiftOp::Ls => shift_by(regs, ram, fault, word, ShiftOp::Ls),
        ShiftOp::Rox => shift_by(regs, ram, fault, word, ShiftOp::Rox),
        ShiftOp::Ro => shift_by(regs, ram, fault, word, ShiftOp::Ro),
    }
}

/// asl and asr of a data register.
#[inline(never)]
fn shift_arithmetically(regs: &mut Regs68, ram: &Ram, fault: &mut Fault, word: u32) -> Did
    ensures { let f = first_of word in
        Does (after (shift_effect regs.old ram.now (onward_of regs.old.pc 2) ShiftOp.As (f.bit8 == 1) (size_of f.size) (shift_count f) f.lower)) result fault.new regs.old regs.new ram.now ram.now }
{
    shift_by(regs, ram, fault, word, ShiftOp::As)
}

/// A data register by one kind of shift, of the size in bits 7 and 6.
#[inline(always)]
fn shift_by(regs: &mut Regs68, ram: &Ram, fault: &mut Fault, word: u32, op: ShiftOp) -> Did
    ensures { let f = first_of word in
        Does (after (shift_effect regs.old ram.now (onward_of regs.old.pc 2) op (f.bit8 == 1) (size_of f.size) (shift_count f) f.lower)) result fault.new regs.old regs.new ram.now ram.now }
{
    if is_long(word) {
        return shift_either_way(regs, ram, fault, word, op, Size::Four);
    }
    match size_bits_of(word) {
        0 => shift_either_way(regs, ram, fault, word, op, Size::One),
        _ => shift_either_way(regs, ram, fault, word, op, Size::Two),
    }
}

/// The same of this size, to the left or to the right by bit 8.
#[inline(always)]
fn shift_either_way(
    regs: &mut Regs68,
    ram: &Ram,
    fault: &mut Fault,
    word: u32,
    op: ShiftOp,
    size: Size,
) -> Did
    requires { size ≢ Zero }
    ensures { let f = first_of word in
        Does (after (shift_effect regs.old ram.now (onward_of regs.old.pc 2) op (f.bit8 == 1) size (shift_count f) f.lower)) result fault.new regs.old regs.new ram.now ram.now }
{
    if is_left(word) {
        shift_register(regs, ram, fault, word, op, true, size)
    } else {
        shift_register(regs, ram, fault, word, op, false, size)
    }
}

/// The same one way.
#[inline(always)]
fn shift_register(
    regs: &mut Regs68,
    ram: &Ram,
    fault: &mut Fault,
    word: u32,
    op: ShiftOp,
    left: bool,
    size: Size,
) -> Did
    requires { size ≢ Zero }
    ensures { let f = first_of word in
        Does (after (shift_effect regs.old ram.now (onward_of regs.old.pc 2) op left size (shift_count f) f.lower)) result fault.new regs.old regs.new ram.now ram.now }
{
    let n = lower_of(word);
    let out = shift(op, left, size, regs.d[n], count_of(regs, word), regs.ccr);
    regs.d[n] = with_low(regs.d[n], out.value, size);
    regs.ccr = out.ccr;
    go_on(regs, 1)
}

/// How far a register is shifted: by 1 to 8, or by a data register modulo 64.
#[inline(always)]
fn count_of(regs: &Regs68, word: u32) -> u32
    ensures is { result ≡ count_in regs.now (shift_count (first_of word)) }
    ensures below { result < 64 }
{
    match shift_count_of(word) {
        ShiftCount::Number(n) => u32::from(n),
        ShiftCount::Register(n) => regs.d[n as usize] % 64,
    }
}

/// The same of a word in memory, by one.
#[inline(never)]
pub fn do_shift_memory(regs: &mut Regs68, ram: &mut Ram, fault: &mut Fault, word: u32) -> Did
    requires { Fits Op68.ShiftMemory word }
    ensures { Does (by_op Op68.ShiftMemory regs.old ram.old word) result fault.new regs.old regs.new ram.old ram.new }
{
    let (mode, lower) = (mode_of(word), lower_of(word));
    let mut next = 1;
    let Some(to) = find(regs, ram, fault, word, &mut next, Size::Two, mode, lower) else {
        return Did::Stop;
    };
    let Some(old) = value(regs, ram, fault, to, Size::Two) else {
        return Did::Stop;
    };
    let (op, left) = (memory_shift_of(word), is_left(word));
    let out = shift(op, left, Size::Two, old, 1, regs.ccr);
    if !put(regs, ram, fault, to, Size::Two, out.value) {
        return Did::Stop;
    }
    regs.ccr = out.ccr;
    go_on(regs, next)
}
