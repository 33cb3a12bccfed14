// Jumps, calls and returns.
ghost use Rattle.big_memory.specs.StepsClauses.{Does};
ghost use Rattle.m68_effects.specs.laws.Ops.{by_op};
ghost use Rattle.m68_isa.specs.laws.Fits.{Fits};

use super::branches::call;
use big_memory::{Did, Ram};
use m68_ea::{control, extended_word};
use m68_effects::pop;
use m68_isa::{Ccr, Op68, Regs68, lower_of, mode_of};
use mix_bits::{Fault, Size, onward};

/// jmp: the program goes on at the address of an operand.
#[inline(never)]
pub fn do_jmp(regs: &mut Regs68, ram: &Ram, fault: &mut Fault, word: u32) -> Did
    requires { Fits Op68.Jmp word }
    ensures { Does (by_op Op68.Jmp regs.old ram.now word) result fault.new regs.old regs.new ram.now ram.now }
{
    let (mode, lower) = (mode_of(word), lower_of(word));
    let mut next = 1;
    let Some(at) = control(regs, ram, fault, word, &mut next, mode, lower) else {
        return Did::Stop;
    };
    regs.pc = at;
    Did::Next
}

/// jsr: the same, with the address of the next instruction on the stack.
#[inline(never)]
pub fn do_jsr(regs: &mut Regs68, ram: &mut Ram, fault: &mut Fault, word: u32) -> Did
    requires { Fits Op68.Jsr word }
    ensures { Does (by_op Op68.Jsr regs.old ram.old word) result fault.new regs.old regs.new ram.old ram.new }
{
    let (mode, lower) = (mode_of(word), lower_of(word));
    let mut next = 1;
    let Some(at) = control(regs, ram, fault, word, &mut next, mode, lower) else {
        return Did::Stop;
    };
    call(regs, ram, fault, onward(regs.pc, 2 * next), at)
}

/// rts: the program goes on at the address that is popped.
#[inline(never)]
pub fn do_rts(regs: &mut Regs68, ram: &Ram, fault: &mut Fault, word: u32) -> Did
    ensures { Does (by_op Op68.Rts regs.old ram.now word) result fault.new regs.old regs.new ram.now ram.now }
{
    let Some(target) = pop(regs, ram, fault, Size::Four) else {
        return Did::Stop;
    };
    regs.pc = target;
    Did::Next
}

/// rtd: the same, and a displacement onto the stack pointer behind it.
#[inline(never)]
pub fn do_rtd(regs: &mut Regs68, ram: &Ram, fault: &mut Fault, word: u32) -> Did
    ensures { Does (by_op Op68.Rtd regs.old ram.now word) result fault.new regs.old regs.new ram.now ram.now }
{
    let displacement = extended_word(ram, regs.pc, 1);
    let Some(target) = pop(regs, ram, fault, Size::Four) else {
        return Did::Stop;
    };
    regs.a[7] = onward(regs.a[7], displacement);
    regs.pc = target;
    Did::Next
}

/// rtr: the condition codes are popped before the address.
#[inline(never)]
pub fn do_rtr(regs: &mut Regs68, ram: &Ram, fault: &mut Fault, word: u32) -> Did
    ensures { Does (by_op Op68.Rtr regs.old ram.now word) result fault.new regs.old regs.new ram.now ram.now }
{
    let before = regs.a[7];
    let Some(bits) = pop(regs, ram, fault, Size::Two) else {
        return Did::Stop;
    };
    let Some(target) = pop(regs, ram, fault, Size::Four) else {
        regs.a[7] = before;
        return Did::Stop;
    };
    regs.ccr = Ccr::from_bits(bits);
    regs.pc = target;
    Did::Next
}
