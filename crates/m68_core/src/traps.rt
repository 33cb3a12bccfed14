// Exceptions, words that are no instruction of a program, and the instruction that does nothing.
ghost use Rattle.big_memory.specs.StepsClauses.{Does};
ghost use Rattle.m68_effects.specs.laws.Ops.{by_op};
ghost use Rattle.m68_isa.specs.laws.Fits.{Fits};

use big_memory::{Did, Ram, leave, stop};
use m68_effects::go_on;
use m68_isa::{Op68, Regs68, trap_of};
use mix_bits::{Fault, FaultKind};

/// The vector of trapv.
const OVERFLOW: u32 = 7;

/// The vector of words from $F000 to $FFFF.
const LINE_F: u32 = 11;

/// The vector of trap #0.
const TRAPS: u32 = 32;

/// nop
#[inline(always)]
pub fn do_nop(regs: &mut Regs68, ram: &Ram, fault: &mut Fault, word: u32) -> Did
    ensures { Does (by_op Op68.Nop regs.old ram.now word) result fault.new regs.old regs.new ram.now ram.now }
{
    go_on(regs, 1)
}

/// trap: vector 32 and on.
#[inline(never)]
pub fn do_trap(regs: &mut Regs68, ram: &Ram, fault: &mut Fault, word: u32) -> Did
    requires { Fits Op68.Trap word }
    ensures { Does (by_op Op68.Trap regs.old ram.now word) result fault.new regs.old regs.new ram.now ram.now }
{
    stop::<Regs68>(fault, FaultKind::Vector, regs.pc, TRAPS + trap_of(word))
}

/// trapv: vector 7 where the overflow flag is set.
#[inline(never)]
pub fn do_trapv(regs: &mut Regs68, ram: &Ram, fault: &mut Fault, word: u32) -> Did
    ensures { Does (by_op Op68.Trapv regs.old ram.now word) result fault.new regs.old regs.new ram.now ram.now }
{
    if regs.ccr.v {
        stop::<Regs68>(fault, FaultKind::Vector, regs.pc, OVERFLOW)
    } else {
        go_on(regs, 1)
    }
}

/// A word that is no instruction.
#[inline(never)]
pub fn do_illegal(regs: &mut Regs68, ram: &Ram, fault: &mut Fault, word: u32) -> Did
    ensures { Does (by_op Op68.Illegal regs.old ram.now word) result fault.new regs.old regs.new ram.now ram.now }
{
    stop::<Regs68>(fault, FaultKind::Illegal, regs.pc, word)
}

/// An instruction of the supervisor.
#[inline(never)]
pub fn do_privileged(regs: &mut Regs68, ram: &Ram, fault: &mut Fault, word: u32) -> Did
    ensures { Does (by_op Op68.Privileged regs.old ram.now word) result fault.new regs.old regs.new ram.now ram.now }
{
    stop::<Regs68>(fault, FaultKind::Privileged, regs.pc, word)
}

/// A word of line A, which leaves the code of this set.
#[inline(never)]
pub fn do_line_a(regs: &mut Regs68, ram: &Ram, fault: &mut Fault, word: u32) -> Did
    ensures { Does (by_op Op68.LineA regs.old ram.now word) result fault.new regs.old regs.new ram.now ram.now }
{
    leave::<Regs68>(fault, word)
}

/// A word of line F: vector 11.
#[inline(never)]
pub fn do_line_f(regs: &mut Regs68, ram: &Ram, fault: &mut Fault, word: u32) -> Did
    ensures { Does (by_op Op68.LineF regs.old ram.now word) result fault.new regs.old regs.new ram.now ram.now }
{
    stop::<Regs68>(fault, FaultKind::Vector, regs.pc, LINE_F)
}
