// AND, OR, EOR and NOT.
ghost use Rattle.m68_isa.specs.laws.Fits.{Fits};
ghost use Rattle.big_memory.specs.StepsClauses.{Does};
ghost use Rattle.m68_effects.specs.laws.Ops.{by_op};

use big_memory::{Did, Ram};
use m68_effects::{
    Operation, change_by_immediate, change_by_register, change_register, change_sized,
    take_operand, take_register,
};
use m68_isa::{Op68, Regs68, mode_of, upper_of};
use mix_bits::Fault;

/// ori: immediate data into an operand, by OR.
#[inline(never)]
pub fn do_ori(regs: &mut Regs68, ram: &mut Ram, fault: &mut Fault, word: u32) -> Did
    requires { Fits Op68.Ori word }
    ensures { Does (by_op Op68.Ori regs.old ram.old word) result fault.new regs.old regs.new ram.old ram.new }
{
    change_by_immediate(regs, ram, fault, word, Operation::Or)
}

/// andi: immediate data into an operand, by AND.
#[inline(never)]
pub fn do_andi(regs: &mut Regs68, ram: &mut Ram, fault: &mut Fault, word: u32) -> Did
    requires { Fits Op68.Andi word }
    ensures { Does (by_op Op68.Andi regs.old ram.old word) result fault.new regs.old regs.new ram.old ram.new }
{
    change_by_immediate(regs, ram, fault, word, Operation::And)
}

/// eori: immediate data into an operand, by EOR.
#[inline(never)]
pub fn do_eori(regs: &mut Regs68, ram: &mut Ram, fault: &mut Fault, word: u32) -> Did
    requires { Fits Op68.Eori word }
    ensures { Does (by_op Op68.Eori regs.old ram.old word) result fault.new regs.old regs.new ram.old ram.new }
{
    change_by_immediate(regs, ram, fault, word, Operation::Eor)
}

/// or: an operand into a data register.
#[inline(never)]
pub fn do_or_to_register(regs: &mut Regs68, ram: &Ram, fault: &mut Fault, word: u32) -> Did
    ensures { Does (by_op Op68.OrToRegister regs.old ram.now word) result fault.new regs.old regs.new ram.now ram.now }
{
    if mode_of(word) == 0 {
        take_register(regs, ram, fault, word, Operation::Or)
    } else {
        take_operand(regs, ram, fault, word, Operation::Or)
    }
}

/// and: an operand into a data register.
#[inline(never)]
pub fn do_and_to_register(regs: &mut Regs68, ram: &Ram, fault: &mut Fault, word: u32) -> Did
    ensures { Does (by_op Op68.AndToRegister regs.old ram.now word) result fault.new regs.old regs.new ram.now ram.now }
{
    if mode_of(word) == 0 {
        take_register(regs, ram, fault, word, Operation::And)
    } else {
        take_operand(regs, ram, fault, word, Operation::And)
    }
}

/// or: a data register into memory.
#[inline(never)]
pub fn do_or_to_memory(regs: &mut Regs68, ram: &mut Ram, fault: &mut Fault, word: u32) -> Did
    requires { Fits Op68.OrToMemory word }
    ensures { Does (by_op Op68.OrToMemory regs.old ram.old word) result fault.new regs.old regs.new ram.old ram.new }
{
    change_by_register(regs, ram, fault, word, Operation::Or)
}

/// and: a data register into memory.
#[inline(never)]
pub fn do_and_to_memory(regs: &mut Regs68, ram: &mut Ram, fault: &mut Fault, word: u32) -> Did
    requires { Fits Op68.AndToMemory word }
    ensures { Does (by_op Op68.AndToMemory regs.old ram.old word) result fault.new regs.old regs.new ram.old ram.new }
{
    change_by_register(regs, ram, fault, word, Operation::And)
}

/// eor: a data register into an operand.
#[inline(never)]
pub fn do_eor(regs: &mut Regs68, ram: &mut Ram, fault: &mut Fault, word: u32) -> Did
    requires { Fits Op68.Eor word }
    ensures { Does (by_op Op68.Eor regs.old ram.old word) result fault.new regs.old regs.new ram.old ram.new }
{
    if mode_of(word) == 0 {
        let by = regs.d[upper_of(word)];
        change_register(regs, ram, fault, word, Operation::Eor, by)
    } else {
        eor_to_memory(regs, ram, fault, word)
    }
}

/// eor of a data register into memory.
#[inline(never)]
fn eor_to_memory(regs: &mut Regs68, ram: &mut Ram, fault: &mut Fault, word: u32) -> Did
    requires { Fits Op68.Eor word }
    ensures { Does (by_op Op68.Eor regs.old ram.old word) result fault.new regs.old regs.new ram.old ram.new }
{
    change_by_register(regs, ram, fault, word, Operation::Eor)
}

/// not: the ones complement of an operand.
#[inline(never)]
pub fn do_not(regs: &mut Regs68, ram: &mut Ram, fault: &mut Fault, word: u32) -> Did
    requires { Fits Op68.Not word }
    ensures { Does (by_op Op68.Not regs.old ram.old word) result fault.new regs.old regs.new ram.old ram.new }
{
    if mode_of(word) == 0 {
        change_register(regs, ram, fault, word, Operation::Not, 0)
    } else {
        not_to_memory(regs, ram, fault, word)
    }
}

/// not of memory.
#[inline(never)]
fn not_to_memory(regs: &mut Regs68, ram: &mut Ram, fault: &mut Fault, word: u32) -> Did
    requires { Fits Op68.Not word }
    ensures { Does (by_op Op68.Not regs.old ram.old word) result fault.new regs.old regs.new ram.old ram.new }
{
    change_sized(regs, ram, fault, word, Operation::Not, 0)
}
