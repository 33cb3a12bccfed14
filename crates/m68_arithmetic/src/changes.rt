// Sums, differences and negations by the operations that many instructions share.
ghost use Rattle.m68_isa.specs.laws.Fits.{Fits};
ghost use Rattle.big_memory.specs.StepsClauses.{Does};
ghost use Rattle.m68_effects.specs.laws.Ops.{by_op};

use big_memory::{Did, Ram};
use m68_effects::{
    Operation, change, change_by_immediate, change_by_register, change_register, change_sized,
    take_operand, take_register,
};
use m68_isa::{Op68, Regs68, mode_of};
use mix_bits::{Fault, Size};

/// add of an operand to a data register.
#[inline(never)]
pub fn do_add_to_register(regs: &mut Regs68, ram: &Ram, fault: &mut Fault, word: u32) -> Did
    ensures { Does (by_op Op68.AddToRegister regs.old ram.now word) result fault.new regs.old regs.new ram.now ram.now }
{
    if mode_of(word) == 0 {
        take_register(regs, ram, fault, word, Operation::Add)
    } else {
        take_operand(regs, ram, fault, word, Operation::Add)
    }
}

/// sub of an operand from a data register.
#[inline(never)]
pub fn do_sub_to_register(regs: &mut Regs68, ram: &Ram, fault: &mut Fault, word: u32) -> Did
    ensures { Does (by_op Op68.SubToRegister regs.old ram.now word) result fault.new regs.old regs.new ram.now ram.now }
{
    if mode_of(word) == 0 {
        take_register(regs, ram, fault, word, Operation::Sub)
    } else {
        take_operand(regs, ram, fault, word, Operation::Sub)
    }
}

/// add of a data register to memory.
#[inline(never)]
pub fn do_add_to_memory(regs: &mut Regs68, ram: &mut Ram, fault: &mut Fault, word: u32) -> Did
    requires { Fits Op68.AddToMemory word }
    ensures { Does (by_op Op68.AddToMemory regs.old ram.old word) result fault.new regs.old regs.new ram.old ram.new }
{
    change_by_register(regs, ram, fault, word, Operation::Add)
}

/// sub of a data register from memory.
#[inline(never)]
pub fn do_sub_to_memory(regs: &mut Regs68, ram: &mut Ram, fault: &mut Fault, word: u32) -> Did
    requires { Fits Op68.SubToMemory word }
    ensures { Does (by_op Op68.SubToMemory regs.old ram.old word) result fault.new regs.old regs.new ram.old ram.new }
{
    change_by_register(regs, ram, fault, word, Operation::Sub)
}

/// addi: immediate data to an operand.
#[inline(never)]
pub fn do_addi(regs: &mut Regs68, ram: &mut Ram, fault: &mut Fault, word: u32) -> Did
    requires { Fits Op68.Addi word }
    ensures { Does (by_op Op68.Addi regs.old ram.old word) result fault.new regs.old regs.new ram.old ram.new }
{
    change_by_immediate(regs, ram, fault, word, Operation::Add)
}

/// subi: immediate data from an operand.
#[inline(never)]
pub fn do_subi(regs: &mut Regs68, ram: &mut Ram, fault: &mut Fault, word: u32) -> Did
    requires { Fits Op68.Subi word }
    ensures { Does (by_op Op68.Subi regs.old ram.old word) result fault.new regs.old regs.new ram.old ram.new }
{
    change_by_immediate(regs, ram, fault, word, Operation::Sub)
}

/// neg: 0 less an operand.
#[inline(never)]
pub fn do_neg(regs: &mut Regs68, ram: &mut Ram, fault: &mut Fault, word: u32) -> Did
    requires { Fits Op68.Neg word }
    ensures { Does (by_op Op68.Neg regs.old ram.old word) result fault.new regs.old regs.new ram.old ram.new }
{
    if mode_of(word) == 0 {
        change_register(regs, ram, fault, word, Operation::Neg, 0)
    } else {
        neg_in_memory(regs, ram, fault, word)
    }
}

/// neg of memory.
#[inline(never)]
fn neg_in_memory(regs: &mut Regs68, ram: &mut Ram, fault: &mut Fault, word: u32) -> Did
    requires { Fits Op68.Neg word }
    ensures { Does (by_op Op68.Neg regs.old ram.old word) result fault.new regs.old regs.new ram.old ram.new }
{
    change_sized(regs, ram, fault, word, Operation::Neg, 0)
}

/// negx: 0 less an operand and X.
#[inline(never)]
pub fn do_negx(regs: &mut Regs68, ram: &mut Ram, fault: &mut Fault, word: u32) -> Did
    requires { Fits Op68.Negx word }
    ensures { Does (by_op Op68.Negx regs.old ram.old word) result fault.new regs.old regs.new ram.old ram.new }
{
    change_sized(regs, ram, fault, word, Operation::Negx, 0)
}

/// nbcd: 0 less a byte of two decimal digits and X.
#[inline(never)]
pub fn do_nbcd(regs: &mut Regs68, ram: &mut Ram, fault: &mut Fault, word: u32) -> Did
    requires { Fits Op68.Nbcd word }
    ensures { Does (by_op Op68.Nbcd regs.old ram.old word) result fault.new regs.old regs.new ram.old ram.new }
{
    change(regs, ram, fault, word, 1, Size::One, Operation::Nbcd, 0)
}
