// An operand by a number from 1 to 8: an address register as a whole and without flags.
ghost use Rattle.std.specs.Prelude.{◌≡◌};
ghost use Rattle.mix_bits.specs.Addresses.{onward as onward_of};
ghost use Rattle.m68_isa.specs.First.{first_of, one_to_eight};
ghost use Rattle.m68_isa.specs.laws.Fits.{Fits, IsChangeable};
ghost use Rattle.big_memory.specs.StepsClauses.{Does};
ghost use Rattle.m68_effects.specs.Operations.{changed_by};
ghost use Rattle.m68_effects.specs.laws.Ops.{by_op};
ghost use Rattle.m68_effects.specs.Parts.{after, goes_on};
ghost use Rattle.m68_arithmetic.specs.inner.Parts.{with_away};

use super::ways::{Way, away};
use big_memory::{Did, Ram};
use m68_effects::{Operation, change_operand, change_register, go_on};
use m68_isa::{Op68, Regs68, lower_of, mode_of, quick_of};
use mix_bits::Fault;

/// addq: a number from 1 to 8 to an operand.
#[inline(never)]
pub fn do_addq(regs: &mut Regs68, ram: &mut Ram, fault: &mut Fault, word: u32) -> Did
    requires { Fits Op68.Addq word }
    ensures { Does (by_op Op68.Addq regs.old ram.old word) result fault.new regs.old regs.new ram.old ram.new }
{
    match mode_of(word) {
        0 => change_register(regs, ram, fault, word, Operation::Add, quick_of(word)),
        1 => move_address(regs, ram, fault, word, Way::Onward),
        _ => add_number(regs, ram, fault, word),
    }
}

/// subq: a number from 1 to 8 from an operand.
#[inline(never)]
pub fn do_subq(regs: &mut Regs68, ram: &mut Ram, fault: &mut Fault, word: u32) -> Did
    requires { Fits Op68.Subq word }
    ensures { Does (by_op Op68.Subq regs.old ram.old word) result fault.new regs.old regs.new ram.old ram.new }
{
    match mode_of(word) {
        0 => change_register(regs, ram, fault, word, Operation::Sub, quick_of(word)),
        1 => move_address(regs, ram, fault, word, Way::Backward),
        _ => subtract_number(regs, ram, fault, word),
    }
}

/// An address register goes one way by the number.
#[inline(always)]
fn move_address(regs: &mut Regs68, ram: &Ram, fault: &mut Fault, word: u32, way: Way) -> Did
    ensures { let f = first_of word in
        Does (after (goes_on (onward_of regs.old.pc 2) (with_away way regs.old f.lower (one_to_eight f.upper)) ram.now)) result fault.new regs.old regs.new ram.now ram.now }
{
    let lower = lower_of(word);
    regs.a[lower] = away(way, regs.a[lower], quick_of(word));
    go_on(regs, 1)
}

/// A number from 1 to 8 to memory.
#[inline(never)]
fn add_number(regs: &mut Regs68, ram: &mut Ram, fault: &mut Fault, word: u32) -> Did
    requires { IsChangeable word }
    ensures { Does (changed_by Operation.Add 1 (one_to_eight (first_of word).upper) word regs.old ram.old) result fault.new regs.old regs.new ram.old ram.new }
{
    change_operand(regs, ram, fault, word, Operation::Add, quick_of(word))
}

/// A number from 1 to 8 from memory.
#[inline(never)]
fn subtract_number(regs: &mut Regs68, ram: &mut Ram, fault: &mut Fault, word: u32) -> Did
    requires { IsChangeable word }
    ensures { Does (changed_by Operation.Sub 1 (one_to_eight (first_of word).upper) word regs.old ram.old) result fault.new regs.old regs.new ram.old ram.new }
{
    change_operand(regs, ram, fault, word, Operation::Sub, quick_of(word))
}
