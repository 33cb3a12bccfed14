// Instructions on the condition codes as a number.
ghost use Rattle.std.specs.Prelude.{◌≡◌};
ghost use Rattle.m68_isa.specs.laws.Fits.{Fits};
ghost use Rattle.big_memory.specs.StepsClauses.{Does};
ghost use Rattle.m68_alu.specs.Logical.{bits_of};
ghost use Rattle.m68_effects.specs.laws.Ops.{by_op};

use super::parts::write;
use big_memory::{Did, Ram};
use m68_ea::{immediate_at, source};
use m68_effects::go_on;
use m68_isa::{Ccr, LogicOp, Op68, Regs68, logic_op_of, lower_of, mode_of};
use mix_bits::{Fault, Size};

/// move from SR: its low byte, and zeros for the supervisor's.
#[inline(never)]
pub fn do_move_from_sr(regs: &mut Regs68, ram: &mut Ram, fault: &mut Fault, word: u32) -> Did
    requires { Fits Op68.MoveFromSr word }
    ensures { Does (by_op Op68.MoveFromSr regs.old ram.old word) result fault.new regs.old regs.new ram.old ram.new }
{
    let (mode, lower) = (mode_of(word), lower_of(word));
    let bits = regs.ccr.bits();
    let mut next = 1;
    if write(
        regs,
        ram,
        fault,
        word,
        &mut next,
        Size::Two,
        mode,
        lower,
        bits,
    ) {
        go_on(regs, next)
    } else {
        Did::Stop
    }
}

/// move to CCR: the low five bits of a word.
#[inline(never)]
pub fn do_move_to_ccr(regs: &mut Regs68, ram: &Ram, fault: &mut Fault, word: u32) -> Did
    ensures { Does (by_op Op68.MoveToCcr regs.old ram.now word) result fault.new regs.old regs.new ram.now ram.now }
{
    let (mode, lower) = (mode_of(word), lower_of(word));
    let mut next = 1;
    let Some(value) = source(regs, ram, fault, word, &mut next, Size::Two, mode, lower) else {
        return Did::Stop;
    };
    regs.ccr = Ccr::from_bits(value);
    go_on(regs, next)
}

/// ori, andi and eori to CCR.
#[inline(never)]
pub fn do_logic_to_ccr(regs: &mut Regs68, ram: &Ram, fault: &mut Fault, word: u32) -> Did
    ensures { Does (by_op Op68.LogicToCcr regs.old ram.now word) result fault.new regs.old regs.new ram.now ram.now }
{
    let value = immediate_at(ram, regs.pc, 1, Size::One);
    regs.ccr = Ccr::from_bits(combine(logic_op_of(word), regs.ccr.bits(), value));
    go_on(regs, 2)
}

/// AND, OR or EOR of two numbers.
#[inline(always)]
fn combine(op: LogicOp, left: u32, right: u32) -> u32
    ensures { result ≡ bits_of op left right }
{
    match op {
        LogicOp::And => left & right,
        LogicOp::Or => left | right,
        LogicOp::Eor => left ^ right,
    }
}
