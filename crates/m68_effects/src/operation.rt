ghost use Rattle.std.specs.Prelude.{◌≡◌, ◌≢◌};
ghost use Rattle.mix_bits.specs.declared.size.Size.TheVariants.{Zero};
ghost use Rattle.m68_effects.specs.Logic.{complement as complement_of};
ghost use Rattle.m68_effects.specs.Operations.{result_of};

use m68_alu::{Out, abcd, add, addx, logic, result_flags, sbcd, set_result_flags, sub, subx};
use m68_isa::{Ccr, LogicOp};
use mix_bits::{Size, trunc};

/// What is done with a destination and a source; the negations and NOT have no source.
#[derive(Clone, Copy)]
pub enum Operation {
    Add,
    Addx,
    Sub,
    Subx,
    Neg,
    Negx,
    Abcd,
    Sbcd,
    Nbcd,
    And,
    Or,
    Eor,
    Not,
}

/// The result of an operation, and its flags. Decimal digits are those of a byte.
#[inline(always)]
pub fn apply(op: Operation, size: Size, destination: u32, source: u32, old: Ccr) -> Out
    requires { size ≢ Zero }
    ensures { result ≡ result_of op size old destination source }
{
    match op {
        Operation::Add => add(size, destination, source, old),
        Operation::Addx => addx(size, destination, source, old),
        Operation::Sub => sub(size, destination, source, old),
        Operation::Subx => subx(size, destination, source, old),
        Operation::Neg => sub(size, 0, destination, old),
        Operation::Negx => subx(size, 0, destination, old),
        Operation::Abcd => abcd(destination, source, old),
        Operation::Sbcd => sbcd(destination, source, old),
        Operation::Nbcd => sbcd(0, destination, old),
        Operation::And => logic(LogicOp::And, size, destination, source, old),
        Operation::Or => logic(LogicOp::Or, size, destination, source, old),
        Operation::Eor => logic(LogicOp::Eor, size, destination, source, old),
        Operation::Not => complement(size, destination, old),
    }
}

/// Sets the flags that an operation gives. X is left where it stands by the operations that don't change it.
#[inline(always)]
pub fn set_flags(ccr: &mut Ccr, op: Operation, size: Size, destination: u32, source: u32)
    requires { size ≢ Zero }
    ensures { ccr.new ≡ (result_of op size ccr.old destination source).ccr }
{
    let out = apply(op, size, destination, source, *ccr);
    match op {
        Operation::And => set_result_flags(ccr, size, out.value),
        Operation::Or => set_result_flags(ccr, size, out.value),
        Operation::Eor => set_result_flags(ccr, size, out.value),
        Operation::Not => set_result_flags(ccr, size, out.value),
        _ => *ccr = out.ccr,
    }
}

/// The ones complement of the low bytes of a value.
#[inline(always)]
fn complement(size: Size, destination: u32, old: Ccr) -> Out
    requires { size ≢ Zero }
    ensures { result ≡ complement_of size old destination }
{
    let value = trunc(!destination, size);
    Out {
        value,
        ccr: result_flags(size, value, old),
    }
}
