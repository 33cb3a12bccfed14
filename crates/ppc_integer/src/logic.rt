// Logic of words.
ghost use Rattle.std.specs.Prelude.{◌≡◌, ◌^◌, ◌<◌};
ghost use Rattle.ppc_isa.specs.Fields.{fields_of};
ghost use Rattle.ppc_integer.specs.Logical.{combined_immediate, combined_words, records as records_of, unary_of};
ghost use Rattle.ppc_isa.specs.declared.instruction.InstrPpc.TheVariants.{Logical, LogicalImmediate, Unary};
ghost use Rattle.ppc_integer.specs.Alone.{Runs};

use super::ending::finish_result;
use big_memory::Did;
use mix_bits::{Size, sext};
use ppc_isa::{ImmediateOp, LogicalOp, RegsPpc, UnaryOp, a_of, b_of, d_of, is_last, low_of};

/// ori, oris, xori, xoris, andi. and andis.
#[inline(always)]
pub fn logical_immediate(regs: &mut RegsPpc, word: u32, op: ImmediateOp) -> Did
    ensures { let f = fields_of word in Runs (LogicalImmediate op f.a f.d f.low) word result regs.old regs.new }
{
    let value = combine_immediate(op, regs.gpr[d_of(word)], low_of(word));
    finish_result(regs, a_of(word), records(op), value)
}

/// and, or, xor, nand, nor, eqv, andc and orc.
#[inline(always)]
pub fn logical(regs: &mut RegsPpc, word: u32, op: LogicalOp) -> Did
    ensures { let f = fields_of word in Runs (Logical op f.a f.d f.b f.last) word result regs.old regs.new }
{
    match op {
        LogicalOp::And | LogicalOp::Or | LogicalOp::Xor | LogicalOp::Nor => {
            logical_words(regs, word, op)
        }
        _ => logical_apart(regs, word, op),
    }
}

/// The same in a place of its own, for the forms that programs use less.
#[inline(never)]
fn logical_apart(regs: &mut RegsPpc, word: u32, op: LogicalOp) -> Did
    ensures { let f = fields_of word in Runs (Logical op f.a f.d f.b f.last) word result regs.old regs.new }
{
    logical_words(regs, word, op)
}

/// Each of the forms.
#[inline(always)]
fn logical_words(regs: &mut RegsPpc, word: u32, op: LogicalOp) -> Did
    ensures { let f = fields_of word in Runs (Logical op f.a f.d f.b f.last) word result regs.old regs.new }
{
    let value = combine(op, regs.gpr[d_of(word)], regs.gpr[b_of(word)]);
    finish_result(regs, a_of(word), is_last(word), value)
}

/// extsb, extsh and cntlzw.
#[inline(always)]
pub fn unary(regs: &mut RegsPpc, word: u32, op: UnaryOp) -> Did
    ensures { let f = fields_of word in Runs (Unary op f.a f.d f.last) word result regs.old regs.new }
{
    let value = change(op, regs.gpr[d_of(word)]);
    finish_result(regs, a_of(word), is_last(word), value)
}

/// A word combined with sixteen bits, or with these as the upper half of a word.
#[inline(always)]
fn combine_immediate(op: ImmediateOp, s: u32, immediate: u32) -> u32
    requires { immediate < 2 ^ 16 }
    ensures { result ≡ combined_immediate op s immediate }
{
    match op {
        ImmediateOp::Or => s | immediate,
        ImmediateOp::OrShifted => s | (immediate * 0x1_0000),
        ImmediateOp::Xor => s ^ immediate,
        ImmediateOp::XorShifted => s ^ (immediate * 0x1_0000),
        ImmediateOp::And => s & immediate,
        ImmediateOp::AndShifted => s & (immediate * 0x1_0000),
    }
}

/// Whether an operation with sixteen bits records its result.
#[inline(always)]
fn records(op: ImmediateOp) -> bool
    ensures { result ≡ records_of op }
{
    match op {
        ImmediateOp::Or => false,
        ImmediateOp::OrShifted => false,
        ImmediateOp::Xor => false,
        ImmediateOp::XorShifted => false,
        ImmediateOp::And => true,
        ImmediateOp::AndShifted => true,
    }
}

/// Two words combined bit by bit.
#[inline(always)]
fn combine(op: LogicalOp, s: u32, b: u32) -> u32
    ensures { result ≡ combined_words op s b }
{
    match op {
        LogicalOp::And => s & b,
        LogicalOp::Or => s | b,
        LogicalOp::Xor => s ^ b,
        LogicalOp::Nand => !(s & b),
        LogicalOp::Nor => !(s | b),
        LogicalOp::Equivalent => !(s ^ b),
        LogicalOp::AndComplement => s & !b,
        LogicalOp::OrComplement => s | !b,
    }
}

/// A word extended by its sign, or how many zeros it begins with.
#[inline(always)]
fn change(op: UnaryOp, s: u32) -> u32
    ensures { result ≡ unary_of op s }
{
    match op {
        UnaryOp::ExtendSignByte => sext(s, Size::One),
        UnaryOp::ExtendSignHalf => sext(s, Size::Two),
        UnaryOp::CountLeadingZeros => s.leading_zeros(),
    }
}
