// Sums, differences, products and quotients.
ghost use Rattle.std.specs.Prelude.{◌≡◌, ◌/◌, ◌==◌};
ghost use Rattle.ppc_isa.specs.Fields.{fields_of};
ghost use Rattle.ppc_alu.specs.Outcomes.{added};
ghost use Rattle.ppc_integer.specs.File.{gpr_of};
ghost use Rattle.ppc_integer.specs.Arithmetic.{carry_into as carry_into_of, operand_of, sets_ca as sets_ca_of, with_arith};
ghost use Rattle.ppc_isa.specs.declared.instruction.InstrPpc.TheVariants.{Add, AddExtended, AddImmediate, AddImmediateCarrying, Divide, MultiplyLowImmediate, Negate, SubtractFrom, SubtractFromExtended, SubtractFromImmediateCarrying, Multiply};
ghost use Rattle.ppc_isa.specs.declared.instruction.Multiplication.TheVariants.{MultiplyHigh, MultiplyLow};
ghost use Rattle.ppc_integer.specs.AloneClauses.{Ends};
ghost use Rattle.ppc_integer.specs.Alone.{Runs};

use super::addresses::base;
use super::ending::{finish, finish_carrying, finish_overflow, finish_result};
use super::xer::xer_ca;
use big_memory::Did;
use mix_bits::onward;
use ppc_alu::{add3, divide, mul_high, mul_low};
use ppc_isa::{
    CarryUse, ExtendedOperand, RegsPpc, a_of, b_of, d_of, is_last, is_overflow, low_of, offset_of,
};

/// add, addc and adde.
#[inline(always)]
pub fn add(regs: &mut RegsPpc, word: u32, carry: CarryUse) -> Did
    ensures { let f = fields_of word in Runs (Add carry f.d f.a f.b ((f.xo / 512) == 1) f.last) word result regs.old regs.new }
{
    let a = regs.gpr[a_of(word)];
    sum(regs, word, carry, a, false)
}

/// subf, subfc and subfe: a difference is the sum of the complement of A, B and a carry.
#[inline(always)]
pub fn subtract_from(regs: &mut RegsPpc, word: u32, carry: CarryUse) -> Did
    ensures { let f = fields_of word in Runs (SubtractFrom carry f.d f.a f.b ((f.xo / 512) == 1) f.last) word result regs.old regs.new }
{
    let a = !regs.gpr[a_of(word)];
    sum(regs, word, carry, a, true)
}

/// The sum of a word, register B and CA, or in place of CA the carry of the forms that do not take it.
#[inline(always)]
fn sum(regs: &mut RegsPpc, word: u32, carry: CarryUse, a: u32, other: bool) -> Did
    ensures { let f = fields_of word in Ends (with_arith regs.old f.d (sets_ca_of carry) ((f.xo / 512) == 1) f.last (added a (gpr_of regs.old f.b) (carry_into_of regs.old carry other))) result regs.new }
{
    match carry {
        CarryUse::Plain if !is_overflow(word) && !is_last(word) => {
            let outcome = add3(a, regs.gpr[b_of(word)], other);
            finish_result(regs, d_of(word), false, outcome.value)
        }
        _ => sum_apart(regs, word, carry, a, other),
    }
}

/// The same in a place of its own, also for the forms that set CA, OV or the condition register.
#[inline(never)]
fn sum_apart(regs: &mut RegsPpc, word: u32, carry: CarryUse, a: u32, other: bool) -> Did
    ensures { let f = fields_of word in Ends (with_arith regs.old f.d (sets_ca_of carry) ((f.xo / 512) == 1) f.last (added a (gpr_of regs.old f.b) (carry_into_of regs.old carry other))) result regs.new }
{
    let outcome = add3(a, regs.gpr[b_of(word)], carry_into(regs, carry, other));
    finish_overflow(regs, word, sets_ca(carry), outcome)
}

/// addze and addme.
#[inline(never)]
pub fn add_extended(regs: &mut RegsPpc, word: u32, operand: ExtendedOperand) -> Did
    ensures { let f = fields_of word in Runs (AddExtended operand f.d f.a ((f.xo / 512) == 1) f.last) word result regs.old regs.new }
{
    let outcome = add3(regs.gpr[a_of(word)], number_of(operand), xer_ca(regs.xer));
    finish_overflow(regs, word, true, outcome)
}

/// subfze and subfme.
#[inline(never)]
pub fn subtract_from_extended(regs: &mut RegsPpc, word: u32, operand: ExtendedOperand) -> Did
    ensures { let f = fields_of word in Runs (SubtractFromExtended operand f.d f.a ((f.xo / 512) == 1) f.last) word result regs.old regs.new }
{
    let outcome = add3(!regs.gpr[a_of(word)], number_of(operand), xer_ca(regs.xer));
    finish_overflow(regs, word, true, outcome)
}

/// neg.
#[inline(never)]
pub fn negate(regs: &mut RegsPpc, word: u32) -> Did
    ensures { let f = fields_of word in Runs (Negate f.d f.a ((f.xo / 512) == 1) f.last) word result regs.old regs.new }
{
    let outcome = add3(!regs.gpr[a_of(word)], 0, true);
    finish_overflow(regs, word, false, outcome)
}

/// mullw.
#[inline(never)]
pub fn multiply_low(regs: &mut RegsPpc, word: u32) -> Did
    ensures { let f = fields_of word in Runs (Multiply (MultiplyLow f.d f.a f.b ((f.xo / 512) == 1) f.last)) word result regs.old regs.new }
{
    let outcome = mul_low(regs.gpr[a_of(word)], regs.gpr[b_of(word)]);
    finish_overflow(regs, word, false, outcome)
}

/// mulhw and mulhwu.
#[inline(never)]
pub fn multiply_high(regs: &mut RegsPpc, word: u32, signed: bool) -> Did
    ensures { let f = fields_of word in Runs (Multiply (MultiplyHigh signed f.d f.a f.b f.last)) word result regs.old regs.new }
{
    let high = mul_high(signed, regs.gpr[a_of(word)], regs.gpr[b_of(word)]);
    finish_result(regs, d_of(word), is_last(word), high)
}

/// divw and divwu.
#[inline(never)]
pub fn divide_words(regs: &mut RegsPpc, word: u32, signed: bool) -> Did
    ensures { let f = fields_of word in Runs (Divide signed f.d f.a f.b ((f.xo / 512) == 1) f.last) word result regs.old regs.new }
{
    let outcome = divide(signed, regs.gpr[a_of(word)], regs.gpr[b_of(word)]);
    finish_overflow(regs, word, false, outcome)
}

/// addi and addis.
#[inline(always)]
pub fn add_immediate(regs: &mut RegsPpc, word: u32, shifted: bool) -> Did
    ensures { let f = fields_of word in Runs (AddImmediate shifted f.d f.a f.low) word result regs.old regs.new }
{
    let immediate = if shifted {
        low_of(word) * 0x1_0000
    } else {
        offset_of(word)
    };
    let sum = onward(base(regs, a_of(word)), immediate);
    regs.gpr[d_of(word)] = sum;
    finish(regs)
}

/// addic, and addic. with `rc`.
#[inline(never)]
pub fn add_immediate_carrying(regs: &mut RegsPpc, word: u32, rc: bool) -> Did
    ensures { let f = fields_of word in Runs (AddImmediateCarrying rc f.d f.a f.low) word result regs.old regs.new }
{
    let sum = add3(regs.gpr[a_of(word)], offset_of(word), false);
    finish_carrying(regs, d_of(word), rc, sum)
}

/// subfic.
#[inline(never)]
pub fn subtract_from_immediate_carrying(regs: &mut RegsPpc, word: u32) -> Did
    ensures { let f = fields_of word in Runs (SubtractFromImmediateCarrying f.d f.a f.low) word result regs.old regs.new }
{
    let sum = add3(!regs.gpr[a_of(word)], offset_of(word), true);
    finish_carrying(regs, d_of(word), false, sum)
}

/// mulli.
#[inline(always)]
pub fn multiply_low_immediate(regs: &mut RegsPpc, word: u32) -> Did
    ensures { let f = fields_of word in Runs (MultiplyLowImmediate f.d f.a f.low) word result regs.old regs.new }
{
    let product = mul_low(regs.gpr[a_of(word)], offset_of(word));
    regs.gpr[d_of(word)] = product.value;
    finish(regs)
}

/// The carry into a sum: CA for the extended forms, else what the operation takes.
#[inline(always)]
fn carry_into(regs: &RegsPpc, carry: CarryUse, other: bool) -> bool
    ensures { result ≡ carry_into_of regs.now carry other }
{
    match carry {
        CarryUse::Extended => xer_ca(regs.xer),
        CarryUse::Plain => other,
        CarryUse::Carrying => other,
    }
}

/// Whether a sum sets CA.
#[inline(always)]
fn sets_ca(carry: CarryUse) -> bool
    ensures { result ≡ sets_ca_of carry }
{
    match carry {
        CarryUse::Plain => false,
        CarryUse::Carrying => true,
        CarryUse::Extended => true,
    }
}

/// The second operand of an extended form.
#[inline(always)]
fn number_of(operand: ExtendedOperand) -> u32
    ensures { result ≡ operand_of operand }
{
    match operand {
        ExtendedOperand::Zero => 0,
        ExtendedOperand::MinusOne => u32::MAX,
    }
}
