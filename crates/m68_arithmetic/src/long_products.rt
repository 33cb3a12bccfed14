// Products and quotients of longs, by the registers that the second word names.
ghost use Rattle.std.specs.Prelude.{◌≡◌, ◌≢◌, ◌+◌, ◌*◌, ◌^◌, ◌<◌, ◌≤◌, slice_index};
ghost use Rattle.mix_bits.specs.Addresses.{onward as onward_of};
ghost use Rattle.mix_bits.specs.declared.size.Size.TheVariants.{Four};
ghost use Rattle.m68_isa.specs.First.{first_of};
ghost use Rattle.m68_isa.specs.Operands.{operand_at};
ghost use Rattle.m68_isa.specs.Products.{high_of as high_of_word, is_signed as is_signed_word, is_wide as is_wide_word, low_of as low_of_word};
ghost use Rattle.big_memory.specs.StepsClauses.{Does};
ghost use Rattle.m68_ea.specs.Words.{words_at};
ghost use Rattle.m68_effects.specs.Arithmetic.{dividend_high as dividend_high_of, long_quotient_into, product_into};
ghost use Rattle.m68_effects.specs.inner.Rows.{div_long as div_long_of, mul_long as mul_long_of};
ghost use Rattle.m68_effects.specs.laws.Operations.{runs_with};
ghost use Rattle.m68_effects.specs.laws.Ops.{by_op};
ghost use Rattle.m68_effects.specs.Parts.{after};
ghost use Rattle.m68_alu.specs.Products.{long_answer, long_divided, long_multiplied};

use big_memory::{Did, Ram, stop};
use m68_alu::{mul_long, signed_long_quotient, unsigned_long_quotient};
use m68_ea::{source, word_at};
use m68_effects::go_on;
use m68_isa::{
    Op68, Regs68, high_of, is_register_word, is_signed, is_wide, low_of, lower_of, mode_of,
};
use mix_bits::{Fault, FaultKind, Size, trunc};

/// mulu.l and muls.l: the product of a data register and an operand, as a long or as two. A data register as the
/// operand is taken here.
#[inline(never)]
pub fn do_mul_long(regs: &mut Regs68, ram: &Ram, fault: &mut Fault, word: u32) -> Did
    ensures { Does (by_op Op68.MulLong regs.old ram.now word) result fault.new regs.old regs.new ram.now ram.now }
{
    let registers = word_at(ram, regs.pc, 1);
    if !is_register_word(registers) {
        stop::<Regs68>(fault, FaultKind::Illegal, regs.pc, word)
    } else if mode_of(word) == 0 {
        let by = trunc(regs.d[lower_of(word)], Size::Four);
        multiply(regs, registers, by, 2)
    } else {
        multiply_by_operand(regs, ram, fault, word, registers)
    }
}

/// The product with an operand of any mode, into the registers that a word names.
#[inline(never)]
fn multiply_by_operand(
    regs: &mut Regs68,
    ram: &Ram,
    fault: &mut Fault,
    word: u32,
    registers: u32,
) -> Did
    ensures { let f = first_of word in
        let by = operand_at (words_at ram.now regs.old.pc) 2 Four f.mode f.lower in
        Does (runs_with regs.old word by (λ next. mul_long_of regs.old ram.now next (is_signed_word registers) (is_wide_word registers) by.ea (high_of_word registers) (low_of_word registers))) result fault.new regs.old regs.new ram.now ram.now }
{
    let (mode, lower) = (mode_of(word), lower_of(word));
    let mut next = 2;
    let Some(by) = source(regs, ram, fault, word, &mut next, Size::Four, mode, lower) else {
        return Did::Stop;
    };
    multiply(regs, registers, by, next)
}

/// The product with a number, by an instruction of so many words.
#[inline(always)]
fn multiply(regs: &mut Regs68, registers: u32, by: u32, words: u32) -> Did
    requires { words ≤ 5 }
    ensures next { result ≡ Did.Next }
    ensures registers { let out = long_multiplied (is_signed_word registers) (is_wide_word registers) (slice_index regs.old.d (low_of_word registers)) by regs.old.ccr in
        regs.new ≡ record (product_into regs.old (is_wide_word registers) (high_of_word registers) (low_of_word registers) out) { pc = onward_of regs.old.pc (2 * words) } }
{
    let (high, low) = (high_of(registers), low_of(registers));
    let is_wide = is_wide(registers);
    let out = mul_long(is_signed(registers), is_wide, regs.d[low], by, regs.ccr);
    if is_wide {
        regs.d[high] = out.high;
    }
    regs.d[low] = out.low;
    regs.ccr = out.ccr;
    go_on(regs, words)
}

/// divu.l and divs.l: the quotient and the remainder of a data register, or of two, by an operand. A data register
/// as the operand is taken here, unless it is 0.
#[inline(never)]
pub fn do_div_long(regs: &mut Regs68, ram: &Ram, fault: &mut Fault, word: u32) -> Did
    ensures { Does (by_op Op68.DivLong regs.old ram.now word) result fault.new regs.old regs.new ram.now ram.now }
{
    let registers = word_at(ram, regs.pc, 1);
    if !is_register_word(registers) {
        stop::<Regs68>(fault, FaultKind::Illegal, regs.pc, word)
    } else {
        let by = trunc(regs.d[lower_of(word)], Size::Four);
        if mode_of(word) == 0 && by != 0 {
            divide(regs, ram, fault, registers, by, 2)
        } else {
            divide_by_operand(regs, ram, fault, word, registers)
        }
    }
}

/// The quotient by an operand of any mode, into the registers that a word names.
#[inline(never)]
fn divide_by_operand(
    regs: &mut Regs68,
    ram: &Ram,
    fault: &mut Fault,
    word: u32,
    registers: u32,
) -> Did
    ensures { let f = first_of word in
        let by = operand_at (words_at ram.now regs.old.pc) 2 Four f.mode f.lower in
        Does (runs_with regs.old word by (λ next. div_long_of regs.old ram.now next (is_signed_word registers) (is_wide_word registers) by.ea (high_of_word registers) (low_of_word registers))) result fault.new regs.old regs.new ram.now ram.now }
{
    let (mode, lower) = (mode_of(word), lower_of(word));
    let before = regs.a[lower];
    let mut next = 2;
    let Some(by) = source(regs, ram, fault, word, &mut next, Size::Four, mode, lower) else {
        return Did::Stop;
    };
    if by == 0 {
        regs.a[lower] = before;
        return stop::<Regs68>(fault, FaultKind::Vector, regs.pc, 5);
    }
    divide(regs, ram, fault, registers, by, next)
}

/// The remainder and then the quotient by a number that is not 0, by an instruction of so many words.
#[inline(always)]
fn divide(
    regs: &mut Regs68,
    ram: &Ram,
    fault: &mut Fault,
    registers: u32,
    by: u32,
    words: u32,
) -> Did
    requires words { words ≤ 5 }
    requires some { by ≢ 0 }
    ensures { let high = high_of_word registers in
        let low = low_of_word registers in
        let above = dividend_high_of (is_signed_word registers) (is_wide_word registers) (slice_index regs.old.d high) (slice_index regs.old.d low) in
        Does (after (long_quotient_into regs.old ram.now (onward_of regs.old.pc (2 * words)) high low (long_divided (is_signed_word registers) above (slice_index regs.old.d low) by regs.old.ccr))) result fault.new regs.old regs.new ram.now ram.now }
{
    let (high, low) = (high_of(registers), low_of(registers));
    let is_signed = is_signed(registers);
    let dividend = dividend(is_signed, is_wide(registers), regs.d[high], regs.d[low]);
    if is_signed {
        let quotient = signed_long_quotient(dividend, by);
        take_quotient(regs, ram, fault, high, low, quotient, words)
    } else {
        let quotient = unsigned_long_quotient(dividend, by);
        take_quotient(regs, ram, fault, high, low, quotient, words)
    }
}

/// Writes the remainder and then the quotient, with its flags, or lets these tell that it is no long.
#[inline(always)]
fn take_quotient(
    regs: &mut Regs68,
    ram: &Ram,
    fault: &mut Fault,
    high: usize,
    low: usize,
    quotient: Option<(u32, u32)>,
    words: u32,
) -> Did
    requires high { high < 8 }
    requires low { low < 8 }
    requires words { words ≤ 5 }
    ensures { Does (after (long_quotient_into regs.old ram.now (onward_of regs.old.pc (2 * words)) high low (long_answer regs.old.ccr quotient))) result fault.new regs.old regs.new ram.now ram.now }
{
    match quotient {
        None => {
            regs.ccr.v = true;
            regs.ccr.c = false;
        }
        Some((quotient, remainder)) => {
            regs.d[high] = remainder;
            regs.d[low] = quotient;
            regs.ccr.n = quotient >= 0x8000_0000;
            regs.ccr.z = quotient == 0;
            regs.ccr.v = false;
            regs.ccr.c = false;
        }
    }
    go_on(regs, words)
}

/// The 64 bits of a dividend: two registers, or one with its sign or with zeros above it.
#[inline(always)]
fn dividend(is_signed: bool, is_wide: bool, high: u32, low: u32) -> u64
    ensures { result ≡ dividend_high_of is_signed is_wide high low * 2 ^ 32 + low }
{
    if is_wide {
        u64::from(high) * 0x1_0000_0000 + u64::from(low)
    } else if is_signed {
        i64::from(low.cast_signed()).cast_unsigned()
    } else {
        u64::from(low)
    }
}
