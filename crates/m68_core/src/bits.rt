// Single bits: BTST, BCHG, BCLR and BSET.
ghost use Rattle.std.specs.Prelude.{◌≡◌, ◌<◌};
ghost use Rattle.mix_bits.specs.declared.size.Size.TheVariants.{One, Four};
ghost use Rattle.m68_isa.specs.First.{first_of};
ghost use Rattle.m68_isa.specs.laws.Fits.{Fits, IsBitChangeable, IsChangeable};
ghost use Rattle.m68_isa.specs.Immediates.{bit_op};
ghost use Rattle.m68_isa.specs.Operands.{operand_at};
ghost use Rattle.big_memory.specs.StepsClauses.{Does};
ghost use Rattle.m68_effects.specs.laws.Tried.{Tries};
ghost use Rattle.m68_ea.specs.Words.{words_at};
ghost use Rattle.m68_effects.specs.Bits.{bit_by_number as by_number, bit_changed, bit_done, bit_flags, bit_result as result_of};
ghost use Rattle.m68_effects.specs.inner.Rows.{bit_tested};
ghost use Rattle.m68_effects.specs.laws.Operations.{runs_with};
ghost use Rattle.m68_effects.specs.laws.Ops.{by_op};
ghost use Rattle.m68_effects.specs.Parts.{changed};

use big_memory::{Did, Ram};
use m68_ea::{find, find_usual, put, put_usual, source, usual_source, value, word_at};
use m68_effects::go_on;
use m68_isa::{BitOp, Ccr, Op68, Regs68, bit_op_of, lower_of, mode_of, upper_of};
use mix_bits::{Fault, Size, digit, with_digit};

/// btst, bchg, bclr and bset of the bit with the number in the second word.
#[inline(never)]
pub fn do_bit_by_number(regs: &mut Regs68, ram: &mut Ram, fault: &mut Fault, word: u32) -> Did
    requires { Fits Op68.BitByNumber word }
    ensures { Does (by_op Op68.BitByNumber regs.old ram.old word) result fault.new regs.old regs.new ram.old ram.new }
{
    let number = word_at(ram, regs.pc, 1) % 256;
    on_bit(regs, ram, fault, word, 2, number)
}

/// The same of the bit with the number in a data register.
#[inline(never)]
pub fn do_bit_by_register(regs: &mut Regs68, ram: &mut Ram, fault: &mut Fault, word: u32) -> Did
    requires { Fits Op68.BitByRegister word }
    ensures { Does (by_op Op68.BitByRegister regs.old ram.old word) result fault.new regs.old regs.new ram.old ram.new }
{
    let number = regs.d[upper_of(word)];
    on_bit(regs, ram, fault, word, 1, number)
}

/// The operation on the bit with a number, of a long in a data register or of a byte in another operand,
/// whose words begin with word `first`. The number is taken modulo the bits that there are.
#[inline(always)]
fn on_bit(
    regs: &mut Regs68,
    ram: &mut Ram,
    fault: &mut Fault,
    word: u32,
    first: u32,
    number: u32,
) -> Did
    requires first { first < 4 }
    requires changeable { IsBitChangeable word }
    ensures { let to = operand_at (words_at ram.old regs.old.pc) first One (first_of word).mode (first_of word).lower in
        Does (runs_with regs.old word to (λ next. by_number regs.old ram.old next (bit_op (first_of word).size) number to.ea)) result fault.new regs.old regs.new ram.old ram.new }
{
    if mode_of(word) == 0 {
        on_register(regs, ram, fault, word, first, number % 32)
    } else {
        on_byte(regs, ram, fault, word, first, number % 8)
    }
}

/// The operation on bit `at` of a data register.
#[inline(always)]
fn on_register(
    regs: &mut Regs68,
    ram: &Ram,
    fault: &mut Fault,
    word: u32,
    first: u32,
    at: u32,
) -> Did
    requires first { first < 4 }
    requires at { at < 32 }
    requires register { (first_of word).mode ≡ 0 }
    ensures { let to = operand_at (words_at ram.now regs.old.pc) first Four (first_of word).mode (first_of word).lower in
        Does (runs_with regs.old word to (λ next. bit_done regs.old ram.now next (bit_op (first_of word).size) Four at to.ea)) result fault.new regs.old regs.new ram.now ram.now }
{
    match bit_op_of(word) {
        BitOp::Btst => test_register(regs, ram, fault, word, first, at),
        BitOp::Bchg => change_register(regs, ram, fault, word, BitOp::Bchg, first, at),
        BitOp::Bclr => change_register(regs, ram, fault, word, BitOp::Bclr, first, at),
        BitOp::Bset => change_register(regs, ram, fault, word, BitOp::Bset, first, at),
    }
}

/// The flag of bit `at` of a data register.
#[inline(always)]
fn test_register(
    regs: &mut Regs68,
    ram: &Ram,
    fault: &mut Fault,
    word: u32,
    first: u32,
    at: u32,
) -> Did
    requires first { first < 4 }
    requires at { at < 32 }
    requires register { (first_of word).mode ≡ 0 }
    ensures { let of = operand_at (words_at ram.now regs.old.pc) first Four (first_of word).mode (first_of word).lower in
        Does (runs_with regs.old word of (λ next. bit_tested regs.old ram.now next Four at of.ea)) result fault.new regs.old regs.new ram.now ram.now }
{
    set_flag(&mut regs.ccr, regs.d[lower_of(word)], at);
    go_on(regs, first)
}

/// The flag of bit `at` of a data register, where the operation's bit is put.
#[inline(always)]
fn change_register(
    regs: &mut Regs68,
    ram: &Ram,
    fault: &mut Fault,
    word: u32,
    op: BitOp,
    first: u32,
    at: u32,
) -> Did
    requires first { first < 4 }
    requires at { at < 32 }
    requires register { (first_of word).mode ≡ 0 }
    ensures { let to = operand_at (words_at ram.now regs.old.pc) first Four (first_of word).mode (first_of word).lower in
        Does (runs_with regs.old word to (λ next. changed regs.old ram.now next Four to.ea (λ d. result_of op regs.old.ccr d at))) result fault.new regs.old regs.new ram.now ram.now }
{
    let lower = lower_of(word);
    let old = regs.d[lower];
    regs.d[lower] = with_bit(op, old, at);
    set_flag(&mut regs.ccr, old, at);
    go_on(regs, first)
}

/// The operation on bit `at` of a byte that is no data register's: memory of a usual mode is tried first.
#[inline(never)]
fn on_byte(
    regs: &mut Regs68,
    ram: &mut Ram,
    fault: &mut Fault,
    word: u32,
    first: u32,
    at: u32,
) -> Did
    requires first { first < 4 }
    requires at { at < 8 }
    requires changeable { IsBitChangeable word }
    ensures { let to = operand_at (words_at ram.old regs.old.pc) first One (first_of word).mode (first_of word).lower in
        Does (runs_with regs.old word to (λ next. bit_done regs.old ram.old next (bit_op (first_of word).size) One at to.ea)) result fault.new regs.old regs.new ram.old ram.new }
{
    if on_usual(regs, ram, word, first, at) {
        Did::Next
    } else {
        on_other(regs, ram, fault, word, first, at)
    }
}

/// Tries the operation on bit `at` of a byte in memory of a usual mode, and tells whether it is done.
#[inline(always)]
fn on_usual(regs: &mut Regs68, ram: &mut Ram, word: u32, first: u32, at: u32) -> bool
    requires first { first < 4 }
    requires at { at < 8 }
    ensures { let to = operand_at (words_at ram.old regs.old.pc) first One (first_of word).mode (first_of word).lower in
        Tries (runs_with regs.old word to (λ next. bit_done regs.old ram.old next (bit_op (first_of word).size) One at to.ea)) result regs.old regs.new ram.old ram.new }
{
    match bit_op_of(word) {
        BitOp::Btst => test_usual(regs, ram, word, first, at),
        BitOp::Bchg => change_usual(regs, ram, word, BitOp::Bchg, first, at),
        BitOp::Bclr => change_usual(regs, ram, word, BitOp::Bclr, first, at),
        BitOp::Bset => change_usual(regs, ram, word, BitOp::Bset, first, at),
    }
}

/// The flag of bit `at` of such a byte.
#[inline(always)]
fn test_usual(regs: &mut Regs68, ram: &Ram, word: u32, first: u32, at: u32) -> bool
    requires first { first < 4 }
    requires at { at < 8 }
    ensures { let of = operand_at (words_at ram.now regs.old.pc) first One (first_of word).mode (first_of word).lower in
        Tries (runs_with regs.old word of (λ next. bit_tested regs.old ram.now next One at of.ea)) result regs.old regs.new ram.now ram.now }
{
    let mut next = first;
    let Some(old) = usual_source(
        regs,
        ram,
        &mut next,
        Size::One,
        mode_of(word),
        lower_of(word),
    ) else {
        return false;
    };
    set_flag(&mut regs.ccr, old, at);
    go_on(regs, next);
    true
}

/// The flag of bit `at` of such a byte, where the operation's bit is put.
#[inline(always)]
fn change_usual(regs: &mut Regs68, ram: &mut Ram, word: u32, op: BitOp, first: u32, at: u32) -> bool
    requires first { first < 4 }
    requires at { at < 8 }
    ensures { let to = operand_at (words_at ram.old regs.old.pc) first One (first_of word).mode (first_of word).lower in
        Tries (runs_with regs.old word to (λ next. changed regs.old ram.old next One to.ea (λ d. result_of op regs.old.ccr d at))) result regs.old regs.new ram.old ram.new }
{
    let lower = lower_of(word);
    let Some((to, old)) = find_usual(regs, ram, first, Size::One, mode_of(word), lower) else {
        return false;
    };
    if !put_usual(regs, ram, to, lower, Size::One, with_bit(op, old, at)) {
        return false;
    }
    set_flag(&mut regs.ccr, old, at);
    go_on(regs, to.next);
    true
}

/// The operation on bit `at` of any such byte.
#[inline(never)]
fn on_other(
    regs: &mut Regs68,
    ram: &mut Ram,
    fault: &mut Fault,
    word: u32,
    first: u32,
    at: u32,
) -> Did
    requires first { first < 4 }
    requires at { at < 8 }
    requires changeable { IsBitChangeable word }
    ensures { let to = operand_at (words_at ram.old regs.old.pc) first One (first_of word).mode (first_of word).lower in
        Does (runs_with regs.old word to (λ next. bit_done regs.old ram.old next (bit_op (first_of word).size) One at to.ea)) result fault.new regs.old regs.new ram.old ram.new }
{
    match bit_op_of(word) {
        BitOp::Btst => test(regs, ram, fault, word, first, Size::One, at),
        BitOp::Bchg => change(regs, ram, fault, word, BitOp::Bchg, first, Size::One, at),
        BitOp::Bclr => change(regs, ram, fault, word, BitOp::Bclr, first, Size::One, at),
        BitOp::Bset => change(regs, ram, fault, word, BitOp::Bset, first, Size::One, at),
    }
}

/// The flag of bit `at` of an operand.
#[inline(always)]
fn test(
    regs: &mut Regs68,
    ram: &Ram,
    fault: &mut Fault,
    word: u32,
    first: u32,
    size: Size,
    at: u32,
) -> Did
    requires first { first < 4 }
    requires at { at < 32 }
    ensures { let of = operand_at (words_at ram.now regs.old.pc) first size (first_of word).mode (first_of word).lower in
        Does (runs_with regs.old word of (λ next. bit_tested regs.old ram.now next size at of.ea)) result fault.new regs.old regs.new ram.now ram.now }
{
    let (mode, lower) = (mode_of(word), lower_of(word));
    let mut next = first;
    let Some(old) = source(regs, ram, fault, word, &mut next, size, mode, lower) else {
        return Did::Stop;
    };
    set_flag(&mut regs.ccr, old, at);
    go_on(regs, next)
}

/// The flag of bit `at` of an operand, where the operation's bit is put.
#[inline(always)]
fn change(
    regs: &mut Regs68,
    ram: &mut Ram,
    fault: &mut Fault,
    word: u32,
    op: BitOp,
    first: u32,
    size: Size,
    at: u32,
) -> Did
    requires first { first < 4 }
    requires at { at < 32 }
    requires changeable { IsChangeable word }
    ensures { let to = operand_at (words_at ram.old regs.old.pc) first size (first_of word).mode (first_of word).lower in
        Does (runs_with regs.old word to (λ next. changed regs.old ram.old next size to.ea (λ d. result_of op regs.old.ccr d at))) result fault.new regs.old regs.new ram.old ram.new }
{
    let (mode, lower) = (mode_of(word), lower_of(word));
    let mut next = first;
    let Some(to) = find(regs, ram, fault, word, &mut next, size, mode, lower) else {
        return Did::Stop;
    };
    let Some(old) = value(regs, ram, fault, to, size) else {
        return Did::Stop;
    };
    if !put(regs, ram, fault, to, size, with_bit(op, old, at)) {
        return Did::Stop;
    }
    set_flag(&mut regs.ccr, old, at);
    go_on(regs, next)
}

/// Sets Z where the bit is 0; no other flag changes.
#[inline(always)]
fn set_flag(ccr: &mut Ccr, v: u32, at: u32)
    requires { at < 32 }
    ensures { ccr.new ≡ bit_flags ccr.old v at }
{
    ccr.z = digit(v, at, 1) == 0;
}

/// A value with the operation's bit: the same, the other one, 0 or 1.
#[inline(always)]
fn with_bit(op: BitOp, v: u32, at: u32) -> u32
    requires { at < 32 }
    ensures { result ≡ bit_changed op v at }
{
    match op {
        BitOp::Btst => v,
        BitOp::Bchg => with_digit(v, at, 1, 1 - digit(v, at, 1)),
        BitOp::Bclr => with_digit(v, at, 1, 0),
        BitOp::Bset => with_digit(v, at, 1, 1),
    }
}
