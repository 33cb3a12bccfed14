// Products, quotients, and the test against a bound.
ghost use Rattle.std.specs.Prelude.{◌≡◌, FitsSigned};
ghost use Rattle.std.specs.Int.{w32};
ghost use Rattle.mix_bits.specs.Sizes.{signed_of};
ghost use Rattle.mix_bits.specs.declared.size.Size.TheVariants.{Two};
ghost use Rattle.m68_isa.specs.First.{first_of};
ghost use Rattle.m68_isa.specs.Operands.{operand_at};
ghost use Rattle.big_memory.specs.StepsClauses.{Does};
ghost use Rattle.m68_ea.specs.Words.{words_at};
ghost use Rattle.m68_effects.specs.Arithmetic.{is_out as is_out_of};
ghost use Rattle.m68_effects.specs.inner.Rows.{div, mul};
ghost use Rattle.m68_effects.specs.laws.Operations.{runs_with};
ghost use Rattle.m68_effects.specs.laws.Ops.{by_op};

use big_memory::{Did, Ram, stop};
use m68_alu::{Quotient, div, mul};
use m68_ea::source;
use m68_effects::go_on;
use m68_isa::{Ccr, Op68, Regs68, lower_of, mode_of, upper_of};
use mix_bits::{Fault, FaultKind, Size, sext, trunc};

/// mulu: a long of two words without signs.
#[inline(never)]
pub fn do_mulu(regs: &mut Regs68, ram: &Ram, fault: &mut Fault, word: u32) -> Did
    ensures { Does (by_op Op68.Mulu regs.old ram.now word) result fault.new regs.old regs.new ram.now ram.now }
{
    if mode_of(word) == 0 {
        multiply_register(regs, ram, fault, word, false)
    } else {
        mulu_by_any(regs, ram, fault, word)
    }
}

/// mulu by an operand of any mode.
#[inline(never)]
fn mulu_by_any(regs: &mut Regs68, ram: &Ram, fault: &mut Fault, word: u32) -> Did
    ensures { Does (by_op Op68.Mulu regs.old ram.now word) result fault.new regs.old regs.new ram.now ram.now }
{
    multiply(regs, ram, fault, word, false)
}

/// muls: a long of two words with signs.
#[inline(never)]
pub fn do_muls(regs: &mut Regs68, ram: &Ram, fault: &mut Fault, word: u32) -> Did
    ensures { Does (by_op Op68.Muls regs.old ram.now word) result fault.new regs.old regs.new ram.now ram.now }
{
    if mode_of(word) == 0 {
        multiply_register(regs, ram, fault, word, true)
    } else {
        muls_by_any(regs, ram, fault, word)
    }
}

/// muls by an operand of any mode.
#[inline(never)]
fn muls_by_any(regs: &mut Regs68, ram: &Ram, fault: &mut Fault, word: u32) -> Did
    ensures { Does (by_op Op68.Muls regs.old ram.now word) result fault.new regs.old regs.new ram.now ram.now }
{
    multiply(regs, ram, fault, word, true)
}

/// The product of the low words of two data registers, into the first.
#[inline(always)]
fn multiply_register(
    regs: &mut Regs68,
    ram: &Ram,
    fault: &mut Fault,
    word: u32,
    is_signed: bool,
) -> Did
    requires { (first_of word).mode ≡ 0 }
    ensures { let f = first_of word in
        let by = operand_at (words_at ram.now regs.old.pc) 1 Two f.mode f.lower in
        Does (runs_with regs.old word by (λ next. mul regs.old ram.now next is_signed by.ea f.upper)) result fault.new regs.old regs.new ram.now ram.now }
{
    let (lower, upper) = (lower_of(word), upper_of(word));
    let by = trunc(regs.d[lower], Size::Two);
    let out = mul(is_signed, regs.d[upper], by, regs.ccr);
    regs.d[upper] = out.value;
    regs.ccr = out.ccr;
    go_on(regs, 1)
}

/// The product of a data register's low word and an operand, into the register.
#[inline(always)]
fn multiply(regs: &mut Regs68, ram: &Ram, fault: &mut Fault, word: u32, is_signed: bool) -> Did
    ensures { let f = first_of word in
        let by = operand_at (words_at ram.now regs.old.pc) 1 Two f.mode f.lower in
        Does (runs_with regs.old word by (λ next. mul regs.old ram.now next is_signed by.ea f.upper)) result fault.new regs.old regs.new ram.now ram.now }
{
    let (mode, lower, upper) = (mode_of(word), lower_of(word), upper_of(word));
    let mut next = 1;
    let Some(by) = source(regs, ram, fault, word, &mut next, Size::Two, mode, lower) else {
        return Did::Stop;
    };
    let out = mul(is_signed, regs.d[upper], by, regs.ccr);
    regs.d[upper] = out.value;
    regs.ccr = out.ccr;
    go_on(regs, next)
}

/// divu: a long by a word, without signs.
#[inline(never)]
pub fn do_divu(regs: &mut Regs68, ram: &Ram, fault: &mut Fault, word: u32) -> Did
    ensures { Does (by_op Op68.Divu regs.old ram.now word) result fault.new regs.old regs.new ram.now ram.now }
{
    if mode_of(word) == 0 {
        divide_by_register(regs, ram, fault, word, false)
    } else {
        divu_by_any(regs, ram, fault, word)
    }
}

/// divu by an operand of any mode.
#[inline(never)]
fn divu_by_any(regs: &mut Regs68, ram: &Ram, fault: &mut Fault, word: u32) -> Did
    ensures { Does (by_op Op68.Divu regs.old ram.now word) result fault.new regs.old regs.new ram.now ram.now }
{
    divide(regs, ram, fault, word, false)
}

/// divs: a long by a word, with signs.
#[inline(never)]
pub fn do_divs(regs: &mut Regs68, ram: &Ram, fault: &mut Fault, word: u32) -> Did
    ensures { Does (by_op Op68.Divs regs.old ram.now word) result fault.new regs.old regs.new ram.now ram.now }
{
    if mode_of(word) == 0 {
        divide_by_register(regs, ram, fault, word, true)
    } else {
        divs_by_any(regs, ram, fault, word)
    }
}

/// divs by an operand of any mode.
#[inline(never)]
fn divs_by_any(regs: &mut Regs68, ram: &Ram, fault: &mut Fault, word: u32) -> Did
    ensures { Does (by_op Op68.Divs regs.old ram.now word) result fault.new regs.old regs.new ram.now ram.now }
{
    divide(regs, ram, fault, word, true)
}

/// The quotient and the remainder of a data register by another one's low word, into the register.
#[inline(always)]
fn divide_by_register(
    regs: &mut Regs68,
    ram: &Ram,
    fault: &mut Fault,
    word: u32,
    is_signed: bool,
) -> Did
    requires { (first_of word).mode ≡ 0 }
    ensures { let f = first_of word in
        let by = operand_at (words_at ram.now regs.old.pc) 1 Two f.mode f.lower in
        Does (runs_with regs.old word by (λ next. div regs.old ram.now next is_signed by.ea f.upper)) result fault.new regs.old regs.new ram.now ram.now }
{
    let (lower, upper) = (lower_of(word), upper_of(word));
    let by = trunc(regs.d[lower], Size::Two);
    match div(is_signed, regs.d[upper], by, regs.ccr) {
        Quotient::ByZero => return stop::<Regs68>(fault, FaultKind::Vector, regs.pc, 5),
        Quotient::Overflow(flags) => regs.ccr = flags,
        Quotient::Done(out) => {
            regs.d[upper] = out.value;
            regs.ccr = out.ccr;
        }
    }
    go_on(regs, 1)
}

/// The quotient and the remainder of a data register by an operand, into the register.
#[inline(always)]
fn divide(regs: &mut Regs68, ram: &Ram, fault: &mut Fault, word: u32, is_signed: bool) -> Did
    ensures { let f = first_of word in
        let by = operand_at (words_at ram.now regs.old.pc) 1 Two f.mode f.lower in
        Does (runs_with regs.old word by (λ next. div regs.old ram.now next is_signed by.ea f.upper)) result fault.new regs.old regs.new ram.now ram.now }
{
    let (mode, lower, upper) = (mode_of(word), lower_of(word), upper_of(word));
    let before = regs.a[lower];
    let mut next = 1;
    let Some(by) = source(regs, ram, fault, word, &mut next, Size::Two, mode, lower) else {
        return Did::Stop;
    };
    match div(is_signed, regs.d[upper], by, regs.ccr) {
        Quotient::ByZero => {
            regs.a[lower] = before;
            return stop::<Regs68>(fault, FaultKind::Vector, regs.pc, 5);
        }
        Quotient::Overflow(ccr) => regs.ccr = ccr,
        Quotient::Done(out) => {
            regs.d[upper] = out.value;
            regs.ccr = out.ccr;
        }
    }
    go_on(regs, next)
}

/// chk: a data register's low word against an operand, which it may not exceed, and against 0.
#[inline(never)]
pub fn do_chk(regs: &mut Regs68, ram: &Ram, fault: &mut Fault, word: u32) -> Did
    ensures { Does (by_op Op68.Chk regs.old ram.now word) result fault.new regs.old regs.new ram.now ram.now }
{
    let (mode, lower, upper) = (mode_of(word), lower_of(word), upper_of(word));
    let before = regs.a[lower];
    let mut next = 1;
    let Some(bound) = source(regs, ram, fault, word, &mut next, Size::Two, mode, lower) else {
        return Did::Stop;
    };
    if is_out(regs.d[upper], bound) {
        regs.a[lower] = before;
        return stop::<Regs68>(fault, FaultKind::Vector, regs.pc, 6);
    }
    regs.ccr = Ccr {
        z: false,
        v: false,
        c: false,
        ..regs.ccr
    };
    go_on(regs, next)
}

/// Whether a word with its sign is negative or above a bound.
#[inline(always)]
fn is_out(value: u32, bound: u32) -> bool
    ensures { result ≡ is_out_of value bound }
{
    let value = signed_word(value);
    value < 0 || signed_word(bound) < value
}

/// The signed number of a low word.
#[inline(always)]
fn signed_word(value: u32) -> i32
    ensures is { result ≡ signed_of value Two }
    ensures fits { FitsSigned w32 result }
{
    sext(value, Size::Two).cast_signed()
}
