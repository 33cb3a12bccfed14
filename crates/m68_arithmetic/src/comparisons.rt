// Comparisons: a difference whose flags alone are kept, but for X.
ghost use Rattle.std.specs.Prelude.{◌≡◌, ◌≢◌, ◌+◌, ◌<◌};
ghost use Rattle.mix_bits.specs.Addresses.{onward};
ghost use Rattle.mix_bits.specs.declared.size.Size.TheVariants.{Zero};
ghost use Rattle.m68_isa.specs.First.{first_of};
ghost use Rattle.m68_isa.specs.Operands.{immediate_at as immediate_at_of, immediate_words as immediate_words_of, operand_at};
ghost use Rattle.big_memory.specs.StepsClauses.{Does};
ghost use Rattle.m68_effects.specs.laws.Tried.{Tries};
ghost use Rattle.m68_ea.specs.Words.{words_at};
ghost use Rattle.m68_effects.specs.inner.Rows.{cmp, cmpa, cmpi, cmpm, comparison};
ghost use Rattle.m68_effects.specs.laws.Operations.{runs_with};
ghost use Rattle.m68_effects.specs.laws.Ops.{by_op};
ghost use Rattle.m68_effects.specs.Parts.{after};

use big_memory::{Did, Ram};
use m68_alu::cmp;
use m68_ea::{immediate_at, source, usual_source};
use m68_effects::go_on;
use m68_isa::{
    Ccr, Op68, Regs68, bit8_of, immediate_words, is_long, lower_of, mode_of, size_bits_of, upper_of,
};
use mix_bits::{Fault, Size, sext, trunc};

/// Sets the flags of a destination less a source; X is left where it stands.
#[inline(always)]
fn compare(ccr: &mut Ccr, size: Size, destination: u32, source: u32)
    requires { size ≢ Zero }
    ensures { ccr.new ≡ comparison size ccr.old destination source }
{
    let out = cmp(size, destination, source, *ccr).ccr;
    ccr.n = out.n;
    ccr.z = out.z;
    ccr.v = out.v;
    ccr.c = out.c;
}

/// cmp: a data register less an operand.
#[inline(never)]
pub fn do_cmp(regs: &mut Regs68, ram: &Ram, fault: &mut Fault, word: u32) -> Did
    ensures { Does (by_op Op68.Cmp regs.old ram.now word) result fault.new regs.old regs.new ram.now ram.now }
{
    if mode_of(word) == 0 {
        compare_registers(regs, ram, fault, word)
    } else {
        compare_others(regs, ram, fault, word)
    }
}

/// cmp of a data register and an operand that is most often in memory of a usual mode, apart from the registers
/// alone, which need no register saved.
#[inline(never)]
fn compare_others(regs: &mut Regs68, ram: &Ram, fault: &mut Fault, word: u32) -> Did
    ensures { Does (by_op Op68.Cmp regs.old ram.now word) result fault.new regs.old regs.new ram.now ram.now }
{
    if compare_usual(regs, ram, word) {
        Did::Next
    } else {
        compare_operand(regs, ram, fault, word)
    }
}

/// cmp of a data register and another one.
#[inline(always)]
fn compare_registers(regs: &mut Regs68, ram: &Ram, fault: &mut Fault, word: u32) -> Did
    requires { (first_of word).mode ≡ 0 }
    ensures { Does (by_op Op68.Cmp regs.old ram.now word) result fault.new regs.old regs.new ram.now ram.now }
{
    if is_long(word) {
        return with_other(regs, ram, fault, word, Size::Four);
    }
    match size_bits_of(word) {
        0 => with_other(regs, ram, fault, word, Size::One),
        _ => with_other(regs, ram, fault, word, Size::Two),
    }
}

/// A data register less another one, of this size.
#[inline(always)]
fn with_other(regs: &mut Regs68, ram: &Ram, fault: &mut Fault, word: u32, size: Size) -> Did
    requires some { size ≢ Zero }
    requires register { (first_of word).mode ≡ 0 }
    ensures { let f = first_of word in
        let from = operand_at (words_at ram.now regs.old.pc) 1 size f.mode f.lower in
        Does (runs_with regs.old word from (λ next. cmp regs.old ram.now next size from.ea f.upper)) result fault.new regs.old regs.new ram.now ram.now }
{
    let (lower, upper) = (lower_of(word), upper_of(word));
    compare(
        &mut regs.ccr,
        size,
        regs.d[upper],
        trunc(regs.d[lower], size),
    );
    go_on(regs, 1)
}

/// Tries a cmp of a data register and a register, or memory of a usual mode, and tells whether it is done.
#[inline(always)]
fn compare_usual(regs: &mut Regs68, ram: &Ram, word: u32) -> bool
    ensures { Tries (by_op Op68.Cmp regs.old ram.now word) result regs.old regs.new ram.now ram.now }
{
    if is_long(word) {
        return compare_sized(regs, ram, word, Size::Four);
    }
    match size_bits_of(word) {
        0 => compare_sized(regs, ram, word, Size::One),
        _ => compare_sized(regs, ram, word, Size::Two),
    }
}

/// The same of this size.
#[inline(always)]
fn compare_sized(regs: &mut Regs68, ram: &Ram, word: u32, size: Size) -> bool
    requires { size ≢ Zero }
    ensures { let f = first_of word in
        let from = operand_at (words_at ram.now regs.old.pc) 1 size f.mode f.lower in
        Tries (runs_with regs.old word from (λ next. cmp regs.old ram.now next size from.ea f.upper)) result regs.old regs.new ram.now ram.now }
{
    let upper = upper_of(word);
    let mut next = 1;
    let Some(value) = usual_source(regs, ram, &mut next, size, mode_of(word), lower_of(word)) else {
        return false;
    };
    compare(&mut regs.ccr, size, regs.d[upper], value);
    go_on(regs, next);
    true
}

/// cmp of a data register and any other operand.
#[inline(never)]
fn compare_operand(regs: &mut Regs68, ram: &Ram, fault: &mut Fault, word: u32) -> Did
    ensures { Does (by_op Op68.Cmp regs.old ram.now word) result fault.new regs.old regs.new ram.now ram.now }
{
    match size_bits_of(word) {
        0 => with_register(regs, ram, fault, word, Size::One),
        1 => with_register(regs, ram, fault, word, Size::Two),
        _ => with_register(regs, ram, fault, word, Size::Four),
    }
}

/// A data register less an operand of this size.
#[inline(always)]
fn with_register(regs: &mut Regs68, ram: &Ram, fault: &mut Fault, word: u32, size: Size) -> Did
    requires { size ≢ Zero }
    ensures { let f = first_of word in
        let from = operand_at (words_at ram.now regs.old.pc) 1 size f.mode f.lower in
        Does (runs_with regs.old word from (λ next. cmp regs.old ram.now next size from.ea f.upper)) result fault.new regs.old regs.new ram.now ram.now }
{
    let (mode, lower, upper) = (mode_of(word), lower_of(word), upper_of(word));
    let mut next = 1;
    let Some(value) = source(regs, ram, fault, word, &mut next, size, mode, lower) else {
        return Did::Stop;
    };
    compare(&mut regs.ccr, size, regs.d[upper], value);
    go_on(regs, next)
}

/// cmpa: an address register less an operand, as longs.
#[inline(never)]
pub fn do_cmpa(regs: &mut Regs68, ram: &Ram, fault: &mut Fault, word: u32) -> Did
    ensures { Does (by_op Op68.Cmpa regs.old ram.now word) result fault.new regs.old regs.new ram.now ram.now }
{
    if mode_of(word) > 5 {
        address_with_other(regs, ram, fault, word)
    } else if address_with_usual(regs, ram, word) {
        Did::Next
    } else {
        address_with_operand(regs, ram, fault, word)
    }
}

/// Tries a cmpa of an address register and a register, or memory of a usual mode, and tells whether it is done.
#[inline(always)]
fn address_with_usual(regs: &mut Regs68, ram: &Ram, word: u32) -> bool
    ensures { Tries (by_op Op68.Cmpa regs.old ram.now word) result regs.old regs.new ram.now ram.now }
{
    if bit8_of(word) == 0 {
        address_sized(regs, ram, word, Size::Two)
    } else {
        address_sized(regs, ram, word, Size::Four)
    }
}

/// The same of this size.
#[inline(always)]
fn address_sized(regs: &mut Regs68, ram: &Ram, word: u32, size: Size) -> bool
    ensures { let f = first_of word in
        let from = operand_at (words_at ram.now regs.old.pc) 1 size f.mode f.lower in
        Tries (runs_with regs.old word from (λ next. cmpa regs.old ram.now next size from.ea f.upper)) result regs.old regs.new ram.now ram.now }
{
    let upper = upper_of(word);
    let mut next = 1;
    let Some(value) = usual_source(regs, ram, &mut next, size, mode_of(word), lower_of(word)) else {
        return false;
    };
    compare(&mut regs.ccr, Size::Four, regs.a[upper], sext(value, size));
    go_on(regs, next);
    true
}

/// cmpa of an address register and an operand of mode 6 or 7, most often an immediate one.
#[inline(never)]
fn address_with_other(regs: &mut Regs68, ram: &Ram, fault: &mut Fault, word: u32) -> Did
    ensures { Does (by_op Op68.Cmpa regs.old ram.now word) result fault.new regs.old regs.new ram.now ram.now }
{
    if mode_of(word) == 7 && lower_of(word) == 4 {
        address_with_number(regs, ram, fault, word)
    } else {
        address_with_operand(regs, ram, fault, word)
    }
}

/// cmpa of an address register and an immediate number.
#[inline(always)]
fn address_with_number(regs: &mut Regs68, ram: &Ram, fault: &mut Fault, word: u32) -> Did
    requires mode { (first_of word).mode ≡ 7 }
    requires register { (first_of word).lower ≡ 4 }
    ensures { Does (by_op Op68.Cmpa regs.old ram.now word) result fault.new regs.old regs.new ram.now ram.now }
{
    if bit8_of(word) == 0 {
        with_number(regs, ram, fault, word, Size::Two)
    } else {
        with_number(regs, ram, fault, word, Size::Four)
    }
}

/// An address register less an immediate number of this size.
#[inline(always)]
fn with_number(regs: &mut Regs68, ram: &Ram, fault: &mut Fault, word: u32, size: Size) -> Did
    requires mode { (first_of word).mode ≡ 7 }
    requires register { (first_of word).lower ≡ 4 }
    ensures { let f = first_of word in
        let from = operand_at (words_at ram.now regs.old.pc) 1 size f.mode f.lower in
        Does (runs_with regs.old word from (λ next. cmpa regs.old ram.now next size from.ea f.upper)) result fault.new regs.old regs.new ram.now ram.now }
{
    let number = trunc(immediate_at(ram, regs.pc, 1, size), size);
    compare(
        &mut regs.ccr,
        Size::Four,
        regs.a[upper_of(word)],
        sext(number, size),
    );
    go_on(regs, 1 + immediate_words(size))
}

/// cmpa of an address register and any operand.
#[inline(never)]
fn address_with_operand(regs: &mut Regs68, ram: &Ram, fault: &mut Fault, word: u32) -> Did
    ensures { Does (by_op Op68.Cmpa regs.old ram.now word) result fault.new regs.old regs.new ram.now ram.now }
{
    if bit8_of(word) == 0 {
        with_address(regs, ram, fault, word, Size::Two)
    } else {
        with_address(regs, ram, fault, word, Size::Four)
    }
}

/// An address register less an operand of this size.
#[inline(always)]
fn with_address(regs: &mut Regs68, ram: &Ram, fault: &mut Fault, word: u32, size: Size) -> Did
    ensures { let f = first_of word in
        let from = operand_at (words_at ram.now regs.old.pc) 1 size f.mode f.lower in
        Does (runs_with regs.old word from (λ next. cmpa regs.old ram.now next size from.ea f.upper)) result fault.new regs.old regs.new ram.now ram.now }
{
    let (mode, lower, upper) = (mode_of(word), lower_of(word), upper_of(word));
    let mut next = 1;
    let Some(value) = source(regs, ram, fault, word, &mut next, size, mode, lower) else {
        return Did::Stop;
    };
    compare(&mut regs.ccr, Size::Four, regs.a[upper], sext(value, size));
    go_on(regs, next)
}

/// cmpi: an operand less immediate data.
#[inline(never)]
pub fn do_cmpi(regs: &mut Regs68, ram: &Ram, fault: &mut Fault, word: u32) -> Did
    ensures { Does (by_op Op68.Cmpi regs.old ram.now word) result fault.new regs.old regs.new ram.now ram.now }
{
    if mode_of(word) > 5 {
        operand_with_data(regs, ram, fault, word)
    } else if with_data(regs, ram, word) {
        Did::Next
    } else {
        operand_with_data(regs, ram, fault, word)
    }
}

/// Tries a cmpi of a register, or of memory of a usual mode, and tells whether it is done.
#[inline(always)]
fn with_data(regs: &mut Regs68, ram: &Ram, word: u32) -> bool
    ensures { Tries (by_op Op68.Cmpi regs.old ram.now word) result regs.old regs.new ram.now ram.now }
{
    match size_bits_of(word) {
        0 => with_data_sized(regs, ram, word, Size::One),
        1 => with_data_sized(regs, ram, word, Size::Two),
        _ => with_data_sized(regs, ram, word, Size::Four),
    }
}

/// The same of this size.
#[inline(always)]
fn with_data_sized(regs: &mut Regs68, ram: &Ram, word: u32, size: Size) -> bool
    requires { size ≢ Zero }
    ensures { let f = first_of word in
        let ws = words_at ram.now regs.old.pc in
        let from = operand_at ws (1 + immediate_words_of size) size f.mode f.lower in
        Tries (runs_with regs.old word from (λ next. cmpi regs.old ram.now next size (immediate_at_of ws 1 size) from.ea)) result regs.old regs.new ram.now ram.now }
{
    let data = immediate_at(ram, regs.pc, 1, size);
    let mut next = 1 + immediate_words(size);
    let Some(value) = usual_source(regs, ram, &mut next, size, mode_of(word), lower_of(word)) else {
        return false;
    };
    compare(&mut regs.ccr, size, value, data);
    go_on(regs, next);
    true
}

/// cmpi of any operand.
#[inline(never)]
fn operand_with_data(regs: &mut Regs68, ram: &Ram, fault: &mut Fault, word: u32) -> Did
    ensures { Does (by_op Op68.Cmpi regs.old ram.now word) result fault.new regs.old regs.new ram.now ram.now }
{
    match size_bits_of(word) {
        0 => with_immediate(regs, ram, fault, word, Size::One),
        1 => with_immediate(regs, ram, fault, word, Size::Two),
        _ => with_immediate(regs, ram, fault, word, Size::Four),
    }
}

/// An operand less immediate data of this size.
#[inline(always)]
fn with_immediate(regs: &mut Regs68, ram: &Ram, fault: &mut Fault, word: u32, size: Size) -> Did
    requires { size ≢ Zero }
    ensures { let f = first_of word in
        let ws = words_at ram.now regs.old.pc in
        let from = operand_at ws (1 + immediate_words_of size) size f.mode f.lower in
        Does (runs_with regs.old word from (λ next. cmpi regs.old ram.now next size (immediate_at_of ws 1 size) from.ea)) result fault.new regs.old regs.new ram.now ram.now }
{
    let (mode, lower) = (mode_of(word), lower_of(word));
    let data = immediate_at(ram, regs.pc, 1, size);
    let mut next = 1 + immediate_words(size);
    let Some(value) = source(regs, ram, fault, word, &mut next, size, mode, lower) else {
        return Did::Stop;
    };
    compare(&mut regs.ccr, size, value, data);
    go_on(regs, next)
}

/// cmpm: memory at one address register less that at another, both of which grow; the source is read first.
#[inline(never)]
pub fn do_cmpm(regs: &mut Regs68, ram: &Ram, fault: &mut Fault, word: u32) -> Did
    ensures { Does (by_op Op68.Cmpm regs.old ram.now word) result fault.new regs.old regs.new ram.now ram.now }
{
    match size_bits_of(word) {
        0 => in_memory(regs, ram, fault, word, Size::One),
        1 => in_memory(regs, ram, fault, word, Size::Two),
        _ => in_memory(regs, ram, fault, word, Size::Four),
    }
}

/// The same at this size.
#[inline(always)]
fn in_memory(regs: &mut Regs68, ram: &Ram, fault: &mut Fault, word: u32, size: Size) -> Did
    requires { size ≢ Zero }
    ensures { let f = first_of word in
        Does (after (cmpm regs.old ram.now (onward regs.old.pc 2) size f.lower f.upper)) result fault.new regs.old regs.new ram.now ram.now }
{
    let (from, to) = (lower_of(word), upper_of(word));
    let before = regs.a[from];
    let mut next = 1;
    let Some(subtrahend) = source(regs, ram, fault, word, &mut next, size, 3, from) else {
        return Did::Stop;
    };
    let Some(value) = source(regs, ram, fault, word, &mut next, size, 3, to) else {
        regs.a[from] = before;
        return Did::Stop;
    };
    compare(&mut regs.ccr, size, value, subtrahend);
    go_on(regs, 1)
}
