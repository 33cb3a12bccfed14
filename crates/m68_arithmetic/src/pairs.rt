// A pair of data registers, or of places below two address registers.
ghost use Rattle.std.specs.Prelude.{◌≢◌, ◌==◌, ◌<◌, true, false};
ghost use Rattle.mix_bits.specs.Addresses.{onward as onward_of};
ghost use Rattle.mix_bits.specs.declared.size.Size.TheVariants.{Zero};
ghost use Rattle.m68_isa.specs.First.{first_of, size_of as size_of_bits};
ghost use Rattle.big_memory.specs.StepsClauses.{Does};
ghost use Rattle.m68_isa.specs.declared.ea.Ea.TheVariants.{Pre};
ghost use Rattle.m68_effects.specs.Operations.{result_of};
ghost use Rattle.m68_effects.specs.laws.Ops.{by_op};
ghost use Rattle.m68_effects.specs.Parts.{after, changed, pairwise};

use big_memory::{Did, Ram};
use m68_ea::{find, put, source, value};
use m68_effects::{Operation, apply, go_on};
use m68_isa::{Op68, Regs68, is_in_memory, lower_of, size_bits_of, upper_of};
use mix_bits::{Fault, Size, trunc, with_low};

/// addx: a sum with X.
#[inline(never)]
pub fn do_addx(regs: &mut Regs68, ram: &mut Ram, fault: &mut Fault, word: u32) -> Did
    ensures { Does (by_op Op68.Addx regs.old ram.old word) result fault.new regs.old regs.new ram.old ram.new }
{
    extended(regs, ram, fault, word, Operation::Addx)
}

/// subx: a difference with X.
#[inline(never)]
pub fn do_subx(regs: &mut Regs68, ram: &mut Ram, fault: &mut Fault, word: u32) -> Did
    ensures { Does (by_op Op68.Subx regs.old ram.old word) result fault.new regs.old regs.new ram.old ram.new }
{
    extended(regs, ram, fault, word, Operation::Subx)
}

/// abcd: a sum of two decimal digits with X.
#[inline(never)]
pub fn do_abcd(regs: &mut Regs68, ram: &mut Ram, fault: &mut Fault, word: u32) -> Did
    ensures { Does (by_op Op68.Abcd regs.old ram.old word) result fault.new regs.old regs.new ram.old ram.new }
{
    pair(regs, ram, fault, word, Size::One, Operation::Abcd)
}

/// sbcd: a difference of two decimal digits with X.
#[inline(never)]
pub fn do_sbcd(regs: &mut Regs68, ram: &mut Ram, fault: &mut Fault, word: u32) -> Did
    ensures { Does (by_op Op68.Sbcd regs.old ram.old word) result fault.new regs.old regs.new ram.old ram.new }
{
    pair(regs, ram, fault, word, Size::One, Operation::Sbcd)
}

/// An operation on a pair of the size in bits 7 and 6.
#[inline(always)]
fn extended(regs: &mut Regs68, ram: &mut Ram, fault: &mut Fault, word: u32, op: Operation) -> Did
    ensures { let f = first_of word in
        let size = size_of_bits f.size in
        Does (after (pairwise regs.old ram.old (onward_of regs.old.pc 2) size (f.mode == 1) f.lower f.upper (result_of op size regs.old.ccr))) result fault.new regs.old regs.new ram.old ram.new }
{
    match size_bits_of(word) {
        0 => pair(regs, ram, fault, word, Size::One, op),
        1 => pair(regs, ram, fault, word, Size::Two, op),
        _ => pair(regs, ram, fault, word, Size::Four, op),
    }
}

/// An operation on a pair of this size.
#[inline(always)]
fn pair(
    regs: &mut Regs68,
    ram: &mut Ram,
    fault: &mut Fault,
    word: u32,
    size: Size,
    op: Operation,
) -> Did
    requires { size ≢ Zero }
    ensures { let f = first_of word in
        Does (after (pairwise regs.old ram.old (onward_of regs.old.pc 2) size (f.mode == 1) f.lower f.upper (result_of op size regs.old.ccr))) result fault.new regs.old regs.new ram.old ram.new }
{
    if is_in_memory(word) {
        pair_in_memory(regs, ram, fault, word, size, op)
    } else {
        pair_of_registers(regs, ram, fault, word, size, op)
    }
}

/// An operation on two data registers.
#[inline(always)]
fn pair_of_registers(
    regs: &mut Regs68,
    ram: &Ram,
    fault: &mut Fault,
    word: u32,
    size: Size,
    op: Operation,
) -> Did
    requires { size ≢ Zero }
    ensures { let f = first_of word in
        Does (after (pairwise regs.old ram.now (onward_of regs.old.pc 2) size false f.lower f.upper (result_of op size regs.old.ccr))) result fault.new regs.old regs.new ram.now ram.now }
{
    let (from, to) = (lower_of(word), upper_of(word));
    let out = apply(
        op,
        size,
        trunc(regs.d[to], size),
        trunc(regs.d[from], size),
        regs.ccr,
    );
    regs.d[to] = with_low(regs.d[to], out.value, size);
    regs.ccr = out.ccr;
    go_on(regs, 1)
}

/// An operation on two places in memory, each below its address register; the source is read first.
#[inline(never)]
fn pair_in_memory(
    regs: &mut Regs68,
    ram: &mut Ram,
    fault: &mut Fault,
    word: u32,
    size: Size,
    op: Operation,
) -> Did
    requires { size ≢ Zero }
    ensures { let f = first_of word in
        Does (after (pairwise regs.old ram.old (onward_of regs.old.pc 2) size true f.lower f.upper (result_of op size regs.old.ccr))) result fault.new regs.old regs.new ram.old ram.new }
{
    let from = lower_of(word);
    let before = regs.a[from];
    let mut next = 1;
    let Some(by) = source(regs, ram, fault, word, &mut next, size, 4, from) else {
        return Did::Stop;
    };
    let did = change_below(regs, ram, fault, word, size, op, by);
    if did != Did::Next {
        regs.a[from] = before;
    }
    did
}

/// An operation with a number on the place below the second address register.
#[inline(always)]
#[tactic(auto, unfolding(m68_isa::specs::ClassesClauses::IsAlterable))]
fn change_below(
    regs: &mut Regs68,
    ram: &mut Ram,
    fault: &mut Fault,
    word: u32,
    size: Size,
    op: Operation,
    by: u32,
) -> Did
    requires { size ≢ Zero }
    ensures { Does (after (changed regs.old ram.old (onward_of regs.old.pc 2) size (Pre (first_of word).upper) (λ d. result_of op size regs.old.ccr d by))) result fault.new regs.old regs.new ram.old ram.new }
{
    let mut next = 1;
    let Some(target) = find(regs, ram, fault, word, &mut next, size, 4, upper_of(word)) else {
        return Did::Stop;
    };
    let Some(old) = value(regs, ram, fault, target, size) else {
        return Did::Stop;
    };
    let out = apply(op, size, old, by, regs.ccr);
    if !put(regs, ram, fault, target, size, out.value) {
        return Did::Stop;
    }
    regs.ccr = out.ccr;
    go_on(regs, 1)
}
