// Instructions of one operand.
ghost use Rattle.std.specs.Prelude.{◌≡◌, ◌<◌, ◌≤◌, if◌then◌else◌};
ghost use Rattle.mix_bits.specs.declared.size.Size.TheVariants.{One, Two, Four};
ghost use Rattle.m68_isa.specs.declared.instructions.Instr68.TheVariants.{Clr, Tst};
ghost use Rattle.m68_isa.specs.ClassesClauses.{IsAlterable};
ghost use Rattle.m68_isa.specs.Conditions.{holds as holds_of};
ghost use Rattle.m68_isa.specs.First.{condition_of as condition_in, first_of};
ghost use Rattle.m68_isa.specs.laws.Fits.{Fits};
ghost use Rattle.m68_isa.specs.Operands.{operand_at};
ghost use Rattle.m68_isa.specs.Rows.{taken};
ghost use Rattle.big_memory.specs.StepsClauses.{Does};
ghost use Rattle.m68_ea.specs.FindsClauses.{IsAt};
ghost use Rattle.m68_effects.specs.laws.Tried.{Tries};
ghost use Rattle.m68_ea.specs.Words.{words_at};
ghost use Rattle.m68_effects.specs.laws.Ops.{by_op, runs_made};

use super::parts::write;
use big_memory::{Did, Ram};
use m68_alu::set_result_flags;
use m68_ea::{data_address, find, load, put, source, usual_source, value};
use m68_effects::go_on;
use m68_isa::{Op68, Regs68, condition_of, holds, is_long, lower_of, mode_of, size_bits_of};
use mix_bits::{Fault, Size, with_low};

/// clr: zeros into an operand.
#[inline(never)]
pub fn do_clr(regs: &mut Regs68, ram: &mut Ram, fault: &mut Fault, word: u32) -> Did
    requires { Fits Op68.Clr word }
    ensures { Does (by_op Op68.Clr regs.old ram.old word) result fault.new regs.old regs.new ram.old ram.new }
{
    match mode_of(word) {
        0 => clr_register(regs, ram, fault, word),
        6 => clr_elsewhere(regs, ram, fault, word),
        7 => clr_elsewhere(regs, ram, fault, word),
        _ => clr_operand(regs, ram, fault, word),
    }
}

/// clr of a data register.
#[inline(always)]
fn clr_register(regs: &mut Regs68, ram: &Ram, fault: &mut Fault, word: u32) -> Did
    requires { (first_of word).mode ≡ 0 }
    ensures { Does (by_op Op68.Clr regs.old ram.now word) result fault.new regs.old regs.new ram.now ram.now }
{
    let lower = lower_of(word);
    if is_long(word) {
        return clear_in_register(regs, ram, fault, word, Size::Four, lower);
    }
    match size_bits_of(word) {
        0 => clear_in_register(regs, ram, fault, word, Size::One, lower),
        _ => clear_in_register(regs, ram, fault, word, Size::Two, lower),
    }
}

/// clr of an operand of mode 6 or 7. An address is found before the size is matched, since it doesn't depend on it.
#[inline(never)]
fn clr_elsewhere(regs: &mut Regs68, ram: &mut Ram, fault: &mut Fault, word: u32) -> Did
    requires { Fits Op68.Clr word }
    ensures { Does (by_op Op68.Clr regs.old ram.old word) result fault.new regs.old regs.new ram.old ram.new }
{
    let (mode, lower) = (mode_of(word), lower_of(word));
    if mode != 6 && (mode != 7 || lower > 1) {
        return clr_operand(regs, ram, fault, word);
    }
    let mut next = 1;
    let Some(at) = data_address(regs, ram, fault, word, &mut next, mode, lower) else {
        return Did::Stop;
    };
    if clear_there(regs, ram, word, at, next) {
        Did::Next
    } else {
        clr_operand(regs, ram, fault, word)
    }
}

/// Tries to store zeros of the size in bits 7 and 6 where the operand was found, and tells whether it did.
#[inline(always)]
fn clear_there(regs: &mut Regs68, ram: &mut Ram, word: u32, at: u32, next: u32) -> bool
    requires near { next ≤ 5 }
    requires byte { IsAt regs.old One (operand_at (words_at ram.old regs.old.pc) 1 One (first_of word).mode (first_of word).lower) at next }
    requires word { IsAt regs.old Two (operand_at (words_at ram.old regs.old.pc) 1 Two (first_of word).mode (first_of word).lower) at next }
    requires long { IsAt regs.old Four (operand_at (words_at ram.old regs.old.pc) 1 Four (first_of word).mode (first_of word).lower) at next }
    ensures { Tries (by_op Op68.Clr regs.old ram.old word) result regs.old regs.new ram.old ram.new }
{
    if is_long(word) {
        return clear_at(regs, ram, word, Size::Four, at, next);
    }
    match size_bits_of(word) {
        0 => clear_at(regs, ram, word, Size::One, at, next),
        _ => clear_at(regs, ram, word, Size::Two, at, next),
    }
}

/// The same of this size.
#[inline(always)]
fn clear_at(regs: &mut Regs68, ram: &mut Ram, word: u32, size: Size, at: u32, next: u32) -> bool
    requires near { next ≤ 5 }
    requires found { IsAt regs.old size (operand_at (words_at ram.old regs.old.pc) 1 size (first_of word).mode (first_of word).lower) at next }
    ensures { let f = first_of word in
        let to = operand_at (words_at ram.old regs.old.pc) 1 size f.mode f.lower in
        Tries (runs_made regs.old ram.old word (taken (Clr size to.ea) to)) result regs.old regs.new ram.old ram.new }
{
    if !ram.store_if_open(at, size, 0) {
        return false;
    }
    set_result_flags(&mut regs.ccr, size, 0);
    go_on(regs, next);
    true
}

/// clr of any other operand.
#[inline(never)]
fn clr_operand(regs: &mut Regs68, ram: &mut Ram, fault: &mut Fault, word: u32) -> Did
    requires { Fits Op68.Clr word }
    ensures { Does (by_op Op68.Clr regs.old ram.old word) result fault.new regs.old regs.new ram.old ram.new }
{
    let (mode, lower) = (mode_of(word), lower_of(word));
    match size_bits_of(word) {
        0 => clear(regs, ram, fault, word, Size::One, mode, lower),
        1 => clear(regs, ram, fault, word, Size::Two, mode, lower),
        _ => clear(regs, ram, fault, word, Size::Four, mode, lower),
    }
}

/// Zeros of this size into a data register.
#[inline(always)]
fn clear_in_register(
    regs: &mut Regs68,
    ram: &Ram,
    fault: &mut Fault,
    word: u32,
    size: Size,
    lower: usize,
) -> Did
    requires { lower < 8 }
    ensures { let of = operand_at (words_at ram.now regs.old.pc) 1 size 0 lower in
        Does (runs_made regs.old ram.now word (taken (Clr size of.ea) of)) result fault.new regs.old regs.new ram.now ram.now }
{
    regs.d[lower] = with_low(regs.d[lower], 0, size);
    set_result_flags(&mut regs.ccr, size, 0);
    go_on(regs, 1)
}

/// Zeros of this size into an operand.
#[inline(always)]
fn clear(
    regs: &mut Regs68,
    ram: &mut Ram,
    fault: &mut Fault,
    word: u32,
    size: Size,
    mode: u32,
    lower: usize,
) -> Did
    requires number { lower < 8 }
    requires alterable { IsAlterable mode lower }
    ensures { let to = operand_at (words_at ram.old regs.old.pc) 1 size mode lower in
        Does (runs_made regs.old ram.old word (taken (Clr size to.ea) to)) result fault.new regs.old regs.new ram.old ram.new }
{
    let mut next = 1;
    if !write(regs, ram, fault, word, &mut next, size, mode, lower, 0) {
        return Did::Stop;
    }
    set_result_flags(&mut regs.ccr, size, 0);
    go_on(regs, next)
}

/// tst: the flags of an operand.
#[inline(never)]
pub fn do_tst(regs: &mut Regs68, ram: &Ram, fault: &mut Fault, word: u32) -> Did
    ensures { Does (by_op Op68.Tst regs.old ram.now word) result fault.new regs.old regs.new ram.now ram.now }
{
    if mode_of(word) > 5 {
        tst_elsewhere(regs, ram, fault, word)
    } else if tst_usual(regs, ram, word) {
        Did::Next
    } else {
        tst_operand(regs, ram, fault, word)
    }
}

/// tst of an operand of mode 6 or 7. An address is found before the size is matched, since it doesn't depend on it.
#[inline(never)]
fn tst_elsewhere(regs: &mut Regs68, ram: &Ram, fault: &mut Fault, word: u32) -> Did
    ensures { Does (by_op Op68.Tst regs.old ram.now word) result fault.new regs.old regs.new ram.now ram.now }
{
    let (mode, lower) = (mode_of(word), lower_of(word));
    if mode != 6 && (mode != 7 || lower > 3) {
        return tst_operand(regs, ram, fault, word);
    }
    let mut next = 1;
    let Some(at) = data_address(regs, ram, fault, word, &mut next, mode, lower) else {
        return Did::Stop;
    };
    match size_bits_of(word) {
        0 => test_at(regs, ram, fault, word, Size::One, at, next),
        1 => test_at(regs, ram, fault, word, Size::Two, at, next),
        _ => test_at(regs, ram, fault, word, Size::Four, at, next),
    }
}

/// The flags of an operand of this size in memory, where it was found.
#[inline(always)]
fn test_at(
    regs: &mut Regs68,
    ram: &Ram,
    fault: &mut Fault,
    word: u32,
    size: Size,
    at: u32,
    next: u32,
) -> Did
    requires near { next ≤ 5 }
    requires found { IsAt regs.old size (operand_at (words_at ram.now regs.old.pc) 1 size (first_of word).mode (first_of word).lower) at next }
    ensures { let f = first_of word in
        let of = operand_at (words_at ram.now regs.old.pc) 1 size f.mode f.lower in
        Does (runs_made regs.old ram.now word (taken (Tst size of.ea) of)) result fault.new regs.old regs.new ram.now ram.now }
{
    let Some(value) = load(ram, fault, regs.pc, at, size) else {
        return Did::Stop;
    };
    set_result_flags(&mut regs.ccr, size, value);
    go_on(regs, next)
}

/// Tries a tst of a register or of memory of a usual mode, and tells whether it is done.
#[inline(always)]
fn tst_usual(regs: &mut Regs68, ram: &Ram, word: u32) -> bool
    ensures { Tries (by_op Op68.Tst regs.old ram.now word) result regs.old regs.new ram.now ram.now }
{
    if is_long(word) {
        return test_usual(regs, ram, word, Size::Four);
    }
    match size_bits_of(word) {
        0 => test_usual(regs, ram, word, Size::One),
        _ => test_usual(regs, ram, word, Size::Two),
    }
}

/// tst of any operand.
#[inline(never)]
fn tst_operand(regs: &mut Regs68, ram: &Ram, fault: &mut Fault, word: u32) -> Did
    ensures { Does (by_op Op68.Tst regs.old ram.now word) result fault.new regs.old regs.new ram.now ram.now }
{
    let (mode, lower) = (mode_of(word), lower_of(word));
    match size_bits_of(word) {
        0 => test(regs, ram, fault, word, Size::One, mode, lower),
        1 => test(regs, ram, fault, word, Size::Two, mode, lower),
        _ => test(regs, ram, fault, word, Size::Four, mode, lower),
    }
}

/// Tries the flags of a register of this size, or of memory of a usual mode.
#[inline(always)]
fn test_usual(regs: &mut Regs68, ram: &Ram, word: u32, size: Size) -> bool
    ensures { let f = first_of word in
        let of = operand_at (words_at ram.now regs.old.pc) 1 size f.mode f.lower in
        Tries (runs_made regs.old ram.now word (taken (Tst size of.ea) of)) result regs.old regs.new ram.now ram.now }
{
    let mut next = 1;
    let Some(value) = usual_source(regs, ram, &mut next, size, mode_of(word), lower_of(word)) else {
        return false;
    };
    set_result_flags(&mut regs.ccr, size, value);
    go_on(regs, next);
    true
}

/// The flags of an operand of this size.
#[inline(always)]
fn test(
    regs: &mut Regs68,
    ram: &Ram,
    fault: &mut Fault,
    word: u32,
    size: Size,
    mode: u32,
    lower: usize,
) -> Did
    requires { lower < 8 }
    ensures { let of = operand_at (words_at ram.now regs.old.pc) 1 size mode lower in
        Does (runs_made regs.old ram.now word (taken (Tst size of.ea) of)) result fault.new regs.old regs.new ram.now ram.now }
{
    let mut next = 1;
    let Some(value) = source(regs, ram, fault, word, &mut next, size, mode, lower) else {
        return Did::Stop;
    };
    set_result_flags(&mut regs.ccr, size, value);
    go_on(regs, next)
}

/// tas: the flags of a byte, whose top bit is then set.
#[inline(never)]
pub fn do_tas(regs: &mut Regs68, ram: &mut Ram, fault: &mut Fault, word: u32) -> Did
    requires { Fits Op68.Tas word }
    ensures { Does (by_op Op68.Tas regs.old ram.old word) result fault.new regs.old regs.new ram.old ram.new }
{
    let (mode, lower) = (mode_of(word), lower_of(word));
    let mut next = 1;
    let Some(target) = find(regs, ram, fault, word, &mut next, Size::One, mode, lower) else {
        return Did::Stop;
    };
    let Some(old) = value(regs, ram, fault, target, Size::One) else {
        return Did::Stop;
    };
    if !put(regs, ram, fault, target, Size::One, old | 0x80) {
        return Did::Stop;
    }
    set_result_flags(&mut regs.ccr, Size::One, old);
    go_on(regs, next)
}

/// scc: a byte of ones where the condition holds, else of zeros.
#[inline(never)]
pub fn do_scc(regs: &mut Regs68, ram: &mut Ram, fault: &mut Fault, word: u32) -> Did
    requires { Fits Op68.Scc word }
    ensures { Does (by_op Op68.Scc regs.old ram.old word) result fault.new regs.old regs.new ram.old ram.new }
{
    if mode_of(word) == 0 {
        scc_register(regs, ram, fault, word)
    } else {
        scc_operand(regs, ram, fault, word)
    }
}

/// scc of a data register.
#[inline(always)]
fn scc_register(regs: &mut Regs68, ram: &Ram, fault: &mut Fault, word: u32) -> Did
    requires { (first_of word).mode ≡ 0 }
    ensures { Does (by_op Op68.Scc regs.old ram.now word) result fault.new regs.old regs.new ram.now ram.now }
{
    let lower = lower_of(word);
    regs.d[lower] = with_low(regs.d[lower], ones(regs, word), Size::One);
    go_on(regs, 1)
}

/// The byte of scc.
#[inline(always)]
fn ones(regs: &Regs68, word: u32) -> u32
    ensures { result ≡ (if holds_of (condition_in (first_of word)) regs.now.ccr then 255 else 0) }
{
    if holds(condition_of(word), &regs.ccr) {
        0xFF
    } else {
        0
    }
}

/// scc of any operand.
#[inline(never)]
fn scc_operand(regs: &mut Regs68, ram: &mut Ram, fault: &mut Fault, word: u32) -> Did
    requires { Fits Op68.Scc word }
    ensures { Does (by_op Op68.Scc regs.old ram.old word) result fault.new regs.old regs.new ram.old ram.new }
{
    let (mode, lower) = (mode_of(word), lower_of(word));
    let value = ones(regs, word);
    let mut next = 1;
    if write(
        regs,
        ram,
        fault,
        word,
        &mut next,
        Size::One,
        mode,
        lower,
        value,
    ) {
        go_on(regs, next)
    } else {
        Did::Stop
    }
}
