ghost use Rattle.std.specs.Prelude.{◌≡◌, ◌+◌, ◌<◌, ◌≤◌, ◌⊎◌, IfSome, OnSome, slice_index, true};
ghost use Rattle.mix_bits.specs.Faults.{fault_at};
ghost use Rattle.m68_isa.specs.ClassesClauses.{IsAlterable};
ghost use Rattle.m68_isa.specs.Classes.{in_class};
ghost use Rattle.m68_isa.specs.Operands.{operand_at, special_at};
ghost use Rattle.m68_isa.specs.Classes.Class.{Control};
ghost use Rattle.mix_bits.specs.declared.size.Size.TheVariants.{One, Two, Four};
ghost use Rattle.m68_ea.specs.FindsClauses.{Finds, FindsAddress, FindsAt, FindsControl, FindsIndexed, FindsPlace, HasFound, HasTarget, Puts, Reads, Takes};
ghost use Rattle.mix_bits.specs.declared.fault.FaultKind.TheVariants.{Illegal};
ghost use Rattle.m68_ea.specs.PlacesClauses.{IsWritable};
ghost use Rattle.m68_ea.specs.Places.{placed, with_address};
ghost use Rattle.m68_ea.specs.Words.{words_at};
ghost use Rattle.m68_ea.specs.declared.places.Place68.TheVariants.{Mem};
ghost use Rattle.m68_isa.specs.declared.ea.Ea.TheVariants.{Post, Pre};

use super::accesses::{load, store};
use super::places::{Place68, indexed, step};
use super::words::{extended_word, immediate_at, index_of, is_index, long_at, word_at};
use big_memory::Ram;
use m68_isa::{Regs68, immediate_words};
use mix_bits::{Fault, FaultKind, Size, backward, onward, sext, trunc, with_low};

/// An operand that was found, and how to take its increment or decrement back.
#[derive(Clone, Copy)]
pub struct Target {
    pub place: Place68,
    /// The number of an address register, and its value before.
    pub register: usize,
    pub before: u32,
}

/// Finds an operand of any mode, and applies its increment or decrement. Its extension words begin with
/// word `next` of the instruction at `regs.pc`, whose first word is `word`; `next` goes on behind them.
#[inline(always)]
pub fn find(
    regs: &mut Regs68,
    ram: &Ram,
    fault: &mut Fault,
    word: u32,
    next: &mut u32,
    size: Size,
    mode: u32,
    lower: usize,
) -> Option<Target>
    requires number { lower < 8 }
    requires first { next.old < 4 }
    ensures is { Finds regs.old word size (operand_at (words_at ram.now regs.old.pc) next.old size mode lower) result next.new fault.new regs.new }
    ensures near { next.new ≤ next.old + 2 }
    ensures registers { HasFound result }
    ensures writable { IsAlterable mode lower → IfSome result (λ t. IsWritable t.place) }
    ensures back { OnSome result (with_address regs.new lower (slice_index regs.old.a lower) ≡ regs.old) }
{
    let before = regs.a[lower];
    let place = match mode {
        0 => Place68::Dn(lower as u8),
        1 => Place68::An(lower as u8),
        3 => Place68::Mem(increment(regs, lower, size)),
        4 => Place68::Mem(decrement(regs, lower, size)),
        _ => place_alone(regs, ram, fault, word, next, size, mode, lower)?,
    };
    Some(Target {
        place,
        register: lower,
        before,
    })
}

/// An address register's value, from which it grows by the size.
#[inline(always)]
fn increment(regs: &mut Regs68, register: usize, size: Size) -> u32
    requires { register < 8 }
    ensures { (regs.new, Mem result) ≡ placed regs.old (Post register) size }
{
    let at = regs.a[register];
    regs.a[register] = onward(at, step(register, size));
    at
}

/// An address register's value, once it has shrunk by the size.
#[inline(always)]
fn decrement(regs: &mut Regs68, register: usize, size: Size) -> u32
    requires { register < 8 }
    ensures { (regs.new, Mem result) ≡ placed regs.old (Pre register) size }
{
    let at = backward(regs.a[register], step(register, size));
    regs.a[register] = at;
    at
}

/// The place of an operand of mode 2, 5, 6 or 7, which changes no register.
#[inline(always)]
#[tactic(auto, unfolding(m68_isa::specs::ClassesClauses::IsAlterable))]
fn place_alone(
    regs: &Regs68,
    ram: &Ram,
    fault: &mut Fault,
    word: u32,
    next: &mut u32,
    size: Size,
    mode: u32,
    lower: usize,
) -> Option<Place68>
    requires number { lower < 8 }
    requires first { next.old < 4 }
    requires two { (mode ≡ 2) ⊎ (4 < mode) }
    ensures is { FindsPlace regs.now word size (operand_at (words_at ram.now regs.now.pc) next.old size mode lower) result next.new fault.new }
    ensures writable { IsAlterable mode lower → IfSome result IsWritable }
    ensures near { next.new ≤ next.old + 2 }
{
    if mode > 6 && lower > 3 {
        let value = immediate_at(ram, regs.pc, *next, size);
        *next += immediate_words(size);
        Some(Place68::Imm(value))
    } else {
        address(regs, ram, fault, word, next, mode, lower).map(Place68::Mem)
    }
}

/// The value of an operand that was found. Where it can't be read, its register is as it was before.
#[inline(always)]
pub fn value(
    regs: &mut Regs68,
    ram: &Ram,
    fault: &mut Fault,
    target: Target,
    size: Size,
) -> Option<u32>
    requires { HasTarget target }
    ensures { Reads regs.old ram.now size target result fault.new regs.new }
{
    match target.place {
        Place68::Dn(n) => Some(trunc(regs.d[n as usize], size)),
        Place68::An(n) => Some(trunc(regs.a[n as usize], size)),
        Place68::Mem(a) => {
            let value = load(ram, fault, regs.pc, a, size);
            if value.is_none() {
                regs.a[target.register] = target.before;
            }
            value
        }
        Place68::Imm(value) => Some(trunc(value, size)),
    }
}

/// Writes a value where an operand was found, and tells whether it did. Where it can't be written, its
/// register is as it was before.
#[inline(always)]
pub fn put(
    regs: &mut Regs68,
    ram: &mut Ram,
    fault: &mut Fault,
    target: Target,
    size: Size,
    value: u32,
) -> bool
    requires target { HasTarget target }
    requires writable { IsWritable target.place }
    ensures { Puts regs.old ram.old size target value result fault.new regs.new ram.new }
{
    match target.place {
        Place68::Dn(n) => {
            regs.d[n as usize] = with_low(regs.d[n as usize], value, size);
            true
        }
        Place68::An(n) => {
            regs.a[n as usize] = sext(value, size);
            true
        }
        Place68::Mem(a) => {
            let done = store(ram, fault, regs.pc, a, size, value);
            if !done {
                regs.a[target.register] = target.before;
            }
            done
        }
        Place68::Imm(_) => unreachable!(),
    }
}

/// The value of an operand of any mode, with its increment or decrement applied.
#[inline(always)]
pub fn source(
    regs: &mut Regs68,
    ram: &Ram,
    fault: &mut Fault,
    word: u32,
    next: &mut u32,
    size: Size,
    mode: u32,
    lower: usize,
) -> Option<u32>
    requires number { lower < 8 }
    requires first { next.old < 4 }
    ensures is { Takes regs.old ram.now word size (operand_at (words_at ram.now regs.old.pc) next.old size mode lower) result next.new fault.new regs.new }
    ensures near { next.new ≤ next.old + 2 }
    ensures back { OnSome result (with_address regs.new lower (slice_index regs.old.a lower) ≡ regs.old) }
{
    let target = find(regs, ram, fault, word, next, size, mode, lower)?;
    value(regs, ram, fault, target, size)
}

/// The address of an operand of a control mode: 2, 5, 6 or 7.0 to 7.3.
#[inline(always)]
pub fn control(
    regs: &Regs68,
    ram: &Ram,
    fault: &mut Fault,
    word: u32,
    next: &mut u32,
    mode: u32,
    lower: usize,
) -> Option<u32>
    requires number { lower < 8 }
    requires first { next.old < 4 }
    requires control { in_class Control mode lower ≡ true }
    ensures word { FindsControl regs.now word (operand_at (words_at ram.now regs.now.pc) next.old Two mode lower) result next.new fault.new }
    ensures long { FindsControl regs.now word (operand_at (words_at ram.now regs.now.pc) next.old Four mode lower) result next.new fault.new }
    ensures near { next.new ≤ next.old + 2 }
{
    address(regs, ram, fault, word, next, mode, lower)
}

/// The same, for data of any size.
#[inline(always)]
pub fn data_address(
    regs: &Regs68,
    ram: &Ram,
    fault: &mut Fault,
    word: u32,
    next: &mut u32,
    mode: u32,
    lower: usize,
) -> Option<u32>
    requires number { lower < 8 }
    requires first { next.old < 4 }
    requires control { in_class Control mode lower ≡ true }
    ensures byte { FindsAt regs.now word One (operand_at (words_at ram.now regs.now.pc) next.old One mode lower) result next.new fault.new }
    ensures word { FindsAt regs.now word Two (operand_at (words_at ram.now regs.now.pc) next.old Two mode lower) result next.new fault.new }
    ensures long { FindsAt regs.now word Four (operand_at (words_at ram.now regs.now.pc) next.old Four mode lower) result next.new fault.new }
    ensures near { next.new ≤ next.old + 2 }
{
    address(regs, ram, fault, word, next, mode, lower)
}

/// The address of an operand of a control mode.
#[inline(always)]
fn address(
    regs: &Regs68,
    ram: &Ram,
    fault: &mut Fault,
    word: u32,
    next: &mut u32,
    mode: u32,
    lower: usize,
) -> Option<u32>
    requires number { lower < 8 }
    requires first { next.old < 4 }
    requires control { in_class Control mode lower ≡ true }
    ensures is { FindsAddress regs.now word (λ s. operand_at (words_at ram.now regs.now.pc) next.old s mode lower) result next.new fault.new }
    ensures near { next.new ≤ next.old + 2 }
{
    match mode {
        2 => Some(regs.a[lower]),
        5 => {
            let at = onward(regs.a[lower], extended_word(ram, regs.pc, *next));
            *next += 1;
            Some(at)
        }
        6 => index_address(regs, ram, fault, word, next, regs.a[lower]),
        _ => special_address(regs, ram, fault, word, next, lower),
    }
}

/// The address of an operand of mode 7.0 to 7.3.
#[inline(always)]
fn special_address(
    regs: &Regs68,
    ram: &Ram,
    fault: &mut Fault,
    word: u32,
    next: &mut u32,
    lower: usize,
) -> Option<u32>
    requires number { lower < 4 }
    requires first { next.old < 4 }
    ensures is { FindsAddress regs.now word (λ s. special_at (words_at ram.now regs.now.pc) next.old s lower) result next.new fault.new }
    ensures near { next.new ≤ next.old + 2 }
{
    let at = *next;
    match lower {
        0 => {
            *next += 1;
            Some(extended_word(ram, regs.pc, at))
        }
        1 => {
            *next += 2;
            Some(long_at(ram, regs.pc, at))
        }
        2 => {
            *next += 1;
            Some(onward(onward(regs.pc, 2 * at), extended_word(ram, regs.pc, at)))
        }
        _ => index_address(regs, ram, fault, word, next, onward(regs.pc, 2 * at)),
    }
}

/// The address that an index word gives with a base.
#[inline(always)]
fn index_address(
    regs: &Regs68,
    ram: &Ram,
    fault: &mut Fault,
    word: u32,
    next: &mut u32,
    base: u32,
) -> Option<u32>
    requires { next.old < 4 }
    ensures is { FindsIndexed regs.now word (slice_index (words_at ram.now regs.now.pc) next.old) base result fault.new }
    ensures next { next.new ≡ next.old + 1 }
{
    let index = word_at(ram, regs.pc, *next);
    *next += 1;
    if is_index(index) {
        Some(indexed(regs, base, index_of(index)))
    } else {
        refuse_word(fault, regs.pc, word);
        None
    }
}

/// The fault of an instruction whose index word is of the full format.
#[cold]
#[inline(never)]
fn refuse_word(fault: &mut Fault, pc: u32, word: u32)
    ensures { fault.new ≡ fault_at pc Illegal word }
{
    *fault = Fault::at(pc, FaultKind::Illegal, word);
}
