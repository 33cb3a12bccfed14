// Operands in registers, immediate ones, and in memory by the usual modes: (An), (An)+, -(An) and (d16,An).
// What is refused, stands elsewhere, or is not plainly open to a store, changes nothing here and is left to the
// calls for operands of any mode.
ghost use Rattle.std.specs.Prelude.{◌≡◌, ◌+◌, ◌<◌, ◌≤◌, ◌==◌, nat_le, ◌&&◌, ◌||◌, IfSome, IfNone, MatchOption, Ok, OnSome, is_ok, true, false, slice_index};
ghost use Rattle.mix_bits.specs.Sizes.{bytes_of};
ghost use Rattle.big_memory.specs.Open.{is_open};
ghost use Rattle.big_memory.specs.Memory.{loaded};
ghost use Rattle.m68_isa.specs.Operands.{operand_at};
ghost use Rattle.m68_ea.specs.Operands.{sourced, written_at};
ghost use Rattle.m68_ea.specs.Places.{with_address};
ghost use Rattle.m68_ea.specs.Usual.{FindsUsual, IsLeft, IsUsual, PutsUsual, TakesUsual, WritesUsual, is_usual};
ghost use Rattle.m68_ea.specs.Words.{words_at};
ghost use Rattle.m68_ea.specs.declared.places.Place68.TheVariants.{Mem};

use super::places::step;
use super::words::{extended_word, immediate_at};
use big_memory::Ram;
use m68_isa::{Regs68, immediate_words};
use mix_bits::{Size, backward, onward, trunc};

/// An operand in memory of a usual mode.
#[derive(Clone, Copy)]
pub struct Usual {
    pub at: u32,
    /// The value of its address register behind the instruction.
    pub after: u32,
    /// The number of the word behind its extension words.
    pub next: u32,
}

/// Where an operand of a usual mode stands, whose extension word is word `next` of the instruction at
/// `regs.pc`; an operand of another mode is not found. Nothing is changed.
#[inline(always)]
fn place_usual(
    regs: &Regs68,
    ram: &Ram,
    next: u32,
    size: Size,
    mode: u32,
    lower: usize,
) -> Option<Usual>
    requires number { lower < 8 }
    requires first { next < 5 }
    ensures is { IfSome result (λ found. IsUsual regs.now size (operand_at (words_at ram.now regs.now.pc) next size mode lower) lower found) }
    ensures near { IfSome result (λ found. found.next ≤ next + 1) }
    ensures only { OnSome result (is_usual mode ≡ true) }
    ensures left { IfNone result (is_usual mode ≡ false) }
{
    let before = regs.a[lower];
    match mode {
        2 => Some(Usual {
            at: before,
            after: before,
            next,
        }),
        3 => Some(Usual {
            at: before,
            after: onward(before, step(lower, size)),
            next,
        }),
        4 => {
            let at = backward(before, step(lower, size));
            Some(Usual {
                at,
                after: at,
                next,
            })
        }
        5 => Some(Usual {
            at: onward(before, extended_word(ram, regs.pc, next)),
            after: before,
            next: next + 1,
        }),
        _ => None,
    }
}

/// The value at an address, where it can be read.
#[inline(always)]
fn peek(ram: &Ram, a: u32, size: Size) -> Option<u32>
    ensures { MatchOption result (is_ok (loaded ram.now a size) ≡ false) (λ value. loaded ram.now a size ≡ Ok value) }
{
    ram.load(a, size).ok()
}

/// Finds an operand in memory of a usual mode that can be read; its value stands beside it. Nothing is changed.
#[inline(always)]
pub fn find_usual(
    regs: &Regs68,
    ram: &Ram,
    next: u32,
    size: Size,
    mode: u32,
    lower: usize,
) -> Option<(Usual, u32)>
    requires number { lower < 8 }
    requires first { next < 4 }
    ensures is { IfSome result (λ found. FindsUsual regs.now ram.now size (operand_at (words_at ram.now regs.now.pc) next size mode lower) lower found.0 found.1) }
    ensures near { IfSome result (λ found. found.0.next ≤ next + 1) }
    ensures only { OnSome result (is_usual mode ≡ true) }
    ensures left { IfNone result (IsLeft (is_usual mode) (sourced regs.now ram.now size (operand_at (words_at ram.now regs.now.pc) next size mode lower).ea)) }
{
    let found = place_usual(regs, ram, next, size, mode, lower)?;
    let value = peek(ram, found.at, size)?;
    Some((found, value))
}

/// Stores a value where an operand of a usual mode was found and the place is plainly open, with its increment
/// or decrement, and tells whether it did; else nothing is changed.
#[inline(always)]
pub fn put_usual(
    regs: &mut Regs68,
    ram: &mut Ram,
    found: Usual,
    lower: usize,
    size: Size,
    value: u32,
) -> bool
    requires { lower < 8 }
    ensures { let then = with_address regs.old lower found.after in
        PutsUsual (is_open ram.old found.at (bytes_of size)) then (written_at then ram.old (Mem found.at) size value) result regs.old regs.new ram.old ram.new }
{
    let done = ram.store_if_open(found.at, size, value);
    if done {
        regs.a[lower] = found.after;
    }
    done
}

/// The value of an operand in a register or in memory of a usual mode, with its increment or decrement
/// applied. An operand of another mode, or one that can't be read, has no value here.
#[inline(always)]
pub fn usual_source(
    regs: &mut Regs68,
    ram: &Ram,
    next: &mut u32,
    size: Size,
    mode: u32,
    lower: usize,
) -> Option<u32>
    requires number { lower < 8 }
    requires first { next.old < 4 }
    ensures is { TakesUsual regs.old ram.now next.old size (operand_at (words_at ram.now regs.old.pc) next.old size mode lower) (nat_le mode 5) result next.new regs.new }
    ensures near { next.new ≤ next.old + 1 }
    ensures back { OnSome result (with_address regs.new lower (slice_index regs.old.a lower) ≡ regs.old) }
{
    match mode {
        0 => Some(trunc(regs.d[lower], size)),
        1 => Some(trunc(regs.a[lower], size)),
        _ => source_in_memory(regs, ram, next, size, mode, lower),
    }
}

/// The value of an operand in memory of a usual mode, with its increment or decrement applied, or of an
/// immediate one. An operand of another mode, or one that can't be read, has no value here.
#[inline(always)]
pub fn usual_or_immediate(
    regs: &mut Regs68,
    ram: &Ram,
    next: &mut u32,
    size: Size,
    mode: u32,
    lower: usize,
) -> Option<u32>
    requires number { lower < 8 }
    requires first { next.old < 4 }
    ensures is { TakesUsual regs.old ram.now next.old size (operand_at (words_at ram.now regs.old.pc) next.old size mode lower) (is_usual mode || (mode == 7 && lower == 4)) result next.new regs.new }
    ensures near { next.new ≤ next.old + 2 }
    ensures back { OnSome result (with_address regs.new lower (slice_index regs.old.a lower) ≡ regs.old) }
{
    if mode == 7 && lower == 4 {
        let value = immediate_at(ram, regs.pc, *next, size);
        *next += immediate_words(size);
        Some(trunc(value, size))
    } else {
        source_in_memory(regs, ram, next, size, mode, lower)
    }
}

/// The value of an operand in memory of a usual mode, in the same way.
#[inline(always)]
fn source_in_memory(
    regs: &mut Regs68,
    ram: &Ram,
    next: &mut u32,
    size: Size,
    mode: u32,
    lower: usize,
) -> Option<u32>
    requires number { lower < 8 }
    requires first { next.old < 4 }
    ensures is { TakesUsual regs.old ram.now next.old size (operand_at (words_at ram.now regs.old.pc) next.old size mode lower) (is_usual mode) result next.new regs.new }
    ensures near { next.new ≤ next.old + 1 }
    ensures back { OnSome result (with_address regs.new lower (slice_index regs.old.a lower) ≡ regs.old) }
{
    let before = regs.a[lower];
    match mode {
        2 => peek(ram, before, size),
        3 => {
            let value = peek(ram, before, size)?;
            regs.a[lower] = onward(before, step(lower, size));
            Some(value)
        }
        4 => {
            let at = backward(before, step(lower, size));
            let value = peek(ram, at, size)?;
            regs.a[lower] = at;
            Some(value)
        }
        5 => {
            let at = onward(before, extended_word(ram, regs.pc, *next));
            let value = peek(ram, at, size)?;
            *next += 1;
            Some(value)
        }
        _ => None,
    }
}

/// Writes a value into memory of a usual mode, and tells whether it did; an increment or decrement is
/// applied. An operand of another mode, or one that isn't plainly open, is not written.
#[inline(always)]
pub fn usual_write(
    regs: &mut Regs68,
    ram: &mut Ram,
    next: &mut u32,
    size: Size,
    mode: u32,
    lower: usize,
    value: u32,
) -> bool
    requires number { lower < 8 }
    requires first { next.old < 4 }
    ensures is { WritesUsual regs.old ram.old next.old size (operand_at (words_at ram.old regs.old.pc) next.old size mode lower) value (is_usual mode) result next.new regs.new ram.new }
    ensures near { next.new ≤ next.old + 1 }
{
    let before = regs.a[lower];
    match mode {
        2 => ram.store_if_open(before, size, value),
        3 => {
            let done = ram.store_if_open(before, size, value);
            if done {
                regs.a[lower] = onward(before, step(lower, size));
            }
            done
        }
        4 => {
            let at = backward(before, step(lower, size));
            let done = ram.store_if_open(at, size, value);
            if done {
                regs.a[lower] = at;
            }
            done
        }
        5 => {
            let at = onward(before, extended_word(ram, regs.pc, *next));
            let done = ram.store_if_open(at, size, value);
            if done {
                *next += 1;
            }
            done
        }
        _ => false,
    }
}
