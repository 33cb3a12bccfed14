ghost use Rattle.std.specs.Prelude.{◌≡◌, ◌<◌, ◌≤◌, true, Ok};
ghost use Rattle.mix_bits.specs.declared.size.Size.{Size as ASize};
ghost use Rattle.mix_bits.specs.declared.size.Size.TheVariants.{One, Two, Four};
ghost use Rattle.m68_isa.specs.declared.instructions.Instr68.TheVariants.{Movea};
ghost use Rattle.m68_isa.specs.ClassesClauses.{IsAlterable};
ghost use Rattle.m68_isa.specs.First.{first_of};
ghost use Rattle.m68_isa.specs.laws.Fits.{Fits, IsDestination};
ghost use Rattle.m68_isa.specs.Moves.{move_mode};
ghost use Rattle.m68_isa.specs.Operands.{operand_at};
ghost use Rattle.m68_isa.specs.Rows.{taken};
ghost use Rattle.big_memory.specs.StepsClauses.{Does};
ghost use Rattle.m68_ea.specs.FindsClauses.{IsAt};
ghost use Rattle.m68_ea.specs.Operands.{sourced};
ghost use Rattle.m68_effects.specs.laws.Tried.{Tries};
ghost use Rattle.m68_ea.specs.Words.{words_at};
ghost use Rattle.m68_effects.specs.laws.Ops.{by_op, runs_made};
ghost use Rattle.m68_movement.specs.inner.Moves.{moved, moves};

use super::parts::write;
use big_memory::{Did, Ram, stop};
use m68_alu::set_result_flags;
use m68_ea::{data_address, is_second_good, source, usual_or_immediate, usual_source, usual_write};
use m68_effects::go_on;
use m68_isa::{Op68, Regs68, lower_of, mode_of, move_mode_of, upper_of};
use mix_bits::{Fault, FaultKind, Size, sext, trunc, with_low};

/// The size of a move, for which the functions that choose the way of a move are compiled.
trait Width {
    ghost SIZE: { ASize };

    /// The size.
    const SIZE: Size;
}

/// A byte is moved.
struct Byte;

/// A word is moved.
struct Word;

/// A long is moved.
struct Long;

impl Width for Byte {
    ghost SIZE = { One };

    const SIZE: Size = Size::One;
}

impl Width for Word {
    ghost SIZE = { Two };

    const SIZE: Size = Size::Two;
}

impl Width for Long {
    ghost SIZE = { Four };

    const SIZE: Size = Size::Four;
}

/// move.b: any operand but an address register into one that can be written.
#[inline(never)]
pub fn do_move_byte(regs: &mut Regs68, ram: &mut Ram, fault: &mut Fault, word: u32) -> Did
    requires { Fits Op68.MoveByte word }
    ensures { Does (by_op Op68.MoveByte regs.old ram.old word) result fault.new regs.old regs.new ram.old ram.new }
{
    do_move::<Byte>(regs, ram, fault, word)
}

/// move.w
#[inline(never)]
pub fn do_move_word(regs: &mut Regs68, ram: &mut Ram, fault: &mut Fault, word: u32) -> Did
    requires { Fits Op68.MoveWord word }
    ensures { Does (by_op Op68.MoveWord regs.old ram.old word) result fault.new regs.old regs.new ram.old ram.new }
{
    do_move::<Word>(regs, ram, fault, word)
}

/// move.l
#[inline(never)]
pub fn do_move_long(regs: &mut Regs68, ram: &mut Ram, fault: &mut Fault, word: u32) -> Did
    requires { Fits Op68.MoveLong word }
    ensures { Does (by_op Op68.MoveLong regs.old ram.old word) result fault.new regs.old regs.new ram.old ram.new }
{
    do_move::<Long>(regs, ram, fault, word)
}

/// A move of a known size. Usual operands are tried first, each kind in a place of its own.
#[inline(always)]
fn do_move<W: Width>(regs: &mut Regs68, ram: &mut Ram, fault: &mut Fault, word: u32) -> Did
    requires { IsDestination word }
    ensures { Does (moves W.SIZE regs.old ram.old word) result fault.new regs.old regs.new ram.old ram.new }
{
    if move_mode_of(word) == 0 {
        if mode_of(word) > 5 {
            move_in_any::<W>(regs, ram, fault, word)
        } else if move_in(regs, ram, word, W::SIZE) {
            Did::Next
        } else {
            move_in_any::<W>(regs, ram, fault, word)
        }
    } else if mode_of(word) > 1 {
        move_in_memory::<W>(regs, ram, fault, word)
    } else {
        move_register::<W>(regs, ram, fault, word)
    }
}

/// A move of a register into memory.
#[inline(never)]
fn move_register<W: Width>(regs: &mut Regs68, ram: &mut Ram, fault: &mut Fault, word: u32) -> Did
    requires mode { (first_of word).mode < 2 }
    requires destination { IsDestination word }
    ensures { Does (moves W.SIZE regs.old ram.old word) result fault.new regs.old regs.new ram.old ram.new }
{
    if move_mode_of(word) > 5 {
        move_out_other::<W>(regs, ram, fault, word)
    } else if move_out(regs, ram, word, W::SIZE) {
        Did::Next
    } else {
        move_any::<W>(regs, ram, fault, word)
    }
}

/// A move of any operand into a data register.
#[inline(never)]
fn move_in_any<W: Width>(regs: &mut Regs68, ram: &Ram, fault: &mut Fault, word: u32) -> Did
    requires { move_mode (first_of word) ≡ 0 }
    ensures { Does (moves W.SIZE regs.old ram.now word) result fault.new regs.old regs.new ram.now ram.now }
{
    let from = (mode_of(word), lower_of(word));
    move_to_register(regs, ram, fault, word, W::SIZE, from, upper_of(word))
}

/// A move of a register to an operand of mode 6 or 7: a data register to an address is tried. Other modes, which
/// don't come here, would be done as well.
#[inline(never)]
fn move_out_other<W: Width>(regs: &mut Regs68, ram: &mut Ram, fault: &mut Fault, word: u32) -> Did
    requires { IsDestination word }
    ensures { Does (moves W.SIZE regs.old ram.old word) result fault.new regs.old regs.new ram.old ram.new }
{
    let (from, to) = (lower_of(word), (move_mode_of(word), upper_of(word)));
    if mode_of(word) == 0 {
        if move_out_far::<W>(regs, ram, fault, word, from, to) {
            return Did::Next;
        }
    }
    move_any::<W>(regs, ram, fault, word)
}

/// Tries a move of a data register to an operand of mode 6 or 7, a mode and a register, and tells whether it is
/// done.
#[inline(always)]
fn move_out_far<W: Width>(
    regs: &mut Regs68,
    ram: &mut Ram,
    fault: &mut Fault,
    word: u32,
    from: usize,
    to: (u32, usize),
) -> bool
    requires from { from < 8 }
    requires to { to.1 < 8 }
    ensures { Tries (moved W.SIZE (0, from) to regs.old ram.old word) result regs.old regs.new ram.old ram.new }
{
    if to.0 != 6 && (to.0 != 7 || to.1 > 1) {
        return false;
    }
    let mut next = 1;
    let Some(at) = data_address(regs, ram, fault, word, &mut next, to.0, to.1) else {
        return false;
    };
    match W::SIZE {
        Size::Zero => false,
        Size::One => move_out_at(regs, ram, word, Size::One, from, to, at, next),
        Size::Two => move_out_at(regs, ram, word, Size::Two, from, to, at, next),
        Size::Four => move_out_at(regs, ram, word, Size::Four, from, to, at, next),
    }
}

/// Tries to store a data register of this size where the operand was found, and tells whether it is done.
#[inline(always)]
fn move_out_at(
    regs: &mut Regs68,
    ram: &mut Ram,
    word: u32,
    size: Size,
    from: usize,
    to: (u32, usize),
    at: u32,
    next: u32,
) -> bool
    requires from { from < 8 }
    requires near { next ≤ 5 }
    requires found { IsAt regs.old size (operand_at (words_at ram.old regs.old.pc) 1 size to.0 to.1) at next }
    ensures { Tries (moved size (0, from) to regs.old ram.old word) result regs.old regs.new ram.old ram.new }
{
    let value = trunc(regs.d[from], size);
    if !ram.store_if_open(at, size, value) {
        return false;
    }
    set_result_flags(&mut regs.ccr, size, value);
    go_on(regs, next);
    true
}

/// A move of what is in no register.
#[inline(never)]
fn move_in_memory<W: Width>(regs: &mut Regs68, ram: &mut Ram, fault: &mut Fault, word: u32) -> Did
    requires { IsDestination word }
    ensures { Does (moves W.SIZE regs.old ram.old word) result fault.new regs.old regs.new ram.old ram.new }
{
    if move_usual(regs, ram, word, W::SIZE) {
        Did::Next
    } else {
        move_any::<W>(regs, ram, fault, word)
    }
}

/// A move of any operands. One into a data register has a way of its own.
#[inline(never)]
fn move_any<W: Width>(regs: &mut Regs68, ram: &mut Ram, fault: &mut Fault, word: u32) -> Did
    requires { IsDestination word }
    ensures { Does (moves W.SIZE regs.old ram.old word) result fault.new regs.old regs.new ram.old ram.new }
{
    let from = (mode_of(word), lower_of(word));
    let to = (move_mode_of(word), upper_of(word));
    if from.0 == 0 {
        move_from_register(regs, ram, fault, word, W::SIZE, from.1, to)
    } else {
        move_between(regs, ram, fault, word, W::SIZE, from, to)
    }
}

/// Tries a move of this size into a data register.
#[inline(always)]
fn move_in(regs: &mut Regs68, ram: &Ram, word: u32, size: Size) -> bool
    requires { move_mode (first_of word) ≡ 0 }
    ensures { Tries (moves size regs.old ram.now word) result regs.old regs.new ram.now ram.now }
{
    let to = upper_of(word);
    let mut next = 1;
    let Some(value) = usual_source(regs, ram, &mut next, size, mode_of(word), lower_of(word)) else {
        return false;
    };
    regs.d[to] = with_low(regs.d[to], value, size);
    set_result_flags(&mut regs.ccr, size, value);
    go_on(regs, next);
    true
}

/// Tries a move of this size out of a register.
#[inline(always)]
fn move_out(regs: &mut Regs68, ram: &mut Ram, word: u32, size: Size) -> bool
    requires { (first_of word).mode < 2 }
    ensures { Tries (moves size regs.old ram.old word) result regs.old regs.new ram.old ram.new }
{
    let value = register_value(regs, ram, size, mode_of(word), lower_of(word));
    let mut next = 1;
    if !usual_write(
        regs,
        ram,
        &mut next,
        size,
        move_mode_of(word),
        upper_of(word),
        value,
    ) {
        return false;
    }
    set_result_flags(&mut regs.ccr, size, value);
    go_on(regs, next);
    true
}

/// The value of an operand in a register.
#[inline(always)]
fn register_value(regs: &Regs68, ram: &Ram, size: Size, mode: u32, lower: usize) -> u32
    requires mode { mode < 2 }
    requires number { lower < 8 }
    ensures { let e = operand_at (words_at ram.now regs.now.pc) 1 size mode lower in
        (e.good ≡ true) × (e.next ≡ 1) × (sourced regs.now ram.now size e.ea ≡ Ok (regs.now, result)) }
{
    if mode == 0 {
        trunc(regs.d[lower], size)
    } else {
        trunc(regs.a[lower], size)
    }
}

/// Tries a move of this size whose operands are memory of usual modes, or whose source is immediate, and tells
/// whether it is done.
#[inline(always)]
fn move_usual(regs: &mut Regs68, ram: &mut Ram, word: u32, size: Size) -> bool
    ensures { Tries (moves size regs.old ram.old word) result regs.old regs.new ram.old ram.new }
{
    let (from, to) = (lower_of(word), upper_of(word));
    let before = regs.a[from];
    let mut next = 1;
    let Some(value) = usual_or_immediate(regs, ram, &mut next, size, mode_of(word), from) else {
        return false;
    };
    if !usual_write(regs, ram, &mut next, size, move_mode_of(word), to, value) {
        regs.a[from] = before;
        return false;
    }
    set_result_flags(&mut regs.ccr, size, value);
    go_on(regs, next);
    true
}

/// A move of this size from an operand, a mode and a register, to a data register.
#[inline(always)]
fn move_to_register(
    regs: &mut Regs68,
    ram: &Ram,
    fault: &mut Fault,
    word: u32,
    size: Size,
    from: (u32, usize),
    to: usize,
) -> Did
    requires from { from.1 < 8 }
    requires to { to < 8 }
    ensures { Does (moved size from (0, to) regs.old ram.now word) result fault.new regs.old regs.new ram.now ram.now }
{
    let mut next = 1;
    let Some(value) = source(regs, ram, fault, word, &mut next, size, from.0, from.1) else {
        return Did::Stop;
    };
    regs.d[to] = with_low(regs.d[to], value, size);
    set_result_flags(&mut regs.ccr, size, value);
    go_on(regs, next)
}

/// A move of this size from a data register to an operand, a mode and a register.
#[inline(always)]
fn move_from_register(
    regs: &mut Regs68,
    ram: &mut Ram,
    fault: &mut Fault,
    word: u32,
    size: Size,
    from: usize,
    to: (u32, usize),
) -> Did
    requires from { from < 8 }
    requires to { to.1 < 8 }
    requires alterable { IsAlterable to.0 to.1 }
    ensures { Does (moved size (0, from) to regs.old ram.old word) result fault.new regs.old regs.new ram.old ram.new }
{
    let value = trunc(regs.d[from], size);
    let mut next = 1;
    if !write(regs, ram, fault, word, &mut next, size, to.0, to.1, value) {
        return Did::Stop;
    }
    set_result_flags(&mut regs.ccr, size, value);
    go_on(regs, next)
}

/// A move of this size from an operand to another one, each a mode and a register. The index words of
/// both are tested before any access.
#[inline(never)]
fn move_between(
    regs: &mut Regs68,
    ram: &mut Ram,
    fault: &mut Fault,
    word: u32,
    size: Size,
    from: (u32, usize),
    to: (u32, usize),
) -> Did
    requires from { from.1 < 8 }
    requires to { to.1 < 8 }
    requires alterable { IsAlterable to.0 to.1 }
    ensures { Does (moved size from to regs.old ram.old word) result fault.new regs.old regs.new ram.old ram.new }
{
    if !is_second_good(ram, regs.pc, size, from, to) {
        return stop::<Regs68>(fault, FaultKind::Illegal, regs.pc, word);
    }
    let before = regs.a[from.1];
    let mut next = 1;
    let Some(value) = source(regs, ram, fault, word, &mut next, size, from.0, from.1) else {
        return Did::Stop;
    };
    if !write(regs, ram, fault, word, &mut next, size, to.0, to.1, value) {
        regs.a[from.1] = before;
        return Did::Stop;
    }
    set_result_flags(&mut regs.ccr, size, value);
    go_on(regs, next)
}

/// movea.w: a word with its sign into an address register.
#[inline(never)]
pub fn do_movea_word(regs: &mut Regs68, ram: &Ram, fault: &mut Fault, word: u32) -> Did
    ensures { Does (by_op Op68.MoveaWord regs.old ram.now word) result fault.new regs.old regs.new ram.now ram.now }
{
    if movea_usual(regs, ram, word, Size::Two) {
        Did::Next
    } else {
        movea_word_of_any(regs, ram, fault, word)
    }
}

/// movea.w of an operand of any mode.
#[inline(never)]
fn movea_word_of_any(regs: &mut Regs68, ram: &Ram, fault: &mut Fault, word: u32) -> Did
    ensures { Does (by_op Op68.MoveaWord regs.old ram.now word) result fault.new regs.old regs.new ram.now ram.now }
{
    let (mode, lower) = (mode_of(word), lower_of(word));
    move_to_address(
        regs,
        ram,
        fault,
        word,
        Size::Two,
        mode,
        lower,
        upper_of(word),
    )
}

/// movea.l
#[inline(never)]
pub fn do_movea_long(regs: &mut Regs68, ram: &Ram, fault: &mut Fault, word: u32) -> Did
    ensures { Does (by_op Op68.MoveaLong regs.old ram.now word) result fault.new regs.old regs.new ram.now ram.now }
{
    if movea_usual(regs, ram, word, Size::Four) {
        Did::Next
    } else {
        movea_long_of_any(regs, ram, fault, word)
    }
}

/// movea.l of an operand of any mode.
#[inline(never)]
fn movea_long_of_any(regs: &mut Regs68, ram: &Ram, fault: &mut Fault, word: u32) -> Did
    ensures { Does (by_op Op68.MoveaLong regs.old ram.now word) result fault.new regs.old regs.new ram.now ram.now }
{
    let (mode, lower) = (mode_of(word), lower_of(word));
    move_to_address(
        regs,
        ram,
        fault,
        word,
        Size::Four,
        mode,
        lower,
        upper_of(word),
    )
}

/// Tries a move of this size of a register, or of memory of a usual mode, into an address register, and tells
/// whether it is done.
#[inline(always)]
fn movea_usual(regs: &mut Regs68, ram: &Ram, word: u32, size: Size) -> bool
    ensures { let f = first_of word in
        let from = operand_at (words_at ram.now regs.old.pc) 1 size f.mode f.lower in
        Tries (runs_made regs.old ram.now word (taken (Movea size from.ea f.upper) from)) result regs.old regs.new ram.now ram.now }
{
    let upper = upper_of(word);
    let mut next = 1;
    let Some(value) = usual_source(regs, ram, &mut next, size, mode_of(word), lower_of(word)) else {
        return false;
    };
    regs.a[upper] = sext(value, size);
    go_on(regs, next);
    true
}

/// A move of this size into an address register.
#[inline(always)]
fn move_to_address(
    regs: &mut Regs68,
    ram: &Ram,
    fault: &mut Fault,
    word: u32,
    size: Size,
    mode: u32,
    lower: usize,
    upper: usize,
) -> Did
    requires from { lower < 8 }
    requires to { upper < 8 }
    ensures { let from = operand_at (words_at ram.now regs.old.pc) 1 size mode lower in
        Does (runs_made regs.old ram.now word (taken (Movea size from.ea upper) from)) result fault.new regs.old regs.new ram.now ram.now }
{
    let mut next = 1;
    let Some(value) = source(regs, ram, fault, word, &mut next, size, mode, lower) else {
        return Did::Stop;
    };
    regs.a[upper] = sext(value, size);
    go_on(regs, next)
}
