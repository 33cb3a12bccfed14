// Where an instruction of 68K code stores, as its first word and the modes of its operands tell, without decoding it.
ghost use Rattle.std.specs.Prelude.{◌≡◌, ◌+◌, ◌<◌, ◌≤◌, ◌==◌, IfSome, length, true};
ghost use Rattle.m68_isa.specs.Decode.{decoded};
ghost use Rattle.m68_isa.specs.Moves.{move_mode};
ghost use Rattle.m68_isa.specs.Operands.{immediate_words};
ghost use Rattle.m68_isa.specs.First.{first_of};
ghost use Rattle.m68_ea.specs.Words.{words_at};
ghost use Rattle.mix_reach.specs.inner.Quick.{Changes, ChangesBy, IsInto, Moves, Saves, keeps_memory as keeps_memory_by};
ghost use Rattle.mix_reach.specs.laws.Ranges.{nothing as nothing_of, plain as plain_of};
ghost use Rattle.mix_reach.specs.inner.Steps.{Tells, TellsBy};
ghost use Rattle.mix_reach.specs.laws.Steps.{decoded_stores};

use crate::m68::{at_place, below, links, pushes};
use crate::reach::{Reach, nothing};
use big_memory::Ram;
use m68_ea::{find, word_at};
use m68_isa::{
    Op68, Regs68, lower_of, mode_of, move_mode_of, op_of_word, size_of, transfer_size_of, upper_of,
};
use mix_bits::{Fault, FaultKind, Size, backward};

/// Whether an operation leaves memory as it is, as the first word tells: it changes a data register, or stores nowhere.
#[inline(always)]
fn keeps_memory(op: Op68, word: u32) -> bool
    ensures { result ≡ keeps_memory_by op (first_of word) }
{
    match op {
        Op68::Ori => changes_data(word),
        Op68::Andi => changes_data(word),
        Op68::Subi => changes_data(word),
        Op68::Addi => changes_data(word),
        Op68::Eori => changes_data(word),
        Op68::Cmpi => changes_data(word),
        Op68::BitByNumber => changes_data(word),
        Op68::BitByRegister => changes_data(word),
        Op68::Movep => false,
        Op68::MoveByte => moves_to_data(word),
        Op68::MoveWord => moves_to_data(word),
        Op68::MoveLong => moves_to_data(word),
        Op68::Negx => changes_data(word),
        Op68::Clr => changes_data(word),
        Op68::Neg => changes_data(word),
        Op68::Not => changes_data(word),
        Op68::MoveFromSr => changes_data(word),
        Op68::Nbcd => changes_data(word),
        Op68::Pea => false,
        Op68::MovemToMemory => false,
        Op68::Tas => changes_data(word),
        Op68::Link => false,
        Op68::LinkLong => false,
        Op68::Jsr => false,
        Op68::Addq => changes_data(word),
        Op68::Subq => changes_data(word),
        Op68::Scc => changes_data(word),
        Op68::BsrByte => false,
        Op68::BsrWord => false,
        Op68::BsrLong => false,
        Op68::OrToMemory => false,
        Op68::Sbcd => changes_data(word),
        Op68::SubToMemory => false,
        Op68::Subx => changes_data(word),
        Op68::Eor => changes_data(word),
        Op68::AndToMemory => false,
        Op68::Abcd => changes_data(word),
        Op68::AddToMemory => false,
        Op68::Addx => changes_data(word),
        Op68::ShiftMemory => false,
        Op68::LineA => false,
        _ => true,
    }
}

/// Whether bits 5 to 3 tell a data register.
#[inline(always)]
fn changes_data(word: u32) -> bool
    ensures { result ≡ ((first_of word).mode == 0) }
{
    mode_of(word) == 0
}

/// Whether the destination of a move is a data register.
#[inline(always)]
fn moves_to_data(word: u32) -> bool
    ensures { result ≡ (move_mode (first_of word) == 0) }
{
    move_mode_of(word) == 0
}

/// Whether an instruction none of whose words is missing leaves memory as it is, as its first word tells.
#[inline(always)]
pub fn is_still(ram: &Ram, regs: &Regs68) -> bool
    requires { 5 ≤ length (words_at ram.now regs.now.pc) }
    ensures { result ≡ true → decoded_stores regs.now (decoded (words_at ram.now regs.now.pc)) ≡ plain_of nothing_of }
{
    let word = word_at(ram, regs.pc, 0);
    keeps_memory(op_of_word(word), word)
}

/// Where an instruction stores none of whose words is missing; None where it has to be decoded.
#[inline(always)]
pub fn quick_stores(ram: &Ram, regs: &Regs68) -> Option<Reach>
    requires { 5 ≤ length (words_at ram.now regs.now.pc) }
    ensures { IfSome result (Tells regs.now (words_at ram.now regs.now.pc)) }
{
    let word = word_at(ram, regs.pc, 0);
    let op = op_of_word(word);
    if keeps_memory(op, word) {
        Some(nothing())
    } else {
        storing(ram, regs, word, op)
    }
}

/// The same of an operation that stores, or may.
#[inline(always)]
fn storing(ram: &Ram, regs: &Regs68, word: u32, op: Op68) -> Option<Reach>
    requires { 5 ≤ length (words_at ram.now regs.now.pc) }
    ensures { IfSome result (TellsBy regs.now (words_at ram.now regs.now.pc) (first_of word) op) }
{
    match op {
        Op68::MoveByte => moved(ram, regs, word, Size::One),
        Op68::MoveWord => moved(ram, regs, word, Size::Two),
        Op68::MoveLong => moved(ram, regs, word, Size::Four),
        Op68::Negx => changed(ram, regs, word),
        Op68::Clr => changed(ram, regs, word),
        Op68::Neg => changed(ram, regs, word),
        Op68::Not => changed(ram, regs, word),
        Op68::Addq => changed(ram, regs, word),
        Op68::Subq => changed(ram, regs, word),
        Op68::OrToMemory => changed(ram, regs, word),
        Op68::SubToMemory => changed(ram, regs, word),
        Op68::Eor => changed(ram, regs, word),
        Op68::AndToMemory => changed(ram, regs, word),
        Op68::AddToMemory => changed(ram, regs, word),
        Op68::BsrByte => Some(pushes(regs)),
        Op68::BsrWord => Some(pushes(regs)),
        Op68::Ori => changed_by(ram, regs, word),
        Op68::Andi => changed_by(ram, regs, word),
        Op68::Subi => changed_by(ram, regs, word),
        Op68::Addi => changed_by(ram, regs, word),
        Op68::Eori => changed_by(ram, regs, word),
        Op68::Cmpi => changed_by(ram, regs, word),
        Op68::Link => Some(links(regs)),
        Op68::MovemToMemory => saved(regs, word),
        _ => None,
    }
}

/// Where an instruction stores that changes one operand, whose size bits 7 and 6 tell.
#[inline(never)]
fn changed(ram: &Ram, regs: &Regs68, word: u32) -> Option<Reach>
    ensures { IfSome result (Changes regs.now (words_at ram.now regs.now.pc) (first_of word)) }
{
    let size = size_of(word);
    at_operand(ram, regs, word, 1, size, mode_of(word), lower_of(word))
}

/// The same of an instruction with an immediate, whose words come first.
#[inline(never)]
fn changed_by(ram: &Ram, regs: &Regs68, word: u32) -> Option<Reach>
    ensures { IfSome result (ChangesBy regs.now (words_at ram.now regs.now.pc) (first_of word)) }
{
    let size = size_of(word);
    at_operand(
        ram,
        regs,
        word,
        behind_immediate(size),
        size,
        mode_of(word),
        lower_of(word),
    )
}

/// The number of the word behind an immediate.
#[inline(always)]
fn behind_immediate(size: Size) -> u32
    ensures is { result ≡ 1 + immediate_words size }
    ensures near { result < 4 }
{
    match size {
        Size::Zero => 1,
        Size::One => 2,
        Size::Two => 2,
        Size::Four => 3,
    }
}

/// Where a move stores: its destination is found behind its source.
#[inline(never)]
fn moved(ram: &Ram, regs: &Regs68, word: u32, size: Size) -> Option<Reach>
    ensures { IfSome result (Moves regs.now (words_at ram.now regs.now.pc) (first_of word) size) }
{
    let mut found = *regs;
    let mut fault = Fault::at(0, FaultKind::Illegal, 0);
    let mut next = 1;
    match find(
        &mut found,
        ram,
        &mut fault,
        word,
        &mut next,
        size,
        mode_of(word),
        lower_of(word),
    ) {
        Some(_) => at_operand(
            ram,
            &found,
            word,
            next,
            size,
            move_mode_of(word),
            upper_of(word),
        ),
        None => None,
    }
}

/// Where a value is stored into an operand whose extension words begin with word `first`.
#[inline(always)]
fn at_operand(
    ram: &Ram,
    regs: &Regs68,
    word: u32,
    first: u32,
    size: Size,
    mode: u32,
    lower: usize,
) -> Option<Reach>
    requires number { lower < 8 }
    requires near { first < 4 }
    ensures { IfSome result (IsInto regs.now (words_at ram.now regs.now.pc) first size mode lower) }
{
    let mut found = *regs;
    let mut fault = Fault::at(0, FaultKind::Illegal, 0);
    let mut next = first;
    match find(
        &mut found, ram, &mut fault, word, &mut next, size, mode, lower,
    ) {
        Some(target) => Some(at_place(target.place)),
        None => None,
    }
}

/// Where several registers are stored downwards from an address register.
fn saved(regs: &Regs68, word: u32) -> Option<Reach>
    ensures { IfSome result (Saves regs.now (first_of word)) }
{
    if mode_of(word) == 4 {
        Some(below(backward(regs.a[lower_of(word)], transfer_size_of(word).bytes())))
    } else {
        None
    }
}
