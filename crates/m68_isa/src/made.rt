// The instruction of an operation, whose fields the first word and the words behind it give.
ghost use Rattle.std.specs.Prelude.{◌≡◌, ◌≢◌, ◌+◌, ◌<◌, ◌≤◌};
ghost use Rattle.m68_isa.specs.First.{first_of};
ghost use Rattle.m68_isa.specs.Operands.{operand_at as operand_at_lem};
ghost use Rattle.m68_isa.specs.Immediates.{immediate_with};
ghost use Rattle.m68_isa.specs.Moves.{moved_of};
ghost use Rattle.m68_isa.specs.Made.{made as made_lem};
ghost use Rattle.m68_isa.specs.laws.Fits.{Fits};
ghost use Rattle.m68_isa.specs.inner.Lines.{IsFromLine4, IsFromLine5, IsFromLine9, IsFromTest};
ghost use Rattle.m68_isa.specs.inner.Fields.{HasFound};
ghost use Rattle.m68_isa.specs.Fields.{HasRegisters};
ghost use Rattle.m68_isa.specs.Extended.{IsExtendedEa};
ghost use Rattle.m68_isa.specs.inner.Extended.{IsExtendedFound};

use super::fields::{
    bit_op_of, byte_of, condition_of, exchange_of, is_in_memory, is_left, is_to_memory,
    logic_op_of, long_or_word_of, lower_of, memory_shift_of, mode_of, move_mode_of, quick_of,
    register_shift_of, shift_count_of, size_of, transfer_size_of, trap_of, upper_of,
};
use super::found::Found;
use super::instructions::{ImmediateOp, Instr68, JumpOp, PlainOp, QuickOp};
use super::op::Op68;
use super::operand::{
    Operand, extended_word, immediate_at, immediate_words, long_at, operand_at, word_at,
};
use super::register_word::{high_of, is_register_word, is_signed, is_wide, low_of};
use mix_bits::Size;

/// The operand of the first word's low six bits, whose own words begin with word `at`.
fn operand_of(word: u32, words: &[u16], at: u32, size: Size) -> Operand
    requires { at < 50 }
    ensures value { result ≡ operand_at_lem words.now at size (first_of word).mode (first_of word).lower }
    ensures behind { at ≤ result.next }
    ensures near { result.next ≤ at + 2 }
    ensures registers { HasRegisters result.ea }
    ensures extended { IsExtendedEa result.ea }
{
    operand_at(words, at, size, mode_of(word) as u8, lower_of(word) as u8)
}

// An instruction of so many words, none of which is an operand's.
macro_rules! words {
    ($used:expr => $name:ident { $($fields:tt)* }) => {
        Found::Made {
            instruction: Instr68::$name { $($fields)* },
            used: $used,
            good: true,
        }
    };
}

// An instruction that ends with this operand's words.
macro_rules! taken {
    ($last:ident, $name:ident { $($fields:tt)* }) => {
        Found::Made {
            instruction: Instr68::$name { $($fields)* },
            used: $last.next,
            good: $last.good,
        }
    };
}

// An instruction of one operand of this size.
macro_rules! one {
    ($word:ident, $words:ident, $size:expr, $ea:ident => $name:ident { $($fields:tt)* }) => {{
        let last = operand_of($word, $words, 1, $size);
        let $ea = last.ea;
        taken!(last, $name { $($fields)* })
    }};
}

// The same, with a word in front of the operand's.
macro_rules! behind {
    ($word:ident, $words:ident, $size:expr, $value:ident, $ea:ident => $name:ident { $($fields:tt)* }) => {{
        let $value = word_at($words, 1);
        let last = operand_of($word, $words, 2, $size);
        let $ea = last.ea;
        taken!(last, $name { $($fields)* })
    }};
}

// A long multiplication or division: the word of the registers, then those of the source.
macro_rules! by_registers {
    ($word:ident, $words:ident, $name:ident) => {{
        let registers = word_at($words, 1);
        let by = operand_of($word, $words, 2, Size::Four);
        Found::Made {
            instruction: Instr68::$name {
                signed: is_signed(registers),
                wide: is_wide(registers),
                by: by.ea,
                high: high_of(registers) as u8,
                low: low_of(registers) as u8,
            },
            used: by.next,
            good: is_register_word(registers) && by.good,
        }
    }};
}

/// An operation with an immediate, whose words come first, then those of the destination.
fn immediate(op: ImmediateOp, word: u32, words: &[u16]) -> Found
    ensures value { result ≡ immediate_with op (first_of word) words.now }
    ensures fields { HasFound result }
    ensures extended { IsExtendedFound result }
{
    let size = size_of(word);
    let value = immediate_at(words, 1, size);
    let last = operand_of(word, words, 1 + immediate_words(size), size);
    let to = last.ea;
    taken!(
        last,
        Immediate {
            op,
            size,
            value,
            to
        }
    )
}

/// A move: the source's words, then the destination's.
fn moved(size: Size, word: u32, words: &[u16]) -> Found
    requires { size ≢ Size.Zero }
    ensures value { result ≡ moved_of size (first_of word) words.now }
    ensures fields { HasFound result }
    ensures extended { IsExtendedFound result }
{
    let from = operand_of(word, words, 1, size);
    let mode = move_mode_of(word) as u8;
    let to = operand_at(words, from.next, size, mode, upper_of(word) as u8);
    Found::Made {
        instruction: Instr68::Move {
            size,
            from: from.ea,
            to: to.ea,
        },
        used: to.next,
        good: from.good && to.good,
    }
}

/// The instruction of an operation: of one in the lines 0 to 3 of the manual's table, of a refused one, or of one further down.
pub fn made(op: Op68, word: u32, words: &[u16]) -> Found
    requires { Fits op word }
    ensures value { result ≡ made_lem op (first_of word) words.now }
    ensures fields { HasFound result }
    ensures extended { IsExtendedFound result }
{
    let transfer = transfer_size_of(word);
    let (upper, lower) = (upper_of(word) as u8, lower_of(word) as u8);
    match op {
        Op68::Ori => immediate(ImmediateOp::Ori, word, words),
        Op68::Andi => immediate(ImmediateOp::Andi, word, words),
        Op68::Subi => immediate(ImmediateOp::Subi, word, words),
        Op68::Addi => immediate(ImmediateOp::Addi, word, words),
        Op68::Eori => immediate(ImmediateOp::Eori, word, words),
        Op68::Cmpi => immediate(ImmediateOp::Cmpi, word, words),
        Op68::LogicToCcr =>
            words!(2 => ImmediateToCcr { op: logic_op_of(word), value: immediate_at(words, 1, Size::One) }),
        Op68::BitByNumber =>
            behind!(word, words, Size::One, number, to => BitByNumber { op: bit_op_of(word), bit: number % 0x100, to }),
        Op68::BitByRegister =>
            one!(word, words, Size::One, to => BitByRegister { op: bit_op_of(word), register: upper, to }),
        Op68::Movep =>
            words!(2 => Movep { size: transfer, to_memory: is_to_memory(word), register: upper, base: lower, disp: extended_word(words, 1) }),
        Op68::MoveByte => moved(Size::One, word, words),
        Op68::MoveWord => moved(Size::Two, word, words),
        Op68::MoveLong => moved(Size::Four, word, words),
        Op68::MoveaWord =>
            one!(word, words, Size::Two, from => Movea { size: Size::Two, from, to: upper }),
        Op68::MoveaLong =>
            one!(word, words, Size::Four, from => Movea { size: Size::Four, from, to: upper }),
        Op68::Privileged => Found::Privileged,
        Op68::Illegal => Found::Illegal,
        Op68::LineA => Found::Illegal,
        Op68::LineF => Found::Illegal,
        _ => in_line_4(op, word, words),
    }
}

/// The same in line 4 below 4A00, or further down.
fn in_line_4(op: Op68, word: u32, words: &[u16]) -> Found
    requires fits { Fits op word }
    requires line { IsFromLine4 op }
    ensures value { result ≡ made_lem op (first_of word) words.now }
    ensures fields { HasFound result }
    ensures extended { IsExtendedFound result }
{
    let size = size_of(word);
    let transfer = transfer_size_of(word);
    let lower = lower_of(word) as u8;
    match op {
        Op68::Negx => one!(word, words, size, to => Negx { size, to }),
        Op68::Clr => one!(word, words, size, to => Clr { size, to }),
        Op68::Neg => one!(word, words, size, to => Neg { size, to }),
        Op68::Not => one!(word, words, size, to => Not { size, to }),
        Op68::MoveFromSr => one!(word, words, Size::Two, to => MoveFromSr { to }),
        Op68::MoveToCcr => one!(word, words, Size::Two, from => MoveToCcr { from }),
        Op68::Nbcd => one!(word, words, Size::One, to => Nbcd { to }),
        Op68::Swap => words!(1 => Swap { register: lower }),
        Op68::Pea => one!(word, words, Size::Four, from => Pea { from }),
        Op68::Ext => words!(1 => Ext { size: transfer, register: lower }),
        Op68::ExtByte => words!(1 => ExtByte { register: lower }),
        Op68::MovemToMemory =>
            behind!(word, words, transfer, mask, to => MovemToMemory { size: transfer, mask, to }),
        _ => in_line_4_from_test(op, word, words),
    }
}

/// The same in line 4 from 4A00 on, or further down.
fn in_line_4_from_test(op: Op68, word: u32, words: &[u16]) -> Found
    requires fits { Fits op word }
    requires line { IsFromTest op }
    ensures value { result ≡ made_lem op (first_of word) words.now }
    ensures fields { HasFound result }
    ensures extended { IsExtendedFound result }
{
    let size = size_of(word);
    let transfer = transfer_size_of(word);
    let (upper, lower) = (upper_of(word) as u8, lower_of(word) as u8);
    match op {
        Op68::Tst => one!(word, words, size, of => Tst { size, of }),
        Op68::Tas => one!(word, words, Size::One, to => Tas { to }),
        Op68::MulLong => by_registers!(word, words, MulLong),
        Op68::DivLong => by_registers!(word, words, DivLong),
        Op68::MovemFromMemory =>
            behind!(word, words, transfer, mask, from => MovemFromMemory { size: transfer, mask, from }),
        Op68::Trap => words!(1 => Trap { number: trap_of(word) as u8 }),
        Op68::Link => words!(2 => Link { register: lower, disp: extended_word(words, 1) }),
        Op68::LinkLong => words!(3 => LinkLong { register: lower, disp: long_at(words, 1) }),
        Op68::Unlk => words!(1 => Unlk { register: lower }),
        Op68::Nop => words!(1 => Plain { op: PlainOp::Nop }),
        Op68::Rtd => words!(2 => Rtd { disp: extended_word(words, 1) }),
        Op68::Rts => words!(1 => Plain { op: PlainOp::Rts }),
        Op68::Trapv => words!(1 => Trapv {}),
        Op68::Rtr => words!(1 => Rtr {}),
        Op68::Jsr => one!(word, words, Size::Four, to => Jump { op: JumpOp::Jsr, to }),
        Op68::Jmp => one!(word, words, Size::Four, to => Jump { op: JumpOp::Jmp, to }),
        Op68::Chk => one!(word, words, Size::Two, bound => Chk { bound, register: upper }),
        Op68::Lea => one!(word, words, Size::Four, from => Lea { from, to: upper }),
        _ => in_lines_5_to_8(op, word, words),
    }
}

/// The same in the lines 5 to 8, or further down.
fn in_lines_5_to_8(op: Op68, word: u32, words: &[u16]) -> Found
    requires fits { Fits op word }
    requires line { IsFromLine5 op }
    ensures value { result ≡ made_lem op (first_of word) words.now }
    ensures fields { HasFound result }
    ensures extended { IsExtendedFound result }
{
    let size = size_of(word);
    let memory = is_in_memory(word);
    let condition = condition_of(word) as u8;
    let (upper, lower) = (upper_of(word) as u8, lower_of(word) as u8);
    match op {
        Op68::Addq =>
            one!(word, words, size, to => Quick { op: QuickOp::Addq, size, number: quick_of(word) as u8, to }),
        Op68::Subq =>
            one!(word, words, size, to => Quick { op: QuickOp::Subq, size, number: quick_of(word) as u8, to }),
        Op68::Scc => one!(word, words, Size::One, to => Scc { condition, to }),
        Op68::Dbcc =>
            words!(2 => Dbcc { condition, register: lower, disp: extended_word(words, 1) }),
        Op68::BraByte => words!(1 => Bcc { condition: 0, disp: byte_of(word) }),
        Op68::BraWord => words!(2 => Bcc { condition: 0, disp: extended_word(words, 1) }),
        Op68::BraLong => words!(3 => BccLong { condition: 0, disp: long_at(words, 1) }),
        Op68::BsrByte => words!(1 => Bcc { condition: 1, disp: byte_of(word) }),
        Op68::BsrWord => words!(2 => Bcc { condition: 1, disp: extended_word(words, 1) }),
        Op68::BsrLong => words!(3 => BccLong { condition: 1, disp: long_at(words, 1) }),
        Op68::BccByte => words!(1 => Bcc { condition, disp: byte_of(word) }),
        Op68::BccWord => words!(2 => Bcc { condition, disp: extended_word(words, 1) }),
        Op68::BccLong => words!(3 => BccLong { condition, disp: long_at(words, 1) }),
        Op68::Moveq => words!(1 => Moveq { value: byte_of(word), to: upper }),
        Op68::OrToRegister =>
            one!(word, words, size, operand => Or { size, to_memory: false, register: upper, operand }),
        Op68::OrToMemory =>
            one!(word, words, size, operand => Or { size, to_memory: true, register: upper, operand }),
        Op68::Divu =>
            one!(word, words, Size::Two, by => Div { signed: false, by, register: upper }),
        Op68::Divs => one!(word, words, Size::Two, by => Div { signed: true, by, register: upper }),
        Op68::Sbcd => words!(1 => Sbcd { memory, from: lower, to: upper }),
        _ => in_lines_9_to_e(op, word, words),
    }
}

/// The same in the lines 9 to E.
fn in_lines_9_to_e(op: Op68, word: u32, words: &[u16]) -> Found
    requires fits { Fits op word }
    requires line { IsFromLine9 op }
    ensures value { result ≡ made_lem op (first_of word) words.now }
    ensures fields { HasFound result }
    ensures extended { IsExtendedFound result }
{
    let size = size_of(word);
    let address = long_or_word_of(word);
    let memory = is_in_memory(word);
    let (upper, lower) = (upper_of(word) as u8, lower_of(word) as u8);
    match op {
        Op68::SubToRegister =>
            one!(word, words, size, operand => Sub { size, to_memory: false, register: upper, operand }),
        Op68::SubToMemory =>
            one!(word, words, size, operand => Sub { size, to_memory: true, register: upper, operand }),
        Op68::Suba => one!(word, words, address, from => Suba { size: address, from, to: upper }),
        Op68::Subx => words!(1 => Subx { size, memory, from: lower, to: upper }),
        Op68::Cmp => one!(word, words, size, with => Cmp { size, with, register: upper }),
        Op68::Cmpa =>
            one!(word, words, address, with => Cmpa { size: address, with, register: upper }),
        Op68::Eor => one!(word, words, size, to => Eor { size, register: upper, to }),
        Op68::Cmpm => words!(1 => Cmpm { size, from: lower, to: upper }),
        Op68::AndToRegister =>
            one!(word, words, size, operand => And { size, to_memory: false, register: upper, operand }),
        Op68::AndToMemory =>
            one!(word, words, size, operand => And { size, to_memory: true, register: upper, operand }),
        Op68::Mulu =>
            one!(word, words, Size::Two, by => Mul { signed: false, by, register: upper }),
        Op68::Muls => one!(word, words, Size::Two, by => Mul { signed: true, by, register: upper }),
        Op68::Abcd => words!(1 => Abcd { memory, from: lower, to: upper }),
        Op68::Exg => words!(1 => Exg { kind: exchange_of(word), upper, lower }),
        Op68::AddToRegister =>
            one!(word, words, size, operand => Add { size, to_memory: false, register: upper, operand }),
        Op68::AddToMemory =>
            one!(word, words, size, operand => Add { size, to_memory: true, register: upper, operand }),
        Op68::Adda => one!(word, words, address, from => Adda { size: address, from, to: upper }),
        Op68::Addx => words!(1 => Addx { size, memory, from: lower, to: upper }),
        Op68::Shift =>
            words!(1 => Shift { op: register_shift_of(word), left: is_left(word), size, count: shift_count_of(word), register: lower }),
        Op68::ShiftMemory =>
            one!(word, words, Size::Two, to => ShiftMemory { op: memory_shift_of(word), left: is_left(word), to }),
        _ => unreachable!(),
    }
}
