ghost use Rattle.std.specs.Prelude.{◌≡◌, ◌<◌};
ghost use Rattle.m68_text.specs.Instructions.{operands};
ghost use Rattle.m68_text.specs.Operands.{counted as counted_of, directed as directed_of, exchanged as exchanged_of, immediate as immediate_of, paired as paired_of, place as place_of, with_registers as with_registers_of};
ghost use Rattle.m68_text.specs.inner.Operands.{listed};

use super::operand::Operand::{
    self, Address, Byte, ConditionCodes, Data, Displaced, Indexed, Indirect, Long, LongAddress,
    Number, Pair, PcDisplaced, PcIndexed, PostIncrement, PreDecrement, ShortAddress,
    StatusRegister, Target, Word,
};
use super::operand::Operands::{self, One, Three, Two};
use m68_isa::{Ea, Exchange, Instr68, ShiftCount, branch_target, word_at};
use mix_bits::Size;

/// The extension words of an immediate, which begin with this one.
fn immediate(size: Size, words: &[u16], word: u32) -> Operand
    requires { word < 50 }
    ensures { result ≡ immediate_of size words.now word }
{
    match size {
        Size::Four => Long(word_at(words, word) * 0x1_0000 + word_at(words, word + 1)),
        _ => Word(word_at(words, word)),
    }
}

/// An effective address, or in the place of one the immediate of this size that begins with this word.
fn place(size: Size, words: &[u16], word: u32, ea: Ea) -> Operand
    requires { word < 50 }
    ensures { result ≡ place_of size words.now word ea }
{
    match ea {
        Ea::Dn(n) => Data(n),
        Ea::An(n) => Address(n),
        Ea::Ind(n) => Indirect(n),
        Ea::Post(n) => PostIncrement(n),
        Ea::Pre(n) => PreDecrement(n),
        Ea::Disp(n, disp) => Displaced(n, disp),
        Ea::Indexed(n, index) => Indexed(n, index),
        Ea::AbsWord(address) => ShortAddress(address),
        Ea::AbsLong(address) => LongAddress(address),
        Ea::PcDisp(_, disp) => PcDisplaced(disp),
        Ea::PcIndexed(_, index) => PcIndexed(index),
        Ea::Imm(_) => immediate(size, words, word),
    }
}

/// A register and an operand, which is the destination where the instruction says so.
fn directed(to_memory: bool, register: u8, operand: Operand) -> Operands
    ensures { listed result ≡ directed_of to_memory register operand }
{
    if to_memory {
        Two(Data(register), operand)
    } else {
        Two(operand, Data(register))
    }
}

/// Two data registers, or the bytes before two addresses.
fn paired(memory: bool, from: u8, to: u8) -> Operands
    ensures { listed result ≡ paired_of memory from to }
{
    if memory {
        Two(PreDecrement(from), PreDecrement(to))
    } else {
        Two(Data(from), Data(to))
    }
}

/// The registers of `exg`.
fn exchanged(kind: Exchange, upper: u8, lower: u8) -> Operands
    ensures { listed result ≡ exchanged_of kind upper lower }
{
    match kind {
        Exchange::Data => Two(Data(upper), Data(lower)),
        Exchange::Address => Two(Address(upper), Address(lower)),
        Exchange::DataAddress => Two(Data(upper), Address(lower)),
    }
}

/// The source of a long multiplication or division, then its registers, the high one first. An immediate stands
/// behind the word of the registers.
fn with_registers(wide: bool, high: u8, low: u8, words: &[u16], by: Ea) -> Operands
    ensures { listed result ≡ with_registers_of wide high low words.now by }
{
    let source = place(Size::Four, words, 2, by);
    if wide {
        Two(source, Pair(high, low))
    } else {
        Three(source, Data(high), Data(low))
    }
}

/// How far a register is shifted.
fn counted(count: ShiftCount) -> Operand
    ensures { result ≡ counted_of count }
{
    match count {
        ShiftCount::Number(n) => Number(n),
        ShiftCount::Register(n) => Data(n),
    }
}

/// The operands of an instruction with these words at an address, the source first. An immediate begins with word 1,
/// unless that is the word of the registers.
pub fn operands68(i: Instr68, words: &[u16], at: u32) -> Operands
    ensures { listed result ≡ operands i words.now at }
{
    match i {
        Instr68::Immediate { size, to, .. } => Two(
            immediate(size, words, 1),
            place(size, words, 1, to),
        ),
        Instr68::ImmediateToCcr { .. } => Two(immediate(Size::One, words, 1), ConditionCodes),
        Instr68::BitByRegister { register, to, .. } => Two(
            Data(register),
            place(Size::One, words, 1, to),
        ),
        Instr68::BitByNumber { to, .. } => Two(
            immediate(Size::One, words, 1),
            place(Size::One, words, 1, to),
        ),
        Instr68::Movep {
            to_memory,
            register,
            base,
            disp,
            ..
        } => directed(to_memory, register, Displaced(base, disp)),
        Instr68::Move { size, from, to } => Two(
            place(size, words, 1, from),
            place(size, words, 1, to),
        ),
        Instr68::Movea { size, from, to } => Two(place(size, words, 1, from), Address(to)),
        Instr68::Negx { size, to } => One(place(size, words, 1, to)),
        Instr68::Clr { size, to } => One(place(size, words, 1, to)),
        Instr68::Neg { size, to } => One(place(size, words, 1, to)),
        Instr68::Not { size, to } => One(place(size, words, 1, to)),
        Instr68::MoveFromSr { to } => Two(StatusRegister, place(Size::Two, words, 1, to)),
        Instr68::MoveToCcr { from } => Two(place(Size::Two, words, 1, from), ConditionCodes),
        Instr68::Nbcd { to } => One(place(Size::One, words, 1, to)),
        Instr68::Swap { register } => One(Data(register)),
        Instr68::Pea { from } => One(place(Size::Four, words, 1, from)),
        Instr68::Ext { register, .. } => One(Data(register)),
        Instr68::ExtByte { register } => One(Data(register)),
        Instr68::MovemToMemory { size, mask, to } => Two(Word(mask), place(size, words, 1, to)),
        Instr68::MovemFromMemory { size, mask, from } => Two(
            place(size, words, 1, from),
            Word(mask),
        ),
        Instr68::MulLong {
            wide,
            by,
            high,
            low,
            ..
        } => with_registers(wide, high, low, words, by),
        Instr68::DivLong {
            wide,
            by,
            high,
            low,
            ..
        } => with_registers(wide, high, low, words, by),
        Instr68::Tst { size, of } => One(place(size, words, 1, of)),
        Instr68::Tas { to } => One(place(Size::One, words, 1, to)),
        Instr68::Trap { number } => One(Number(number)),
        Instr68::Link { register, disp } => Two(Address(register), Word(disp)),
        Instr68::LinkLong { register, disp } => Two(Address(register), Long(disp)),
        Instr68::Unlk { register } => One(Address(register)),
        Instr68::Plain { .. } => Operands::None,
        Instr68::Rtd { disp } => One(Word(disp)),
        Instr68::Trapv => Operands::None,
        Instr68::Rtr => Operands::None,
        Instr68::Jump { to, .. } => One(place(Size::Four, words, 1, to)),
        Instr68::Chk { bound, register } => Two(place(Size::Two, words, 1, bound), Data(register)),
        Instr68::Lea { from, to } => Two(place(Size::Four, words, 1, from), Address(to)),
        Instr68::Quick {
            size,
            number,
            to,
            ..
        } => Two(Number(number), place(size, words, 1, to)),
        Instr68::Scc { to, .. } => One(place(Size::One, words, 1, to)),
        Instr68::Dbcc { register, disp, .. } => Two(
            Data(register),
            Target(branch_target(at, disp)),
        ),
        Instr68::Bcc { disp, .. } => One(Target(branch_target(at, disp))),
        Instr68::BccLong { disp, .. } => One(Target(branch_target(at, disp))),
        Instr68::Moveq { value, to } => Two(Byte(value), Data(to)),
        Instr68::Or {
            size,
            to_memory,
            register,
            operand,
        } => directed(to_memory, register, place(size, words, 1, operand)),
        Instr68::Div { by, register, .. } => Two(place(Size::Two, words, 1, by), Data(register)),
        Instr68::Sbcd { memory, from, to } => paired(memory, from, to),
        Instr68::Sub {
            size,
            to_memory,
            register,
            operand,
        } => directed(to_memory, register, place(size, words, 1, operand)),
        Instr68::Suba { size, from, to } => Two(place(size, words, 1, from), Address(to)),
        Instr68::Subx {
            memory,
            from,
            to,
            ..
        } => paired(memory, from, to),
        Instr68::Cmp {
            size,
            with,
            register,
        } => Two(place(size, words, 1, with), Data(register)),
        Instr68::Cmpa {
            size,
            with,
            register,
        } => Two(place(size, words, 1, with), Address(register)),
        Instr68::Eor { size, register, to } => Two(Data(register), place(size, words, 1, to)),
        Instr68::Cmpm { from, to, .. } => Two(PostIncrement(from), PostIncrement(to)),
        Instr68::And {
            size,
            to_memory,
            register,
            operand,
        } => directed(to_memory, register, place(size, words, 1, operand)),
        Instr68::Mul { by, register, .. } => Two(place(Size::Two, words, 1, by), Data(register)),
        Instr68::Abcd { memory, from, to } => paired(memory, from, to),
        Instr68::Exg { kind, upper, lower } => exchanged(kind, upper, lower),
        Instr68::Add {
            size,
            to_memory,
            register,
            operand,
        } => directed(to_memory, register, place(size, words, 1, operand)),
        Instr68::Adda { size, from, to } => Two(place(size, words, 1, from), Address(to)),
        Instr68::Addx {
            memory,
            from,
            to,
            ..
        } => paired(memory, from, to),
        Instr68::Shift {
            count,
            register,
            ..
        } => Two(counted(count), Data(register)),
        Instr68::ShiftMemory { to, .. } => One(place(Size::Two, words, 1, to)),
    }
}
