use super::ea::Ea;
use mix_bits::Size;

/// The operations between an immediate and an operand.
#[derive(Clone, Copy, PartialEq)]
pub enum ImmediateOp {
    Ori,
    Andi,
    Subi,
    Addi,
    Eori,
    Cmpi,
}

/// The bitwise operations.
#[derive(Clone, Copy, PartialEq)]
pub enum LogicOp {
    And,
    Or,
    Eor,
}

/// The operations on one bit.
#[derive(Clone, Copy, PartialEq)]
pub enum BitOp {
    Btst,
    Bchg,
    Bclr,
    Bset,
}

/// The kinds of shifts.
#[derive(Clone, Copy, PartialEq)]
pub enum ShiftOp {
    /// Arithmetic: the sign comes in from the left, zeros from the right.
    As,
    /// Logical: zeros come in.
    Ls,
    /// Rotation through X.
    Rox,
    /// Rotation.
    Ro,
}

/// How far a register is shifted.
#[derive(Clone, Copy, PartialEq)]
pub enum ShiftCount {
    /// By a number from 1 to 8.
    Number(u8),
    /// By a data register, modulo 64.
    Register(u8),
}

/// The instructions of one word that only go on or return.
#[derive(Clone, Copy, PartialEq)]
pub enum PlainOp {
    Nop,
    Rts,
}

/// The jumps: to a subroutine, or for good.
#[derive(Clone, Copy, PartialEq)]
pub enum JumpOp {
    Jsr,
    Jmp,
}

/// The operations with a number from 1 to 8.
#[derive(Clone, Copy, PartialEq)]
pub enum QuickOp {
    Addq,
    Subq,
}

/// Which registers `exg` exchanges.
#[derive(Clone, Copy, PartialEq)]
pub enum Exchange {
    Data,
    Address,
    DataAddress,
}

/// An instruction of the 68000 in user mode, or one of the additions of the 68020 that are taken, named as in the
/// M68000 Family Programmer's Reference Manual, section 4: one variant for each row of the table of instructions. A
/// register is a number below 8; which kind it is, the instruction says. Displacements are sign extended.
#[derive(Clone, Copy)]
pub enum Instr68 {
    /// ori, andi, subi, addi, eori, cmpi.
    Immediate {
        op: ImmediateOp,
        size: Size,
        value: u32,
        to: Ea,
    },
    /// andi, ori, eori to CCR: the low byte of the extension word.
    ImmediateToCcr {
        op: LogicOp,
        value: u32,
    },
    /// btst, bchg, bclr, bset with the bit's number in a data register.
    BitByRegister {
        op: BitOp,
        register: u8,
        to: Ea,
    },
    /// The same with the bit's number in the low byte of the extension word.
    BitByNumber {
        op: BitOp,
        bit: u32,
        to: Ea,
    },
    /// movep between a data register and memory at the address register `base`.
    Movep {
        size: Size,
        to_memory: bool,
        register: u8,
        base: u8,
        disp: u32,
    },
    Move {
        size: Size,
        from: Ea,
        to: Ea,
    },
    Movea {
        size: Size,
        from: Ea,
        to: u8,
    },
    Negx {
        size: Size,
        to: Ea,
    },
    Clr {
        size: Size,
        to: Ea,
    },
    Neg {
        size: Size,
        to: Ea,
    },
    Not {
        size: Size,
        to: Ea,
    },
    MoveFromSr {
        to: Ea,
    },
    MoveToCcr {
        from: Ea,
    },
    Nbcd {
        to: Ea,
    },
    Swap {
        register: u8,
    },
    Pea {
        from: Ea,
    },
    /// ext.w of a byte to a word, at size Two, or ext.l of a word to a long, at size Four.
    Ext {
        size: Size,
        register: u8,
    },
    /// extb.l of a byte to a long.
    ExtByte {
        register: u8,
    },
    /// movem to memory, with the mask as the extension word has it.
    MovemToMemory {
        size: Size,
        mask: u32,
        to: Ea,
    },
    /// movem from memory.
    MovemFromMemory {
        size: Size,
        mask: u32,
        from: Ea,
    },
    /// mulu.l or muls.l by a long. The product's low 32 bits go to the data register `low`, and where it is `wide` its
    /// high ones to the data register `high`.
    MulLong {
        signed: bool,
        wide: bool,
        by: Ea,
        high: u8,
        low: u8,
    },
    /// divu.l or divs.l by a long. The dividend is the data register `low`, or where it is `wide` has its high 32 bits
    /// in the data register `high`; the quotient goes to `low`, the remainder to `high`.
    DivLong {
        signed: bool,
        wide: bool,
        by: Ea,
        high: u8,
        low: u8,
    },
    Tst {
        size: Size,
        of: Ea,
    },
    Tas {
        to: Ea,
    },
    /// trap with its number from 0 to 15, which is vector 32 and on.
    Trap {
        number: u8,
    },
    /// link with a displacement of a word.
    Link {
        register: u8,
        disp: u32,
    },
    /// link.l, with a displacement of a long.
    LinkLong {
        register: u8,
        disp: u32,
    },
    Unlk {
        register: u8,
    },
    /// nop, rts.
    Plain {
        op: PlainOp,
    },
    /// rtd, which adds the displacement to the stack pointer behind the return address.
    Rtd {
        disp: u32,
    },
    Trapv,
    Rtr,
    /// jsr, jmp.
    Jump {
        op: JumpOp,
        to: Ea,
    },
    Chk {
        bound: Ea,
        register: u8,
    },
    Lea {
        from: Ea,
        to: u8,
    },
    /// addq, subq of a number from 1 to 8.
    Quick {
        op: QuickOp,
        size: Size,
        number: u8,
        to: Ea,
    },
    Scc {
        condition: u8,
        to: Ea,
    },
    /// dbcc; the displacement counts from the address of the extension word.
    Dbcc {
        condition: u8,
        register: u8,
        disp: u32,
    },
    /// bcc, at condition 0 bra and at condition 1 bsr, with a displacement of a byte or a word, which counts from the
    /// address behind the first word.
    Bcc {
        condition: u8,
        disp: u32,
    },
    /// The same with a displacement of a long.
    BccLong {
        condition: u8,
        disp: u32,
    },
    Moveq {
        value: u32,
        to: u8,
    },
    /// or between a data register and an operand, which is the destination at `to_memory`.
    Or {
        size: Size,
        to_memory: bool,
        register: u8,
        operand: Ea,
    },
    /// divu or divs.
    Div {
        signed: bool,
        by: Ea,
        register: u8,
    },
    /// sbcd between data registers, or at `memory` between bytes before two addresses.
    Sbcd {
        memory: bool,
        from: u8,
        to: u8,
    },
    Sub {
        size: Size,
        to_memory: bool,
        register: u8,
        operand: Ea,
    },
    Suba {
        size: Size,
        from: Ea,
        to: u8,
    },
    Subx {
        size: Size,
        memory: bool,
        from: u8,
        to: u8,
    },
    Cmp {
        size: Size,
        with: Ea,
        register: u8,
    },
    Cmpa {
        size: Size,
        with: Ea,
        register: u8,
    },
    Eor {
        size: Size,
        register: u8,
        to: Ea,
    },
    /// cmpm of the address registers' values, (Ax)+ with (Ay)+.
    Cmpm {
        size: Size,
        from: u8,
        to: u8,
    },
    And {
        size: Size,
        to_memory: bool,
        register: u8,
        operand: Ea,
    },
    /// mulu or muls.
    Mul {
        signed: bool,
        by: Ea,
        register: u8,
    },
    Abcd {
        memory: bool,
        from: u8,
        to: u8,
    },
    /// exg of the registers in bits 11 to 9 and in bits 2 to 0.
    Exg {
        kind: Exchange,
        upper: u8,
        lower: u8,
    },
    Add {
        size: Size,
        to_memory: bool,
        register: u8,
        operand: Ea,
    },
    Adda {
        size: Size,
        from: Ea,
        to: u8,
    },
    Addx {
        size: Size,
        memory: bool,
        from: u8,
        to: u8,
    },
    /// asr, asl, lsr, lsl, roxr, roxl, ror, rol of a data register.
    Shift {
        op: ShiftOp,
        left: bool,
        size: Size,
        count: ShiftCount,
        register: u8,
    },
    /// The same of a word in memory, by one.
    ShiftMemory {
        op: ShiftOp,
        left: bool,
        to: Ea,
    },
}

/// What the words of an instruction are.
#[derive(Clone, Copy)]
pub enum Decoded68 {
    /// An instruction, and how many words it has.
    Op(Instr68, u32),
    /// A word from $A000 to $AFFF.
    LineA(u16),
    /// A word from $F000 to $FFFF.
    LineF,
    /// An instruction of the supervisor.
    Privileged,
    /// No instruction of the table.
    Illegal,
    /// The first word's row has more words than are given, or none is given.
    Short,
}
