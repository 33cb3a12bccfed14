/// What a first word asks for, without the fields of the word: an operation for each row of the manual's
/// table, or for rows that differ in a field alone; some are split by direction, condition, sign, length of the
/// displacement or, for `move` and `movea`, by size
/// (M68000 Family Programmer's Reference Manual, section 8).
#[derive(Clone, Copy)]
pub enum Op68 {
    Ori,
    Andi,
    Subi,
    Addi,
    Eori,
    Cmpi,
    /// ori, andi, eori to CCR, by bits 11 to 9.
    LogicToCcr,
    /// btst, bchg, bclr, bset by bits 7 and 6, the bit's number in the extension word.
    BitByNumber,
    /// The same, the bit's number in a data register.
    BitByRegister,
    Movep,
    MoveByte,
    MoveWord,
    MoveLong,
    MoveaWord,
    MoveaLong,
    Negx,
    Clr,
    Neg,
    Not,
    MoveFromSr,
    MoveToCcr,
    Nbcd,
    Swap,
    Pea,
    /// ext.w or ext.l, by bit 6.
    Ext,
    /// extb.l.
    ExtByte,
    MovemToMemory,
    MovemFromMemory,
    /// mulu.l or muls.l, by the word of the registers.
    MulLong,
    /// divu.l or divs.l, by the word of the registers.
    DivLong,
    Tst,
    Tas,
    Trap,
    Link,
    /// link with a long.
    LinkLong,
    Unlk,
    Nop,
    Rtd,
    Rts,
    Trapv,
    Rtr,
    Jsr,
    Jmp,
    Chk,
    Lea,
    Addq,
    Subq,
    Scc,
    Dbcc,
    /// bra with its displacement in the low byte.
    BraByte,
    /// bra with its displacement in the extension word.
    BraWord,
    /// bra with its displacement in the long behind the word.
    BraLong,
    BsrByte,
    BsrWord,
    BsrLong,
    /// bcc at a condition from 2 on.
    BccByte,
    BccWord,
    BccLong,
    Moveq,
    OrToRegister,
    OrToMemory,
    Divu,
    Divs,
    Sbcd,
    SubToRegister,
    SubToMemory,
    Suba,
    Subx,
    Cmp,
    Cmpa,
    Eor,
    Cmpm,
    AndToRegister,
    AndToMemory,
    Mulu,
    Muls,
    Abcd,
    Exg,
    AddToRegister,
    AddToMemory,
    Adda,
    Addx,
    /// asr, asl, lsr, lsl, roxr, roxl, ror, rol of a data register.
    Shift,
    /// The same of a word in memory, by one.
    ShiftMemory,
    /// No instruction of the table.
    Illegal,
    /// An instruction of the supervisor.
    Privileged,
    /// A word from $A000 to $AFFF.
    LineA,
    /// A word from $F000 to $FFFF.
    LineF,
}
