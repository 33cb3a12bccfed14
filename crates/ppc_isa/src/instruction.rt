/// How an addition or a subtraction uses the carry bit CA.
#[derive(Clone, Copy, PartialEq)]
pub enum CarryUse {
    /// Neither read nor set.
    Plain,
    /// Set.
    Carrying,
    /// Added, then set.
    Extended,
}

/// What stands in the place of the second operand of an extended addition.
#[derive(Clone, Copy, PartialEq)]
pub enum ExtendedOperand {
    Zero,
    MinusOne,
}

/// A logical operation on a register and sixteen bits; the shifted ones take them times 65536.
#[derive(Clone, Copy, PartialEq)]
pub enum ImmediateOp {
    Or,
    OrShifted,
    Xor,
    XorShifted,
    /// Sets CR0.
    And,
    /// Sets CR0.
    AndShifted,
}

/// A logical operation on two registers, or on two bits of the condition register.
#[derive(Clone, Copy, PartialEq)]
pub enum LogicalOp {
    And,
    Or,
    Xor,
    Nand,
    Nor,
    Equivalent,
    AndComplement,
    OrComplement,
}

/// An operation on one register.
#[derive(Clone, Copy, PartialEq)]
pub enum UnaryOp {
    ExtendSignByte,
    ExtendSignHalf,
    CountLeadingZeros,
}

/// A shift by a count that a register holds.
#[derive(Clone, Copy, PartialEq)]
pub enum ShiftOp {
    Left,
    Right,
    RightAlgebraic,
}

/// What becomes of the bits outside the mask of a rotation.
#[derive(Clone, Copy, PartialEq)]
pub enum MaskUse {
    /// They stay as register A holds them.
    Insert,
    /// They are 0.
    Clear,
}

/// What a load reads: an unsigned value, but for the algebraic half word.
#[derive(Clone, Copy, PartialEq)]
pub enum LoadKind {
    Word,
    Byte,
    Half,
    HalfAlgebraic,
}

/// What a store writes.
#[derive(Clone, Copy, PartialEq)]
pub enum StoreKind {
    Word,
    Byte,
    Half,
}

/// What is read or written with its bytes reversed.
#[derive(Clone, Copy, PartialEq)]
pub enum ReversedKind {
    Word,
    Half,
}

/// The register that holds the target of a branch.
#[derive(Clone, Copy, PartialEq)]
pub enum BranchRegister {
    Link,
    Count,
}

/// A special purpose register of a program in user mode.
#[derive(Clone, Copy, PartialEq)]
pub enum SpecialRegister {
    Xer,
    Link,
    Count,
}

/// A rotation under a mask.
#[derive(Clone, Copy)]
pub enum Rotation {
    /// rlwimi, rlwinm.
    RotateLeftImmediate {
        outside: MaskUse,
        a: u8,
        s: u8,
        sh: u8,
        mb: u8,
        me: u8,
        rc: bool,
    },
    /// rlwnm.
    RotateLeft {
        a: u8,
        s: u8,
        b: u8,
        mb: u8,
        me: u8,
        rc: bool,
    },
}

/// A load or a store of the registers from one on to r31.
#[derive(Clone, Copy)]
pub enum MultipleAccess {
    /// lmw.
    LoadMultiple { d: u8, a: u8, offset: u16 },
    /// stmw.
    StoreMultiple { s: u8, a: u8, offset: u16 },
}

/// A product of two registers.
#[derive(Clone, Copy)]
pub enum Multiplication {
    /// mullw.
    MultiplyLow {
        d: u8,
        a: u8,
        b: u8,
        oe: bool,
        rc: bool,
    },
    /// mulhw, and mulhwu where not signed.
    MultiplyHigh {
        signed: bool,
        d: u8,
        a: u8,
        b: u8,
        rc: bool,
    },
}

/// A comparison of two registers, or a trap on one.
#[derive(Clone, Copy)]
pub enum Comparison {
    /// cmp, and cmpl where not signed.
    Compare {
        signed: bool,
        field: u8,
        a: u8,
        b: u8,
    },
    /// tw.
    TrapWord {
        to: u8,
        a: u8,
        b: u8,
    },
}

/// A load or a store with the bytes reversed.
#[derive(Clone, Copy)]
pub enum ReversedAccess {
    /// lwbrx, lhbrx.
    LoadReversed {
        kind: ReversedKind,
        d: u8,
        a: u8,
        b: u8,
    },
    /// stwbrx, sthbrx.
    StoreReversed {
        kind: ReversedKind,
        s: u8,
        a: u8,
        b: u8,
    },
}

/// A load or a store of a string whose length is a field.
#[derive(Clone, Copy)]
pub enum StringImmediateAccess {
    /// lswi: `nb` is a count of bytes, where 0 stands for 32.
    LoadStringImmediate { d: u8, a: u8, nb: u8 },
    /// stswi: `nb` is a count of bytes, where 0 stands for 32.
    StoreStringImmediate { s: u8, a: u8, nb: u8 },
}

/// A load or a store of a string whose length is in XER.
#[derive(Clone, Copy)]
pub enum StringIndexedAccess {
    /// lswx.
    LoadStringIndexed { d: u8, a: u8, b: u8 },
    /// stswx.
    StoreStringIndexed { s: u8, a: u8, b: u8 },
}

/// A move from or to the condition register.
#[derive(Clone, Copy)]
pub enum ConditionMove {
    /// mfcr.
    MoveFromConditionRegister { d: u8 },
    /// mtcrf: the top bit of `mask` asks for field 0.
    MoveToConditionFields { mask: u8, s: u8 },
}

/// A move from or to a special purpose register.
#[derive(Clone, Copy)]
pub enum SpecialMove {
    /// mfspr.
    MoveFromSpecial { d: u8, register: SpecialRegister },
    /// mtspr.
    MoveToSpecial { register: SpecialRegister, s: u8 },
}

/// An instruction of the PowerPC 601, for integer programs in user mode (PowerPC 601 RISC
/// Microprocessor User's Manual, chapter 10): one variant for each row of the table of instructions. Where a row has names
/// of different operands, its variant holds an enum of them.
///
/// Fields have the manual's names. `d`, `s`, `a` and `b` are numbers of registers, below 32. `oe`,
/// `rc`, `lk` and `aa` are the bits that ask for OV, for CR0, for LR and for an absolute target.
/// `immediate` and `offset` are the sixteen bits as they stand in the word. `displacement` is the
/// signed distance in bytes as a pattern of 32 bits. `field` is a field of the condition register.
#[derive(Clone, Copy)]
pub enum InstrPpc {
    /// addi, addis.
    AddImmediate {
        shifted: bool,
        d: u8,
        a: u8,
        immediate: u16,
    },
    /// addic, addic.
    AddImmediateCarrying {
        rc: bool,
        d: u8,
        a: u8,
        immediate: u16,
    },
    /// subfic.
    SubtractFromImmediateCarrying {
        d: u8,
        a: u8,
        immediate: u16,
    },
    /// mulli.
    MultiplyLowImmediate {
        d: u8,
        a: u8,
        immediate: u16,
    },
    /// cmpi, and cmpli where not signed.
    CompareImmediate {
        signed: bool,
        field: u8,
        a: u8,
        immediate: u16,
    },
    /// twi.
    TrapWordImmediate {
        to: u8,
        a: u8,
        immediate: u16,
    },
    /// ori, oris, xori, xoris, andi., andis.
    LogicalImmediate {
        op: ImmediateOp,
        a: u8,
        s: u8,
        immediate: u16,
    },
    /// rlwimi, rlwinm; rlwnm.
    Rotate(Rotation),
    /// bc.
    BranchConditional {
        bo: u8,
        bi: u8,
        displacement: u32,
        aa: bool,
        lk: bool,
    },
    /// b.
    Branch {
        displacement: u32,
        aa: bool,
        lk: bool,
    },
    /// lwz, lbz, lhz, lha, and their update forms.
    Load {
        kind: LoadKind,
        update: bool,
        d: u8,
        a: u8,
        offset: u16,
    },
    /// stw, stb, sth, and their update forms.
    Store {
        kind: StoreKind,
        update: bool,
        s: u8,
        a: u8,
        offset: u16,
    },
    /// lmw; stmw.
    Multiple(MultipleAccess),
    /// mcrf: `from` is the field that is read.
    MoveConditionField {
        field: u8,
        from: u8,
    },
    /// bclr, bcctr.
    BranchConditionalToRegister {
        register: BranchRegister,
        bo: u8,
        bi: u8,
        lk: bool,
    },
    /// crand, cror, crxor, crnand, crnor, creqv, crandc, crorc, on numbers of bits.
    ConditionLogical {
        op: LogicalOp,
        d: u8,
        a: u8,
        b: u8,
    },
    /// isync.
    InstructionSynchronize,
    /// add, addc, adde.
    Add {
        carry: CarryUse,
        d: u8,
        a: u8,
        b: u8,
        oe: bool,
        rc: bool,
    },
    /// addze, addme.
    AddExtended {
        operand: ExtendedOperand,
        d: u8,
        a: u8,
        oe: bool,
        rc: bool,
    },
    /// subf, subfc, subfe.
    SubtractFrom {
        carry: CarryUse,
        d: u8,
        a: u8,
        b: u8,
        oe: bool,
        rc: bool,
    },
    /// subfze, subfme.
    SubtractFromExtended {
        operand: ExtendedOperand,
        d: u8,
        a: u8,
        oe: bool,
        rc: bool,
    },
    /// neg.
    Negate {
        d: u8,
        a: u8,
        oe: bool,
        rc: bool,
    },
    /// mullw; mulhw, mulhwu.
    Multiply(Multiplication),
    /// divw, and divwu where not signed.
    Divide {
        signed: bool,
        d: u8,
        a: u8,
        b: u8,
        oe: bool,
        rc: bool,
    },
    /// and, or, xor, nand, nor, eqv, andc, orc.
    Logical {
        op: LogicalOp,
        a: u8,
        s: u8,
        b: u8,
        rc: bool,
    },
    /// extsb, extsh, cntlzw.
    Unary {
        op: UnaryOp,
        a: u8,
        s: u8,
        rc: bool,
    },
    /// slw, srw, sraw.
    Shift {
        op: ShiftOp,
        a: u8,
        s: u8,
        b: u8,
        rc: bool,
    },
    /// srawi.
    ShiftRightAlgebraicImmediate {
        a: u8,
        s: u8,
        sh: u8,
        rc: bool,
    },
    /// cmp, cmpl; tw.
    CompareOrTrap(Comparison),
    /// lwzx, lbzx, lhzx, lhax, and their update forms.
    LoadIndexed {
        kind: LoadKind,
        update: bool,
        d: u8,
        a: u8,
        b: u8,
    },
    /// stwx, stbx, sthx, and their update forms.
    StoreIndexed {
        kind: StoreKind,
        update: bool,
        s: u8,
        a: u8,
        b: u8,
    },
    /// lwbrx, lhbrx; stwbrx, sthbrx.
    Reversed(ReversedAccess),
    /// lswi; stswi.
    StringImmediate(StringImmediateAccess),
    /// lswx; stswx.
    StringIndexed(StringIndexedAccess),
    /// mfcr; mtcrf.
    MoveCondition(ConditionMove),
    /// mcrxr.
    MoveXerToConditionField {
        field: u8,
    },
    /// mfspr; mtspr.
    MoveSpecial(SpecialMove),
    /// sync.
    Synchronize,
}
