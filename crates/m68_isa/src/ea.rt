/// The index register of an addressing mode with index
/// (M68000 Family Programmer's Reference Manual, section 2.2.7).
#[derive(Clone, Copy, PartialEq)]
pub struct Index {
    pub reg: u8,
    /// An address register, else a data register.
    pub address: bool,
    /// The whole register, else its low word, sign extended.
    pub long: bool,
    /// What it is multiplied by: 1, 2, 4 or 8.
    pub scale: u32,
    /// The displacement, sign extended.
    pub disp: u32,
}

/// An effective address as it is written, in the order of the modes
/// (M68000 Family Programmer's Reference Manual, section 2.2).
/// Displacements and short absolute addresses are sign extended to 32 bits.
#[derive(Clone, Copy, PartialEq)]
pub enum Ea {
    /// A data register.
    Dn(u8),
    /// An address register.
    An(u8),
    /// Address register indirect.
    Ind(u8),
    /// Address register indirect with postincrement.
    Post(u8),
    /// Address register indirect with predecrement.
    Pre(u8),
    /// Address register indirect with displacement.
    Disp(u8, u32),
    /// Address register indirect with index.
    Indexed(u8, Index),
    /// Absolute short.
    AbsWord(u32),
    /// Absolute long.
    AbsLong(u32),
    /// Program counter with displacement, after the number of bytes from the
    /// instruction's first word to the extension word, from which it counts.
    PcDisp(u32, u32),
    /// Program counter with index, after the same number.
    PcIndexed(u32, Index),
    /// Immediate; a byte is cut to its eight bits.
    Imm(u32),
}
