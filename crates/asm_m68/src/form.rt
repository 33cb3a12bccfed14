/// Where the six bits of the operands stand in a first word, mode before register
/// (M68000 Family Programmer's Reference Manual, section 8).
#[derive(Clone, Copy)]
pub enum Place {
    /// In no place: the operands have words of their own, or there is none.
    Nowhere,
    /// Those of the first operand in bits 5 to 0.
    First,
    /// Those of the second operand in bits 5 to 0.
    Second,
    /// The first operand's register in bits 11 to 9, those of the second one in bits 5 to 0.
    UpperFirst,
    /// Those of the first operand in bits 5 to 0, the second one's register in bits 11 to 9.
    UpperSecond,
    /// Those of the first operand in bits 5 to 0, those of the second one in bits 11 to 6, register before mode.
    Both,
}

/// What tells two instructions of one name apart.
#[derive(Clone, Copy)]
pub enum Choice {
    /// Whether the first operand is a data register.
    FirstData,
    /// Whether the second operand is a data register.
    SecondData,
    /// Whether the first operand is an immediate word.
    FirstWord,
    /// Whether the second operand is the condition codes.
    SecondCodes,
    /// Whether a data register stands before an address register.
    DataAddress,
}

/// How a name and its operands are spelled as words. The numbers are first words whose operands are 0.
#[derive(Clone, Copy)]
pub enum Form {
    /// A word as it stands, which need not be an instruction.
    Data,
    /// The operands' bits in these places.
    Always(Place, u16),
    /// A branch with its displacement in the low byte.
    Near(u16),
    /// A branch with its displacement in two words.
    Far(u16),
    /// The first operand's bits in bits 5 to 0, and a second word, which has the other operands' registers.
    Registers(u16, u16),
    /// One of two places and words: the first where the choice holds.
    Chosen(Choice, Place, u16, Place, u16),
}
