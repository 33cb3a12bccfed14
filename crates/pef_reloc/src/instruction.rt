// Relocation instructions.

/// What one turn of a run adds.
#[derive(Clone, Copy)]
pub enum Turn {
    SectC,
    SectD,
    TVector12,
    TVector8,
    VTable8,
    ImportRun,
}

/// A relocation instruction. Numbers of sections and imports stand as they are in the words.
#[derive(Clone, Copy)]
pub enum Instruction {
    /// Skips so many longs, and then adds section D so many times.
    BySectDWithSkip(u32, u32),
    /// So many turns.
    Run(Turn, u32),
    ByImport(u32),
    SetSectC(u32),
    SetSectD(u32),
    BySection(u32),
    IncrPosition(u32),
    SetPosition(u32),
}

/// An instruction of two words.
#[derive(Clone, Copy)]
pub enum Large {
    LgSetPosition,
    LgByImport,
    LgBySection,
    LgSetSectC,
    LgSetSectD,
}

/// What a word begins.
#[derive(Clone, Copy)]
pub enum First {
    /// A whole instruction.
    One(Instruction),
    /// An instruction of two words, with the high bits of its number, which the second word ends.
    Two(Large, u32),
    /// A repeat of so many words, so many further times.
    Repeat(u32, u32),
    /// Nothing.
    NoRow,
}

/// What stands at a place.
#[derive(Clone, Copy)]
pub enum Reading {
    Whole(Instruction),
    /// A repeat of so many words, so many further times.
    Again(u32, u32),
}
