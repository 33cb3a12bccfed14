use thiserror::Error;

/// Why pattern data was not unpacked, or a section not relocated.
#[derive(Clone, Copy, Debug, PartialEq, Eq, Error)]
pub enum RelocError {
    /// The place of the instruction of pattern data that cannot be run; or the length of the pattern
    /// data, where it writes too few bytes.
    #[error("the pattern data is wrong at {0}")]
    Pattern(u32),
    /// The place of a relocation instruction whose second word is missing.
    #[error("the relocation at {0} lacks its second word")]
    Short(u32),
    /// A word that is no relocation.
    #[error("the relocation word {0:#06x} is not known")]
    Unsupported(u32),
    /// The position, modulo 2^32, of a long that leaves the section.
    #[error("a relocation at position {0} leaves its section")]
    OutsideSection(u32),
    #[error("a relocation names the import {0}, which is missing")]
    ImportIndex(u32),
    #[error("a relocation names the section {0}, which is missing")]
    SectionIndex(u32),
    /// The place of a repeat whose words are no row of instructions without a repeat.
    #[error("the relocation at {0} repeats what cannot be repeated")]
    RepeatFront(u32),
    #[error("too many relocations are to be run")]
    Work,
}
