use super::instructions::Instr68;

/// What a first word's row makes of the words, where all that it needs are there.
#[derive(Clone, Copy)]
pub enum Found {
    Made {
        instruction: Instr68,
        /// How many words the row needs.
        used: u32,
        /// Whether each index word is of the brief format, and the word that names the registers of a long
        /// multiplication or division is one.
        good: bool,
    },
    Privileged,
    Illegal,
}
