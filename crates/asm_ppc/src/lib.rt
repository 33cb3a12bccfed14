//! The PowerPC assembler: from the text of an instruction back to its word.
//!
//! A line's name gives a word and the places of its operands, and the line's numbers fill them. The word that comes
//! out is the line's exactly where its text is the line, so only the text decides what is taken.
#![tactic(auto)]

mod assembler;
mod laws;
mod layout;
mod numbers;
mod table;

pub use assembler::{AsmError, assemble_ppc, known_ppc, reassembled};
pub use laws::asm_laws;
