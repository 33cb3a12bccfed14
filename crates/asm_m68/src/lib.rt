//! The 68K assembler: from the text of an instruction back to its words.
//!
//! A line's name gives a form: a first word whose operands are 0, and the places of its operands' bits. `form_of` finds
//! it in one table a letter, exactly for the names of the list. The line's operands are read and put at their places.
//! Reading and spelling take more than is right. The words that come out are the line's exactly where their text is the
//! line, so only the text decides what is taken; and the text of an instruction gives its words (`spelling_laws`).
#![tactic(auto)]

mod assembler;
mod code;
mod form;
mod laws;
mod operands;
mod reading;
mod spelling;
mod table;

pub use assembler::{AsmError, assemble68, known68, reassembled68};
pub use code::Code68;
pub use laws::{asm_laws, form_laws, spelling_laws};
