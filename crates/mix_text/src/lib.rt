//! The listing of a program in memory, one line for each instruction, and texts of lines taken back to the bytes of their
//! instructions: the lines that a listing has, with or without addresses in front.
//!
//! `check_text` finds the first line that is refused, and `put_text` puts the bytes of a text in which none is.
#![tactic(auto)]

mod instruction;
mod laws;
mod line;
mod lines;
mod listing;
mod refused;
mod text;

pub use instruction::write_words;
pub use laws::assembly_laws;
pub use listing::list;
pub use refused::{Reason, Refused};
pub use text::{check_text, put_text};
