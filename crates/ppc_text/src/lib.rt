//! The text of PowerPC instructions.
//!
//! `text_ppc` writes exactly the text of the definitions, so no append to a line is refused. An instruction's name is
//! one of a list (`specs/Listed`), and its operands are a list of at most five.
#![tactic(auto)]

mod append;
mod laws;
mod names;
mod operand;
mod operands;
mod text;

pub use laws::text_laws;
pub use text::{text_long, text_ppc};
