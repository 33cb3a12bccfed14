//! What a program would ask for, by its files alone: the traps in its 68K code and how often each stands there, the
//! routine descriptors in its files, and what its container imports.
//!
//! Code is not followed: a word at an even place that is a trap may be an operand or data too. The words that are counted,
//! and which bytes are a descriptor, are exactly those of definitions; the text is tested.
#![tactic(auto)]

mod code;
mod counts;
mod described;
mod descriptor;
mod imports;
mod place;
mod scan;

pub use code::{add_traps, first_lacking};
pub use descriptor::is_descriptor;
pub use scan::scan_program;
