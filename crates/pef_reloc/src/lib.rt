//! The two small languages of a PEF container (Inside Macintosh: Mac OS Runtime Architectures, chapter
//! "PEF Structure"): pattern data, which unpacks to the bytes of a section, and relocations, which add
//! addresses to the longs of a section in memory.
//!
//! What is refused, and which refusal comes first, is this project's own rule.
#![tactic(auto)]

mod additions;
mod cursor;
mod error;
mod instruction;
mod laws;
mod number;
mod pattern;
mod piece;
mod program;
mod rows;
mod section;
mod words;
mod writing;

pub use error::RelocError;
pub use laws::{pattern_laws, plan_laws, table_laws, work_laws};
pub use pattern::unpack;
pub use program::relocate;
