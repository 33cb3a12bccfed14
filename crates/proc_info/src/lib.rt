//! The procInfo word of the Mixed Mode Manager, which says how a procedure is called, and the signature
//! that such a word stands for (Inside Macintosh: PowerPC System Software, chapter 2).
//!
//! `read` and `write` are inverse to each other.
#![tactic(auto)]

mod bad_info;
mod conv;
mod laws;
mod param;
mod reader;
mod sig;
mod size;
mod writer;

pub use bad_info::BadInfo;
pub use conv::{Conv, Dispatch, Route, Shape};
pub use laws::word_laws;
pub use param::Param;
pub use reader::{read, read_signed};
pub use sig::Sig;
pub use writer::write;
