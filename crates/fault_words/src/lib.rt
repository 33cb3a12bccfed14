//! Faults in words: what the two numbers of a fault say, and which saved register stands where in the frame of a suspended
//! caller.
//!
//! The numbers of refusals and the layout of frames are this project's own; vectors are those of the M68000 Family
//! Programmer's Reference Manual.
#![tactic(auto)]

mod meaning;
mod reasons;
mod saved;

pub use meaning::add_meaning;
pub use reasons::{descriptor_reason, info_reason, vector_reason};
pub use saved::{Saved, saved_at};
