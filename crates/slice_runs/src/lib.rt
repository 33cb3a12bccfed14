//! The program over byte slices: files, input and buffers are the caller's, and no file or stream of the system is
//! touched.
//!
//! `run`, `resume`, `list` and `assemble` are the calls of `mix_top::mixed_main` with the words `run`, `continue`, `list` and
//! `assemble` over objects in memory, and their clause is that call's. A machine between two calls is its image:
//! `advance` runs it on, and tells how many steps are left, and `look` reads its registers and memory. `explain` says what a
//! procInfo word means.
#![tactic(auto)]

mod called;
mod info;
mod reading;
mod steps;
mod told;

pub use called::{Lent, assemble, list, resume, run};
pub use info::explain;
pub use reading::{Seen, look};
pub use slice_parts::Program;
pub use steps::advance;
pub use told::Told;

/// The version, 0.1.0, in a number: 65536 for each major one, 256 for each minor one, and 1 for each change.
pub const VERSION: u32 = 0x00_01_00;
