//! A machine that walks forward and back until something stops it, as a debugger at the other end of gdb's remote
//! protocol wants it.
//!
//! What is outside goes back with the machine: the state after so many steps is that of the run from the beginning, over
//! the whole input and over what the devices answered. Output and trace are told when a step is done for the first time,
//! and devices are asked then; when it is done again, nothing is told, and the answers are those of the journal.
#![tactic(auto)]

mod back;
mod breakpoints;
mod forward;
mod found;
mod halt;
mod input;
mod lost;
mod once;
mod real;
mod replay;
mod silent;
mod snapshot;
mod snapshots;
mod used;
mod walker;
mod watch;
mod watches;

pub use halt::{Halt, Until};
pub use used::Used;
pub use walker::Walker;
