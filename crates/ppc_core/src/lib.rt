//! A step of PowerPC code: the user-mode integer instructions of the 601 over guarded memory. Those that load and
//! store stand here, a function for each row of the table of instructions; the others in the crate below.
//!
//! `step_ppc` does what the definition `stepped` says, and a fault changes nothing.
#![tactic(auto)]

mod fetch;
mod loads;
mod multiple;
mod reversed;
mod run_word;
mod step;
mod stores;
mod strings;

pub use fetch::places;
pub use step::{OutPpc, run, step_ppc};
