//! Which bytes of memory a step of the mixed machine may change, told without looking at memory.
//!
//! `next_stores` tells it before the step, by its instruction, and `told_68k` and `told_ppc` at once for many instructions;
//! `step_reach` after it, where it made a frame or gave one up. All other bytes stay, as `reach_laws` says.
#![tactic(auto)]

mod laws;
mod m68;
mod ppc;
mod quick;
mod reach;
mod steps;

pub use laws::reach_laws;
pub use reach::{Reach, Stores, Told, no_stores, plain};
pub use steps::{makes_frame, next_stores, step_reach, told_68k, told_ppc};
