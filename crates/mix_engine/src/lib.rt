//! Runs the mixed machine: one loop for both instruction sets, which at a crossing calls itself for the
//! callee, over one lent memory. A step is an instruction of either set, a call from one set into the other, a
//! return, or a call of the host.
//!
//! Suspended callers stand in the machine's memory alone, so a run can be cut after any step and continued.
//!
//! `advance` does the definition's `step` so many times, and tells what the last one did, or why it is not done: a
//! fault, an exit, or a failure of the outside (`Advances`). `run` is, for every whole machine, the definition's run
//! from the state that the machine stands for.
#![tactic(auto)]

mod call_laws;
mod code;
mod cores;
mod enter;
mod frames;
mod host;
mod laws;
mod leave;
mod machine;
mod one_step;
mod outside;
mod refuse;
mod runs;
mod stepping;
mod turn;
mod world;

pub use machine::{Machine, run, run_counted};
pub use mixed_machine::{Body, Stop};
pub use one_step::{step, step_beside};
pub use outside::Outside;
pub use runs::{run_m68, run_ppc};
pub use stepping::{advance, advance_once};
pub use turn::Turn;
pub use world::World;
