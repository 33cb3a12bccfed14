//! A step of 68K code: every user-mode instruction of the 68000, and some of the 68020, over guarded memory
//! (M68000 Family Programmer's Reference Manual, section 4). Program control stands here, and the instructions on bits:
//! AND, OR, EOR and NOT, shifts and rotates, and single bits; moves and arithmetic in the crates below. Each call does
//! one step of its instruction, whose first word stands at `regs.pc`: it goes on, or it leaves a fault in the cell
//! and has changed nothing else.
//!
//! `step68` does what the definition `stepped` says, and a fault changes nothing.
#![tactic(auto)]

mod bits;
mod branches;
mod dispatch;
mod fetch;
mod jumps;
mod laws;
mod logic;
mod shifts;
mod step;
mod traps;
mod words;

pub use fetch::{is_plain, places};
pub use step::{Out68, run, step68};
