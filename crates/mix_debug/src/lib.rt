//! A debugger of the mixed machine: it steps a machine forward and back.
//!
//! A step back needs nothing of the step but what it changed: the bytes of memory that stood there before, as runs, the
//! registers, where the innermost frame began, and the block of the heap that was made or given up. What is found beside
//! a copy of the memory is kept in rings of a fixed size, the newest steps that fit.
#![tactic(auto)]

mod changes;
mod compare;
mod crawl;
mod debug;
mod head;
mod history;
mod laws;
mod past;
mod registers;
mod step;
mod undo;

pub use debug::Debug;
pub use laws::history_laws;
pub use step::Step;
