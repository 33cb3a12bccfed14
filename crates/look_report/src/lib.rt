//! Reports: whole traces, as an indented tree with a table of the calls that cross and as a picture; and the state of a
//! machine.
//!
//! A trace is read line by line, so that it may be long (`write_trace`). The text of each line of the tree is that of
//! `look_text`. `run_report` tells how a run ended, its last steps and its last jump, and the machine as it is; `step_at` is
//! the instruction that a machine is about to do, and `image_report` tells of a file that keeps a machine, or dumps a part
//! of its memory. The text of the registers, and what the numbers of a fault say, is exactly that of a definition; the rest is told by the calls that the other crates have for it, is safe, ends and is tested.
#![tactic(auto)]

mod calls;
mod dump;
mod error;
mod files;
mod frames;
mod history;
mod images;
mod machine;
mod memory;
mod names;
mod picture;
mod reading;
mod refused;
mod registers;
mod step;
mod steps;
mod tree;
mod unsigned;

pub use files::{Shape, write_trace};
pub use frames::add_frames;
pub use history::History;
pub use images::image_report;
pub use machine::{Ending, Outcome, run_report};
pub use memory::add_heap;
pub use step::{Step, step_at};
