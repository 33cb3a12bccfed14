//! Reads the lines that call_trace writes: the event that a line tells, as a call, a return, an ask or the end of a run.
//!
//! `read_event` finds exactly the event whose line a text is, and none where the text is no event's line.
#![tactic(auto)]

mod calls;
mod ends;
mod event;
mod pieces;
mod read;

pub use event::{Crossing, Event};
pub use read::read_event;
