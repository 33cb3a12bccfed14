//! What calls over byte slices are made of: the words that numbers stand for, a shelf with the files of a caller, and a sink
//! and a keeper that stand for its buffers.
#![tactic(auto)]

mod buffers;
mod room;
mod room_keep;
mod shelf;
mod streams;
mod words;

pub use buffers::{copy, copy_longs};
pub use room::Room;
pub use room_keep::{NAME, RoomKeep};
pub use shelf::shelf_of;
pub use streams::Streams;
pub use words::{Program, assemble_words, continue_words, list_words, run_words};
