//! Suspended callers of the mixed machine, each in a guarded frame of the machine's stack and nowhere
//! else. Layout and placement of the frames are this project's own.
//!
//! Definitions and laws speak of the chain's records, innermost first, read from the bytes.
//!
//! `push` adds a record and `pop` gives it back; what loads and stores see of the chain is a law of `chain_laws`.
#![tactic(auto)]

mod active;
mod files;
mod frames;
mod full;
mod gate;
mod held;
mod kind;
mod laws;
mod layout;
mod program;
mod rooms;
mod whole;

pub use active::Active;
pub use frames::{depth, give_up, outer_lo, pop, push, top};
pub use full::Full;
pub use gate::{A5_PLACE, ENTRY_PLACE, MAIN_VECTOR_PLACE, RAM_SIZE_PLACE, check_gate};
pub use held::Held;
pub use kind::{Kind, LARGEST_FRAME, frame_size};
pub use laws::{chain_laws, frame_laws, gate_laws, range_laws};
pub use program::{PROGRAM_START, Program, start_sp_of};
pub use rooms::{MOST_FRAMES, room};
pub use whole::{check, guard_frames};
