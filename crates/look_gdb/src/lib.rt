//! gdb's view of a run: a mixed machine, with its input and its devices, that walks forward and back as gdb asks for it.
//!
//! `Served` is a target of gdb_session over a walker of gdb_steps. What the program writes comes to gdb's console in front
//! of the stop at which it is known, and so do, where that is wanted, the lines of calls across. Behind `monitor` the user
//! asks where the run is, and what its calls and its heap are.
#![tactic(auto)]

mod command;
mod halts;
mod heard;
mod notes;
mod served;
mod serving;
mod start;
mod tales;
mod walks;

pub use command::{Command, Tale, read_command};
pub use served::Served;
pub use serving::{serve_beside, serve_machine};
pub use start::{Settings, Start};
