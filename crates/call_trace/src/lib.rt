//! The lines of the trace: the calls from one instruction set into another, their returns, the asks of
//! devices, and the end of a run. Each is put as one piece, and a sink that fails keeps a front of it. The
//! text of the lines is this project's own.
#![tactic(auto)]

mod end;
mod lines;
mod names;
mod puts;

pub use end::End;
pub use names::{fault_name, set_name};
pub use puts::{put_ask, put_call, put_end, put_ret};
