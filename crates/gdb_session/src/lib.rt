//! A gdb server over any machine that can be looked at and walked: each packet of gdb's has its answer, and nothing but a
//! walk, or a command that the user gives behind `monitor`, changes what gdb sees.
#![tactic(auto)]

mod broken;
mod commands;
mod outcome;
mod replies;
mod server;
mod target;

pub use broken::Broken;
pub use outcome::Outcome;
pub use replies::reply;
pub use server::{Server, serve};
pub use target::{Halt, Target};
