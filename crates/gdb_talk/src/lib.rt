//! How a gdb server answers a request: what gdb and the server have agreed on, and what is done at each request.
#![tactic(auto)]

mod deed;
mod deeds;
mod talk;
mod who;

pub use deed::{Deed, Goal, Walk};
pub use talk::Talk;
pub use who::Who;
