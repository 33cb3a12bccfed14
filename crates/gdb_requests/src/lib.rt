//! What gdb asks for: the data of a packet of its Remote Serial Protocol as a request.
#![tactic(auto)]

mod actions;
mod laws;
mod parts;
mod queries;
mod request;
mod requests;
#[cfg(test)]
mod tests;
mod threads;

pub use laws::request_laws;
pub use request::{Action, Features, Id, Point, Request, Thread};
pub use requests::read_request;
