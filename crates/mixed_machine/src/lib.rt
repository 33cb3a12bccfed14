//! What the mixed machine is: its state, one step, runs of steps, what a machine in memory stands for,
//! and laws of these. The definitions stand in `specs/`; the code here is the types that they share
//! with the crates above, and the laws, each as the contract of a function that does nothing.
#![tactic(auto)]

mod body;
mod did;
mod laws;
mod stop;

pub use body::Body;
pub use did::Did;
pub use laws::{crossing_laws, event_laws, outside_laws, run_laws, step_laws};
pub use stop::Stop;
