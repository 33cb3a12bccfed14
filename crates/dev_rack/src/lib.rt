//! Devices in numbered slots, with a journal of all asks.
//!
//! `Devices` is what the layers above see of them: `ask`, `eject` and `journal`. A `Rack` of boxed devices is the one
//! that a program makes. `journal_laws` says what the journal tells of the devices, over any number of asks.
#![tactic(auto)]

mod answers;
mod devices;
mod laws;
mod rack;
mod slots;

pub use answers::{Answer, Asked};
pub use devices::Devices;
pub use laws::journal_laws;
pub use rack::Rack;
