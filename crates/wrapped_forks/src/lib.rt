//! Finds the forks in a file that is a raw resource fork or wraps forks: MacBinary I to III, AppleSingle and AppleDouble.
//!
//! Sources: AppleSingle/AppleDouble Formats for Foreign Files Developer's Note (Apple, 1990); the MacBinary II standard
//! (1987), with the layout of MacBinary I, and the MacBinary III standard (1996).
#![tactic(auto)]

mod apple;
mod binary;
mod fork;
mod laws;
mod wrapping;

pub use fork::Fork;
pub use laws::{apple_law, binary_law, raw_law};
pub use wrapping::{ForkError, ForkPlace, Wrapping, find_fork};
