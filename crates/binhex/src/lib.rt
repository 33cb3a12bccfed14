//! Reads BinHex 4.0, a Macintosh file as text: its data fork and its resource fork.
//!
//! Source: RFC 1741, 'MIME Content Type for BinHex Encoded Files' (1994), whose appendix has the format. Three layers
//! lie over one another: lines of symbols that stand for six bits each, bytes with runs of equal ones packed, and a
//! header and both forks, each with its check sum behind it. What stands behind them is not looked at.
#![tactic(auto)]

mod error;
mod expanded;
mod file;
mod fork;
mod laws;
mod packing;
mod parts;
mod rest;
mod runs;
mod text;

pub use error::{BinHexError, Part};
pub use file::{Forks, read};
pub use fork::Fork;
pub use laws::{forks_law, packed_law, text_law};
