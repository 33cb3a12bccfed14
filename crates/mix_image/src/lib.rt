//! One spelling of a whole machine: `save` keeps it, and `restore` makes the machine of it again.
//!
//! An image has longs, most significant byte first, and then the bytes of RAM, with one byte 0 for each
//! 1024 of them that are all zeros. It says nothing that the machine does not determine, so each whole machine
//! has exactly one, and bytes are an image of at most one.
#![tactic(auto)]

mod blocks;
mod error;
mod fields;
mod head;
mod laws;
mod longs;
mod memory;
mod registers;
mod restored;
mod saved;

pub use error::ImageError;
pub use laws::spelling_laws;
pub use restored::restore;
pub use saved::save;
