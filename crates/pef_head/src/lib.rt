//! Reads the head of a PEF container, the format of PowerPC code fragments, after Inside Macintosh: PowerPC
//! System Software and Mac OS Runtime Architectures.
//!
//! A container has a header, section headers, and sections; the loader section lists the imported
//! libraries and symbols and the relocations. [`Pef::read`] tests the whole head once, and the accessors
//! hand out its fields and slices of the file. What is refused, and in which order, is this project's own
//! rule. Packed data is not unpacked here, and relocations are not run.
#![tactic(auto)]

mod container;
mod error;
mod import;
mod loader;
mod marks;
mod names;
mod owners;
mod pef;
mod places;
mod read;
mod relocations;
mod section;
mod table;

pub use error::PefError;
pub use import::Import;
pub use pef::Pef;
pub use section::Section;
