//! Reads the resource fork of a Macintosh file, after the chapter on the Resource Manager of More
//! Macintosh Toolbox.
//!
//! A fork has an area of data and a map. The map lists the types, and for each type its references: an
//! id, and where in the data the resource stands. [`Fork::read`] tests the whole fork once, and hands
//! out its resources as slices of the file. Which fault is reported, where a file has several, is this
//! project's own rule: the first one in the order of the type list and of each type's references.
#![tactic(auto)]

mod error;
mod fork;
mod header;
mod lookup;
mod name;
mod references;

pub use error::RsrcError;
pub use fork::Fork;
