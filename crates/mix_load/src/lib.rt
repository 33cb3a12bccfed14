//! Loads the programs of the mixed machine: flat files, resource forks with CODE segments (More Macintosh
//! Toolbox; Inside Macintosh: Processes), and PEF containers (Inside Macintosh: PowerPC System Software),
//! alone or beside a fork.
//!
//! [`load`] gives the program as it starts. Where things are placed, and which refusal comes first, is this
//! project's own. The places of pieces are told by the calls that `load` goes by.
#![tactic(auto)]

mod container;
mod contents;
mod error;
mod files;
mod flat;
mod fork;
mod gate;
mod header;
mod image;
mod imports;
mod laws;
mod loader;
mod program;
mod relocations;
mod sections;
mod segments;
mod table;
mod vector;

pub use error::LoadError;
pub use files::{FileBytes, Files};
pub use fork::ID_COUNT;
pub use header::{CodeHeader, a5_of, read_header, segments_start, table_header, table_start};
pub use laws::load_laws;
pub use loader::load;
pub use mix_bits::File;
pub use sections::base_behind;
pub use segments::{code_at, segment_at};
pub use switch_frame::Program;
pub use table::{is_bad_entry, offset_in, segment_in};
