//! What the machine meets of the world outside it: files, input, output, devices and what is kept, by five traits,
//! each with objects in memory for tests and for closed runs, and, but for devices, with adapters over std.
#![tactic(auto)]

mod conversation;
mod counter;
mod counts;
mod errors;
mod file_keep;
mod file_shelf;
mod laws;
mod memory_keep;
mod memory_shelf;
mod memory_sink;
mod memory_source;
mod script_device;
mod std_sink;
mod std_source;
mod tape;
mod traits;
mod write;

pub use conversation::Conversation;
pub use counter::Counter;
pub use errors::{Failed, FetchError};
pub use file_keep::FileKeep;
pub use file_shelf::FileShelf;
pub use laws::{keeper_laws, stream_laws};
pub use memory_keep::MemKeep;
pub use memory_shelf::{MemShelf, have_distinct_names};
pub use memory_sink::MemSink;
pub use memory_source::MemSource;
pub use mix_bits::NoMemory;
pub use script_device::ScriptDevice;
pub use std_sink::StdSink;
pub use std_source::StdSource;
pub use tape::Tape;
pub use traits::{Device, Keeper, Shelf, Sink, Source};
pub use write::write_whole;
