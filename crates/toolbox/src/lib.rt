//! The functions that the host has for programs: 68K code reaches them by trap words, PowerPC code by
//! imports. `docs/machine.md` has their table, which `specs/Table` states row by row.
//!
//! `host_call` does what the table says; a stream's count of failures rises only where the call tells so.
#![tactic(auto)]

mod blocks;
mod broken;
mod call;
mod function;
mod imports;
mod laws;
mod out;
mod outcome;
mod perform;
mod registers;
mod results;
mod streams;
mod table;
mod traps;
mod values;

pub use broken::Broken;
pub use call::{call_heap, host_call};
pub use function::Function;
pub use imports::import_index;
pub use laws::{blame_laws, table_laws};
pub use out::HostOut;
pub use table::FUNCTIONS;
pub use traps::{trap_index, trap_laws};
