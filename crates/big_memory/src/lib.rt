//! The memory of the mixed machine: bytes from address 0 on, a guard of units of 16 bytes that no
//! store may change, the memory map, and what a step over memory answers.
#![tactic(auto)]

mod bytes;
mod laws;
mod map;
mod marks;
mod ram;
mod refusals;
mod steps;

pub use bytes::{are_bytes, read_longs};
pub use laws::{memory_laws, number_laws, put_laws};
pub use map::{
    GATE_PAGE, GATE_PAGE_END, HOST_FUNCTIONS, exit_gate, host_address, host_code, host_vector,
    in_gate_page, is_gate, return_gate,
};
pub use mix_bits::NoMemory;
pub use ram::Ram;
pub use refusals::Access;
pub use steps::{Did, leave, refuse, stop};
