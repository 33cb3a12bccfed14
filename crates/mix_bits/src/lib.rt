//! Words that every crate of the host shares: instruction sets, sizes of values, faults, addresses,
//! digits of numbers, lines of text, the files of a program, how long they are at most, and the numbers in their fields.
#![tactic(auto)]

mod addresses;
mod appends;
mod digits;
mod fault;
mod fields;
mod file;
mod isa;
mod laws;
mod line;
mod multiples;
mod names;
mod no_memory;
mod number;
mod pieces;
mod size;

pub use addresses::{aligned, backward, onward};
pub use digits::{digit, power, with_digit};
pub use fault::{Fault, FaultKind};
pub use fields::{long_at, three_at, word_at};
pub use file::{File, IMAGE_BYTES, MOST_BYTES};
pub use isa::{Isa, is_isa};
pub use laws::{digit_laws, name_laws, number_laws, search_laws, size_laws, test_laws};
pub use line::Line;
pub use multiples::round_up;
pub use names::split_name;
pub use no_memory::NoMemory;
pub use number::{read_decimal, read_hexadecimal};
pub use pieces::append;
pub use size::{Size, sext, trunc, with_low};
