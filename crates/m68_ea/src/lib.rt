//! Where the operands of 68K instructions stand: the addressing modes, and reading and writing what they name.
//!
//! [`place`], [`read_at`] and [`write_at`] work on a decoded operand. Others find, read and write the operands of an
//! instruction's words, each word as it is used, or one address. What is refused has changed neither registers nor
//! memory; its fault is left in a cell, but for the calls of usual operands, which tell none.
#![tactic(auto)]

mod accesses;
mod laws;
mod operands;
mod places;
mod usual;
mod words;

pub use accesses::{load, read_at, store, write_at};
pub use laws::{operand_law, word_laws};
pub use operands::{Target, control, data_address, find, put, source, value};
pub use places::{Place68, place, step};
pub use usual::{Usual, find_usual, put_usual, usual_or_immediate, usual_source, usual_write};
pub use words::{
    extended_word, has_five, immediate_at, is_second_good, long_at, read_words, word_at,
};
