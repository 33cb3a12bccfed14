//! Texts that explain: a procInfo word, the lines of a trace, and where the pieces of a program lie; and why words are
//! refused.
//!
//! Each text is exactly that of a definition: `info_text` of the word's signature and of the places that `args_m68`
//! defines, `tree_line` of a line's event, `map_program` of the places that `mix_load` defines, or, where the load is
//! refused, of what could be read. `explain` finds the word that `mix_io` refuses, its key, and what is wrong with it by
//! what `mix_io` says of that word alone.
#![tactic(auto)]

mod ask;
mod container;
mod entries;
mod fork;
mod info;
mod label;
mod line;
mod listing;
mod mapped;
mod pieces;
mod place;
mod sections;
mod segments;
mod start;
mod tree;
mod why;
mod words;

pub use info::{info_refusal, info_text};
pub use label::Label;
pub use line::{Piece, add_line, line_of};
pub use mapped::{Mapped, map_program};
pub use pieces::{add, add_bytes};
pub use tree::tree_line;
pub use why::{Why, explain, word_at};
