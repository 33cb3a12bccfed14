//! The heap of the machine: which of its addresses are in use. It holds no bytes, which are the memory's.
//!
//! How sizes are rounded, where a block goes and how many there may be are this project's own choices: `get` takes the
//! lowest place that fits, and 4096 blocks may stand.
#![tactic(auto)]

mod block;
mod blocks;
mod heap;
mod laws;

pub use block::Block;
pub use blocks::may_follow;
pub use heap::{BLOCK_LIMIT, Heap};
pub use laws::{
    block_laws, empty_heap_is_sound, freeing_keeps_sound, freeing_undoes_taking,
    lowest_fit_is_lowest, place_is_aligned, place_is_unique, placing_laws, taking_keeps_sound,
};
