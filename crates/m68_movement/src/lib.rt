//! The 68K instructions that move data (M68000 Family Programmer's Reference Manual, section 4). Each
//! call does one step of its instruction, whose first word stands at `regs.pc`: it goes on, or it leaves a
//! fault in the cell and has changed nothing else.
#![tactic(auto)]

mod addresses;
mod along;
mod moves;
mod multiple;
mod parts;
mod peripheral;
mod registers;
mod single;
mod status;

pub use addresses::{do_lea, do_link, do_link_long, do_pea, do_unlk};
pub use moves::{do_move_byte, do_move_long, do_move_word, do_movea_long, do_movea_word};
pub use multiple::{do_movem_from_memory, do_movem_to_memory};
pub use peripheral::do_movep;
pub use registers::{do_exg, do_ext, do_ext_byte, do_moveq, do_swap};
pub use single::{do_clr, do_scc, do_tas, do_tst};
pub use status::{do_logic_to_ccr, do_move_from_sr, do_move_to_ccr};
