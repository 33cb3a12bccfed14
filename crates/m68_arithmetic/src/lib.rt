//! The 68K integer and decimal arithmetic (M68000 Family Programmer's Reference Manual, section 4).
//! Each call does one step of its instruction, whose first word stands at `regs.pc`: it goes on, or it
//! leaves a fault in the cell and has changed nothing else.
#![tactic(auto)]

mod addresses;
mod changes;
mod comparisons;
mod long_products;
mod pairs;
mod products;
mod quick;
mod ways;

pub use addresses::{do_adda, do_suba};
pub use changes::{
    do_add_to_memory, do_add_to_register, do_addi, do_nbcd, do_neg, do_negx, do_sub_to_memory,
    do_sub_to_register, do_subi,
};
pub use comparisons::{do_cmp, do_cmpa, do_cmpi, do_cmpm};
pub use long_products::{do_div_long, do_mul_long};
pub use pairs::{do_abcd, do_addx, do_sbcd, do_subx};
pub use products::{do_chk, do_divs, do_divu, do_muls, do_mulu};
pub use quick::{do_addq, do_subq};
