//! What each instruction of the PowerPC 601 does to registers and memory, as definitions; and the instructions that touch
//! no memory, a function for each row of the table of instructions. Each does the step of its word, registers in place.
//!
//! The parts that the bodies of many instructions share stand here, too: the condition register, addresses and results.
#![tactic(auto)]

mod addresses;
mod arithmetic;
mod branches;
mod condition;
mod conditions;
mod ending;
mod laws;
mod logic;
mod mask;
mod results;
mod rotate;
mod shift;
mod special;
mod trap;
mod xer;

pub use addresses::{base, index_address, offset_address};
pub use arithmetic::{
    add, add_extended, add_immediate, add_immediate_carrying, divide_words, multiply_high,
    multiply_low, multiply_low_immediate, negate, subtract_from, subtract_from_extended,
    subtract_from_immediate_carrying,
};
pub use branches::{branch, branch_conditional, branch_conditional_to_register};
pub use conditions::{
    compare_immediate, compare_registers, condition_logical, move_condition_field,
    move_from_condition_register, move_to_condition_fields, move_xer_to_condition_field,
};
pub use laws::{effect_laws, storage_laws};
pub use logic::{logical, logical_immediate, unary};
pub use results::advance;
pub use rotate::{
    rotate_left, rotate_left_immediate, shift_right_algebraic_immediate, shift_word_left,
    shift_word_right, shift_word_right_algebraic,
};
pub use special::{move_from_special, move_to_special, synchronize};
pub use trap::{trap_word, trap_word_immediate};
pub use xer::xer_string_length;
