//! The 68000 as a program sees it: its registers, and its instructions as words, with the user instructions of the
//! 68020 that are taken: long branches, extb.l, link.l, rtd, long multiplication and division, scaled index.
//!
//! The table of `specs/Decode` gives each first word its operation, and `op_of_word` answers it from a constant, a letter
//! for each word; the fields of the word stand beside it one by one. `decode68` gives the instruction that the operation
//! makes of the words.
#![tactic(auto)]

mod arithmetic;
mod conditions;
mod decode;
mod ea;
mod fields;
mod found;
mod immediates;
mod instructions;
mod laws;
mod lettered;
mod letters;
mod made;
mod miscellaneous;
mod moves;
mod op;
mod operand;
mod operations;
mod places;
mod read;
mod register_longs;
mod register_word;
mod registers;
mod target;

pub use conditions::{condition_law, holds};
pub use decode::decode68;
pub use ea::{Ea, Index};
pub use fields::{
    bit_op_of, bit8_of, byte_of, condition_of, exchange_of, is_in_memory, is_left, is_long,
    is_to_memory, logic_op_of, lower_of, memory_shift_of, mode_of, move_mode_of, quick_of,
    register_shift_of, shift_count_of, size_bits_of, size_of, transfer_size_of, trap_of, upper_of,
};
pub use instructions::{
    BitOp, Decoded68, Exchange, ImmediateOp, Instr68, JumpOp, LogicOp, PlainOp, QuickOp,
    ShiftCount, ShiftOp,
};
pub use laws::{long_laws, op_laws, reading_law};
pub use op::Op68;
pub use operand::{immediate_words, word_at};
pub use operations::op_of_word;
pub use register_word::{high_of, is_register_word, is_signed, is_wide, low_of};
pub use registers::{Ccr, Regs68};
pub use target::branch_target;
