//! The PowerPC 601 as an integer program sees it: its registers, its instructions as words, and their
//! operations without fields, which a step takes from the word where it uses them.
#![tactic(auto)]

mod decode;
mod fields;
mod instruction;
mod laws;
mod made;
mod op;
mod operation;
mod register_longs;
mod registers;
mod reserved;
mod strings;
mod target;
mod word;

pub use decode::decode_ppc;
pub use instruction::{
    BranchRegister, CarryUse, Comparison, ConditionMove, ExtendedOperand, ImmediateOp, InstrPpc,
    LoadKind, LogicalOp, MaskUse, MultipleAccess, Multiplication, ReversedAccess, ReversedKind,
    Rotation, ShiftOp, SpecialMove, SpecialRegister, StoreKind, StringImmediateAccess,
    StringIndexedAccess, UnaryOp,
};
pub use laws::{long_laws, word_laws};
pub use op::OpPpc;
pub use operation::op_of;
pub use registers::RegsPpc;
pub use strings::{is_filled, string_length};
pub use target::branch_target;
pub use word::{
    a_of, b_of, d_of, far_displacement_of, from_field_of, is_absolute, is_last, is_overflow,
    low_of, mask_begin_of, mask_end_of, named_fields_of, near_displacement_of, offset_of, shift_of,
    to_field_of,
};
