//! What each 68K instruction does, as definitions; and the parts that the bodies of many instructions share: an
//! operation on two numbers, an operand that it changes, a data register that takes its result, and the stack.
//!
//! What is refused has changed neither registers nor memory; its fault is left in a cell.
#![tactic(auto)]

mod changes;
mod laws;
mod next;
mod operation;
mod registers;
mod stack;
mod step_laws;

pub use changes::{
    change, change_by_immediate, change_by_register, change_operand, change_register, change_sized,
};
pub use laws::effect_laws;
pub use next::go_on;
pub use operation::{Operation, apply};
pub use registers::{take_operand, take_register};
pub use stack::{pop, push, push_if_open};
pub use step_laws::{reading_laws, tried_laws, writing_laws};
