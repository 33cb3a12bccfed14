//! Arithmetic of the PowerPC 601: what its integer instructions compute from words, with the carry CA and the overflow
//! OV, and the bits of the condition register.
#![tactic(auto)]

mod arith;
mod condition;
mod mask;
mod quotients;
mod shift;
mod signed;

pub use arith::{Arith, add3, mul_high, mul_low};
pub use condition::{CrOp, compare, cr_logic, is_less};
pub use mask::rotate_mask;
pub use quotients::divide;
pub use shift::shift_right;
