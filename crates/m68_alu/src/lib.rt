//! 68K arithmetic: values and condition codes.
//!
//! They are those of unbounded integers, cut to their size.
#![tactic(auto)]

mod decimal;
mod laws;
mod logical;
mod products;
mod quotients;
mod shifts;
mod sizes;
mod sums;

pub use decimal::{abcd, sbcd};
pub use laws::overflow_laws;
pub use logical::logic;
pub use m68_isa::{LogicOp, ShiftOp};
pub use products::{Wide, mul, mul_long};
pub use quotients::{
    LongQuotient, Quotient, div, div_long, signed_long_quotient, unsigned_long_quotient,
};
pub use shifts::shift;
pub use sizes::{result_flags, set_result_flags};
pub use sums::{Out, add, addx, cmp, sub, subx};
