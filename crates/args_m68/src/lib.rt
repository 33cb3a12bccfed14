//! The arguments and results of calls in 68K code: where each convention of the Mixed Mode Manager has them, how they are
//! read from a caller, and how they are handed to a callee (Inside Macintosh: PowerPC System Software, chapter 2).
//!
//! Each call answers the definition's value, and one that is refused has changed nothing. What was handed over reads back
//! as the arguments, cut to their sizes, and no byte beside it changes.
#![tactic(auto)]

mod deliver;
mod gather;
mod laws;
mod places;
mod results;
mod values;
mod words;

pub use deliver::{Start68, below68, deliver68, start_68};
pub use gather::{gather68, select68};
pub use laws::{args68_laws, place68_laws, result68_laws};
pub use places::{
    Flag, Place, next_base, place_for, result_place, selector_place, selector_width, widths,
};
pub use results::{popped, put_result68, removed68, result68};
pub use words::Words;
