//! The arguments and results of calls in PowerPC code: what CallUniversalProc is passed for its callee, and what a callee
//! finds in its registers and in its stack frame (Inside Macintosh: PowerPC System Software, chapters 1 and 2).
//!
//! Each call answers the definition's value. What was handed over reads back as the arguments, cut to their sizes, and no
//! byte beside it changes.
#![tactic(auto)]

mod deliver;
mod gather;
mod laws;
mod results;
mod words;

pub use deliver::{StartPpc, below_ppc, deliver_ppc, start_ppc};
pub use gather::{gather_ppc, select_ppc};
pub use laws::{args_ppc_laws, place_ppc_laws};
pub use results::{put_result_ppc, result_ppc};
pub use words::PpcWords;
