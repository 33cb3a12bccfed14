//! The names of traps: what a word from $A000 to $AFFF calls, of the Operating System and of the Toolbox.
//!
//! Source: Inside Macintosh, its lists of trap words; Operating System Utilities, chapter 8, 'Trap Manager', for the flags.
//! Only words of which that is sure are here.
#![tactic(auto)]

mod traps;

pub use traps::trap_name;
