//! What the program does with its words, over the files of a system and three streams.
//!
//! `answer` carries the promise: the help, the version, a refusal of words that were not read, or a call of the
//! program over real files, with a counter in slot 0 and a tape in slot 1. A `main` reads its words by `words`,
//! makes the streams, and hands both over.
#![tactic(auto)]

mod answers;
mod runs;
mod system;
mod texts;

pub use answers::answer;
pub use system::{hold_streams, words};
pub use texts::{HELP, VERSION};
