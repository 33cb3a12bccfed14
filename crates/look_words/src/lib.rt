//! The words of mixedlook, and the sentences on what is refused.
//!
//! `read_look` answers exactly the command that words ask for, or why there is none. `refusal_text` and `why_text` write
//! exactly the sentences of their definitions on words that mixedlook and that mixedrun refuses, and `load_error_text` the
//! rule that a program breaks which is not loaded.
//!
//! `requested` gives the job of words that ask for a run, with its files, and `fetch` the bytes of a file; where they have
//! none, they answer the status of the command, and the sentence that goes with it.
#![tactic(auto)]

mod failure;
mod files;
mod load_error;
mod look;
mod program;
mod request;
mod sentence;
mod session;
/// The statuses of a call.
pub mod status;
mod unmade;

pub use failure::Failure;
pub use files::{fetch, name_at, unread};
pub use load_error::load_error_text;
pub use look::{Frames, Key, Look, Refusal, Server, Span, read_look};
pub use request::{Request, explanation, requested};
pub use sentence::{refusal_text, why_text};
