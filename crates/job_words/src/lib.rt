//! The words of a command line: which command they give, and which word is the first bad one.
//!
//! `read_words` answers exactly the command or the first bad word, for `run`, `list`, `sample`, `assemble`, `continue`
//! and `debug`; `word_laws` says by what each word sets when that is a command, and which one. Which files a command
//! wants is `Command::place`, in the order of `Key::ALL`; what it keeps is `Command::save`.
#![tactic(auto)]

mod draft;
mod job;
mod laws;
mod setting;
mod words;

pub use job::{BadWord, Command, Job, Key};
pub use laws::word_laws;
pub use words::{file_name, read_words};
