//! All that mixedlook does behind its words, over files and three streams.
//!
//! `answer` does what words ask for: it opens the files that they name, reads the input of a run, writes texts to the
//! output, and sentences and traces to the errors. Words that are refused have status 2, and files and machines are
//! handed on only as the other crates want them: the files of a proper job, and machines that are whole. `write_fork`,
//! `write_map` and `serve_files` are its `fork`, `data`, `map` and `gdb` over bytes and files that are given, the last one
//! also over streams that are.
//!
//! `run_keeping` is one run of the machine, a step at a time, that keeps its last steps and
//! its last jump.
#![tactic(auto)]

mod commands;
mod counted;
mod forks;
mod gdb;
mod images;
mod maps;
mod refusals;
mod run;
mod runs;
mod said;
mod streams;
mod traces;

pub use commands::answer;
pub use forks::write_fork;
pub use gdb::{Given, serve_files};
pub use maps::write_map;
pub use run::run_keeping;
pub use said::{print, tell};
pub use streams::Streams;
