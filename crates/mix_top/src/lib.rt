//! The whole program as one call over traits: words, a shelf of files, an input, an output, a trace, devices and a keeper.
//!
//! `mixed_main` carries the promise of the program: a call ends in one of the ways of `specs/Ends`, with its cause.
//! `mixed_main_counted` tells the number of steps beside the status.
//!
//! `run_files` and `run_machine` are what `run` and `continue` do once their files were fetched, for a caller without words.
//!
//! Scripts of the debugger: `Script::read` tests a whole text before anything is done. `run_script` does, for each
//! debugger and each outside, the events that the commands have by definition.
//!
//! The sample is a program whose 68K and PowerPC code call each other, as deep as is asked for. `run_sample` counts the
//! crossings of its run: a step at a time, with no input, no devices, and an output and a trace that keep nothing.
#![tactic(auto)]

mod assemble;
mod calls;
mod checkpoint;
mod close;
mod command;
mod continued;
mod debug;
mod ending;
mod files;
mod laws;
mod lines;
mod list;
mod nothing;
mod play;
mod run;
mod sample_run;
mod sampled;
mod sampling;
mod script;
mod script_lines;
mod spelling_laws;
/// What the status of a call tells.
pub mod status;
mod texts;
mod top;
mod walk;

pub use calls::{run_files, run_files_counted, run_machine, run_machine_counted};
pub use command::ScriptCommand;
pub use ending::Ending;
pub use job_words::{BadWord, Command, Job, read_words};
pub use laws::checkpoint_laws;
pub use play::run_script;
pub use sample_run::run_sample;
pub use sampled::Sampled;
pub use script::{BadLine, Script};
pub use spelling_laws::script_laws;
pub use top::{mixed_main, mixed_main_counted};
