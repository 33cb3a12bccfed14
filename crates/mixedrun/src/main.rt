//! The program: words from the command line, files by their paths, the input on standard input, the output on
//! standard output and the trace on standard error, and what is kept in a file.
#![tactic(auto)]

use mix_io::StdSink;
use mix_main::{answer, hold_streams, words};
use std::process::ExitCode;

fn main(rt: HostRuntime) -> ExitCode {
    let _holders = hold_streams(&rt);
    let mut out = StdSink::new(rt.stdout());
    let mut trace = StdSink::new(rt.stderr());
    ExitCode::from(answer(&rt, words(&rt), rt.stdin(), &mut out, &mut trace))
}
