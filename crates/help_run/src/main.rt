//! The program, run here with the word that asks for the help.
#![tactic(auto)]

use mix_io::StdSink;
use mix_main::{answer, hold_streams, words};
use std::process::ExitCode;

fn main(rt: HostRuntime) -> ExitCode {
    let _holders = hold_streams(&rt);
    let mut out = StdSink::new(rt.stdout());
    let mut trace = StdSink::new(rt.stderr());
    ExitCode::from(answer(&rt, words(&rt), rt.stdin(), &mut out, &mut trace))
}
