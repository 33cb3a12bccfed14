//! Does one instruction, or reads and writes its text, for each line of standard input, and prints what it changed, or
//! the text. Lines that begin with `68k` or `ppc` are done (`steps`), the others are texts (`texts`).
#![tactic(auto)]

mod steps;
mod texts;

use big_memory::Ram;
use std::alloc::{AllocError, Global};
use std::io;

fn main(rt: HostRuntime) -> io::Result<()> {
    let alloc = rt.alloc();
    let Ok(mut ram) = Ram::new(alloc, steps::RAM_BYTES) else {
        return Err(io::ErrorKind::OutOfMemory.into());
    };
    for line in rt.lines(alloc) {
        let line = line?;
        let answer = answer(alloc, &mut ram, line.as_str())?;
        println!(rt; "{answer}")?;
    }
    Ok(())
}

/// The answer to a line.
fn answer(alloc: Global, ram: &mut Ram, line: &str) -> Result<String, AllocError> {
    if line.starts_with("68k ") || line.starts_with("ppc ") {
        steps::answer(alloc, ram, line)
    } else {
        texts::answer(alloc, line)
    }
}
