//! Runs whole programs over objects in memory, one for each line of standard input, and prints what each
//! gave.
//!
//! A line `file NAME PIECES` names bytes that later lines use; `src/images.rt` says how they are spelled. A
//! line that begins with `;` says what follows. Any other line is a case:
//!
//! `NAME | WORDS | FILES | INPUT | OUTSIDE`
//!
//! The words are those of a command line. The files stand as `NAME: PIECES; ..`, the input as pieces. The
//! outside says what fails and what is short, as `src/outside.rt` reads it. The answer is
//!
//! `NAME | STATUS | OUTPUT | TRACE | JOURNAL | INPUT LEFT`
//!
//! where ` /` stands for the end of a line of the trace, and behind it, where something was kept, ` | KEPT`: how
//! many bytes, and the name of a file that has the same. With `sweep=FIRST..LAST` the program is run for each
//! address from the first to the last, with the address as the last four bytes of its input, and the answer
//! tells which of them end alike. So it is with `lengths=` for the last file cut to each length, with `places=`
//! for the last file with 1 added to the byte at each place, and with `cuts=` for the run cut after each number
//! of steps, kept and continued. With `untold` the outside is that of std around an empty input, outputs that
//! keep nothing, and no device; it tells nothing, so the answer is `NAME | STATUS`.
//!
//! A line `look WORDS` has the words of mixedlook, whose files lie where this program is run, and among them words that
//! speak of the streams, `@KEY=VALUE`: `@input=TEXT` is what the input has, and `@in=N`, `@out=N` and `@errors=N` have the
//! number of the read of the input, or of the write to the output or the errors, that fails, counted from 1. The input
//! gives a byte at each read. Of each such case the output is written, for `fork`, `data` and `end` in hexadecimal
//! digits, then the errors, and the status. What gdb sends stands as `@send=DATA`, a packet each, of which the sum is made
//! here; what `gdb` answers is written with a line for each packet.
//!
//! The answers that are stored beside this program were not made by it. They were worked out from the rules
//! in `docs/`: by hand the addresses, steps and lines of each small program, and by a reader of forks and
//! containers that was written from `docs/files.md` alone what each file that is cut or changed is refused
//! for. What the samples of this repository give was worked out from their sources. What mixedlook says is what a reader
//! of forks, containers, checkpoints and traces says that was written from `docs/` alone, too, but for the wording of its
//! sentences and the head of a picture, which are its own; where programs run, their steps were worked out by hand.
#![tactic(auto)]

mod case;
mod cut;
mod images;
mod look_case;
mod outside;
mod packets;
mod run;
mod streams;
mod sweep;
mod tell;
mod text;
mod untold;
mod words;

use case::Case;
use images::Images;
use run::told;
use std::io::{self, BufRead, BufReader};
use sweep::Sweep;
use tell::Telling;

fn main(rt: HostRuntime) -> io::Result<()> {
    let alloc = rt.alloc();
    let mut images = Images::new(alloc);
    for line in BufReader::new(alloc, rt.reader())?.lines(alloc) {
        run_line(&rt, &mut images, line?.as_str())?;
    }
    Ok(())
}

/// Keeps the file of a line, or prints what its case gives.
fn run_line(rt: &HostRuntime, images: &mut Images, line: &str) -> io::Result<()> {
    if let Some(named) = line.strip_prefix("file ") {
        return images.define(rt.alloc(), named);
    }
    if let Some(words) = line.strip_prefix("look ") {
        let told = look_case::told(rt, words)?;
        println!(rt; "> {words}\n{told}")?;
    } else if !line.is_empty() && !line.starts_with(';') {
        let told = answer(rt, images, line)?;
        println!(rt; "{told}")?;
    }
    Ok(())
}

/// What the case of a line gives, as text.
fn answer(rt: &HostRuntime, images: &Images, line: &str) -> io::Result<String> {
    let case = Case::read(line);
    match Sweep::read(case.outside) {
        Some(sweep) => sweep.answer(rt.alloc(), images, case),
        None if case.outside == "untold" => untold::told(rt, images, case),
        None => told(rt.alloc(), images, case, Telling::WithKept),
    }
}
