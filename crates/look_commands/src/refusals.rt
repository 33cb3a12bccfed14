// Why scripts and texts are refused.
ghost use Rattle.std.specs.Prelude.{◌≡◌};
ghost use Rattle.look_commands.specs.Whys.{PutsReport, WritesScriptWhy, WritesTextWhy};

use crate::said::{fail, print};
use crate::streams::Streams;
use job_words::Key;
use look_why::{Report, explain_script, explain_text};
use look_words::fetch;
use look_words::status::{REFUSED, SUCCESS};
use mix_bits::Isa;
use std::alloc::Global;
use std::io::{Read, Write};
use std::rt::Files;

/// Says why mixedrun refuses the script in the file of a name.
pub fn why_script<F: Files, R: Read + Drop, W: Write + Drop, E: Write + Drop>(
    alloc: Global,
    files: &F,
    name: &str,
    streams: &mut Streams<R, W, E>,
) -> u8
    ensures { WritesScriptWhy (W.contents streams.old.out) (W.contents streams.new.out) result }
{
    match fetch(alloc, files, name, Key::Script) {
        Ok(bytes) => print_report(&mut streams.out, &explain_script(&bytes)),
        Err(failure) => fail(&mut streams.errors, failure),
    }
}

/// Says why mixedrun refuses the text of a set in the file of a name, whose first line has an address.
pub fn why_text<F: Files, R: Read + Drop, W: Write + Drop, E: Write + Drop>(
    alloc: Global,
    files: &F,
    set: Isa,
    name: &str,
    at: u32,
    streams: &mut Streams<R, W, E>,
) -> u8
    ensures { WritesTextWhy set at (W.contents streams.old.out) (W.contents streams.new.out) result }
{
    match fetch(alloc, files, name, Key::Text) {
        Ok(bytes) => print_report(&mut streams.out, &explain_text(set, &bytes, at)),
        Err(failure) => fail(&mut streams.errors, failure),
    }
}

/// Puts a report to the output, and answers the status.
fn print_report<W: Write>(out: &mut W, report: &Report) -> u8
    ensures { PutsReport report.now.text.items report.now.is_taken (W.contents out.old) (W.contents out.new) result }
{
    let printed = print(out, &report.text);
    if printed == SUCCESS && !report.is_taken {
        REFUSED
    } else {
        printed
    }
}
