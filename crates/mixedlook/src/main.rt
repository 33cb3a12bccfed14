//! The program that explains: words from the command line, files by their paths, and the standard streams. What it
//! does behind its words is `answer` of look_commands.
#![tactic(auto)]

use look_commands::{Streams, answer, print, tell};
use look_words::status::{BAD_WORDS, NO_MEMORY};
use std::env;
use std::io::{self, ErrorKind};
use std::process::ExitCode;

/// What stands behind a refusal of words.
const USAGE: &str = "usage: mixedlook COMMAND WORD.., and mixedlook --help says which\n";

/// What `--help` prints.
const HELP: &str = "\
mixedlook explains programs that mix 68K and PowerPC code, and their traces.

usage: mixedlook map FILES [main=68k|ppc] [ram=KIB]
       mixedlook scan FILES [main=68k|ppc] [ram=KIB]
       mixedlook end FILES [main=68k|ppc] [ram=KIB] [steps=N] [last=K]
                     [frames=all]
       mixedlook gdb FILES [main=68k|ppc] [ram=KIB] [input=F] [trace=yes|no]
                     [keep=K]
       mixedlook image image=IMAGE [frames=all]
       mixedlook image image=IMAGE at=HHHHHHHH [count=N]
       mixedlook info word=HHHHHHHH
       mixedlook trace file=TRACE [names=NAMES]
       mixedlook picture file=TRACE [names=NAMES]
       mixedlook fork file=FILE
       mixedlook data file=FILE
       mixedlook words WORD..
       mixedlook why script=F
       mixedlook why set=68k|ppc text=F at=HHHHHHHH

FILES is flat=FILE, rsrc=FILE, pef=FILE, or rsrc=FILE pef=FILE, as mixedrun's.

map says where the pieces of a program lie once it is loaded, or why it is not;
scan says what a program would ask for, by its files alone: the traps in its
68K code and how often each stands there, routine descriptors, and what its
container imports; end runs a program as mixedrun does, and writes behind its
trace how it ended, in words, its last steps and its last jump, how low each
stack pointer came, the registers, the suspended callers, the stack and the
heap; gdb lets gdb walk the program forward and back, over standard input and
output; image writes the same of a machine that was kept, or a part of its
memory; info says what a procInfo word declares, and where 68K code and PowerPC
code have each value; trace writes a trace as an indented tree and counts the
calls across; picture writes it as an SVG file; fork writes the raw resource
fork of a MacBinary, AppleSingle, AppleDouble or BinHex 4.0 file, and data the
data fork; words says why mixedrun refuses these words, and why which line of a
script or of a text it refuses first, and the rule that the line breaks.

  last=K         how many of the last steps are told, 0 to 1000 (default 16);
                 equal ones behind each other count as one
  frames=all     all suspended callers are told, and not the first and the last
                 eight alone
  input=F        the file that is the program's input (default: none)
  trace=yes      the lines of calls across come to gdb's console, too
  keep=K         how many machines gdb's walks back begin from at the most, beside
                 the first, 0 to 1000 (default 32)
  image=IMAGE    a machine that mixedrun kept
  at=HHHHHHHH    the address of the first byte that is written
  count=N        how many are written, 1 to 65536 (default 256)
  word=HHHHHHHH  a procInfo word, eight upper-case hexadecimal digits
  file=TRACE     the trace of a run of mixedrun
  names=NAMES    the output of nm, by which routines are named
  file=FILE      a file with forks
  script=F       a script of mixedrun's debug
  text=F         a text of mixedrun's assemble, of the set of set=, whose first
                 line stands at the address of at=

Status:
  0  done                              2  bad words
  3  a line or a file was refused      4  a file was not read
  5  the input failed                  6  the output failed
  7  the trace failed                  9  there was no memory
";

/// What `--version` prints.
const VERSION: &str = "mixedlook 0.1.0\n";

fn main(rt: HostRuntime) -> ExitCode {
    ExitCode::from(match words(&rt) {
        Ok(words) => match words.as_slice() {
            [word] if word.as_str() == "--help" => print(&mut rt.stdout(), HELP.as_bytes()),
            [word] if word.as_str() == "--version" => print(&mut rt.stdout(), VERSION.as_bytes()),
            words => explain(&rt, words),
        },
        Err(error) => unread(&rt, error.kind()),
    })
}

/// The words after the program's name.
fn words(rt: &HostRuntime) -> io::Result<Vec<String>> {
    let mut args = env::args(rt)?;
    let _name = args.next();
    Ok(args.collect(rt.alloc())?)
}

/// Does what the words ask for over the standard streams, and answers the status.
fn explain(rt: &HostRuntime, words: &[String]) -> u8 {
    let mut streams = Streams {
        input: rt.stdin(),
        out: rt.stdout(),
        errors: rt.stderr(),
    };
    answer(rt.alloc(), rt, words, USAGE, &mut streams)
}

/// The status where there are no words: for want of memory, or since one of them is no text.
fn unread(rt: &HostRuntime, kind: ErrorKind) -> u8 {
    if kind == ErrorKind::OutOfMemory {
        return NO_MEMORY;
    }
    tell(&mut rt.stderr(), b"mixedlook: a word is no text\n");
    BAD_WORDS
}
