// The streams of the program.
use std::io::{Read, Write};

/// What a command reads and writes: the input and the output of a program that it runs, the texts that it puts to the
/// output, and the sentences and the trace that it puts to the errors.
#[derive(Drop)]
pub struct Streams<R: Read + Drop, W: Write + Drop, E: Write + Drop> {
    pub input: R,
    pub out: W,
    pub errors: E,
}
