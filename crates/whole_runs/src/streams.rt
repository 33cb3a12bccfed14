// Streams in memory, of which a read or a write can fail.
use mix_io::{Failed, MemSink, MemSource, NoMemory, Sink, Source};
use std::alloc::Global;
use std::io::{self, ErrorKind, Read, Write};

/// Room for more than a case writes.
const AMPLE: u32 = 0x1_0000;

/// A reader that gives a byte at each read.
#[derive(Drop)]
pub struct Input(MemSource);

impl Input {
    /// A reader of these bytes. `fails` has the numbers, from 1, of the reads that fail.
    pub fn new(bytes: Vec<u8>, fails: Vec<u32>) -> Input {
        Input(MemSource::new(bytes, fails))
    }
}

impl Read for Input {
    fn read(&mut self, buf: &mut [u8]) -> io::Result<usize> {
        if buf.is_empty() {
            return Ok(0);
        }
        match self.0.take() {
            Ok(Some(byte)) => {
                buf[0] = byte;
                Ok(1)
            }
            Ok(None) => Ok(0),
            Err(Failed) => Err(ErrorKind::Other.into()),
        }
    }
}

/// A writer that keeps what is written.
#[derive(Drop)]
pub struct Output(MemSink);

impl Output {
    /// An empty writer. `fails` has the numbers, from 1, of the writes that fail and keep nothing.
    pub fn new(alloc: Global, fails: Vec<u32>) -> Result<Output, NoMemory> {
        Ok(Output(MemSink::new(alloc, AMPLE, fails)?))
    }

    /// The bytes that were written.
    pub fn held(&self) -> &[u8] {
        self.0.held()
    }
}

impl Write for Output {
    fn write(&mut self, buf: &[u8]) -> io::Result<usize> {
        match self.0.put(buf) {
            Ok(()) => Ok(buf.len()),
            Err(Failed) => Err(ErrorKind::Other.into()),
        }
    }

    fn flush(&mut self) -> io::Result<()> {
        Ok(())
    }
}
