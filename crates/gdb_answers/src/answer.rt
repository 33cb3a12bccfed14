use crate::{Reason, ThreadName};
use mix_bits::Isa;

/// What is answered to a request.
#[derive(Clone, Copy)]
pub enum Answer {
    /// Nothing: the request is not known.
    Unknown,
    /// `OK`.
    Done,
    /// `E01`.
    Refused,
    /// What is supported, and whether that is several processes.
    Supported(bool),
    /// The words behind `vCont` that are known.
    ResumeWords,
    /// All registers of a process.
    Registers(Isa),
    /// The register of a process with this number.
    Register(Isa, u32),
    /// From an address, so many bytes of memory, 8192 at most.
    Memory(u32, u32),
    /// Of the description of a process, from an offset, so many bytes.
    Description(Isa, u32, u32),
    /// The one thread that there is.
    Thread(ThreadName),
    /// The threads of both processes.
    BothThreads,
    /// There are no more threads.
    NoMoreThreads,
    /// The thread that is looked at.
    Current(ThreadName),
    /// The process was there before gdb came.
    IsAttached,
    /// Who stopped, and why.
    Stopped(ThreadName, Reason),
    /// Whose program ended, and with which code.
    Exited(ThreadName, u32),
}
