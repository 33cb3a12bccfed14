// A shelf over the files of the system.
ghost use Rattle.std.specs.Prelude.{◌≡◌, ◌≤◌, ℕ, List, None, IfErr, IfOk, IfSome, IsErrAnd, length};
ghost use Rattle.std.specs.IoError.{error_kind};
ghost use Rattle.mix_io.specs.Takes.{NamesLimit};
ghost use Rattle.mix_io.specs.inner.Files.{IsRefusal, ReadsWhole};

use super::counts::count_fault;
use super::errors::FetchError;
use super::traits::Shelf;
use std::alloc::Global;
use std::fs;
use std::io::{self, ErrorKind, Read};
use std::rt::Files;

/// How many bytes one read asks for.
const CHUNK: usize = 4096;

/// Finds files by their paths, and tells nothing. It keeps one count of faults, and one of
/// files that were too long, for all names together.
#[derive(Drop)]
pub struct FileShelf<'a, R: Files> {
    rt: &'a R,
    faults: u64,
    excesses: u64,
}

impl<'a, R: Files> FileShelf<'a, R> {
    /// A shelf of the files that the system has, with no fault yet, and none too long.
    pub fn new(rt: &'a R) -> FileShelf<'a, R>
        ensures faults { (name : List ℕ) → ⟦<FileShelf<'a, R> as Shelf>⟧.faults result name ≡ 0 }
        ensures excesses { (name : List ℕ) → ⟦<FileShelf<'a, R> as Shelf>⟧.excesses result name ≡ 0 }
    {
        FileShelf {
            rt,
            faults: 0,
            excesses: 0,
        }
    }
}

impl<R: Files> Shelf for FileShelf<'_, R> {
    ghost contents = { λ _. None };

    ghost faults = { λ s _. s.faults };

    ghost excesses = { λ s _. s.excesses };

    fn fetch(&mut self, alloc: Global, name: &str, limit: u32) -> Result<Vec<u8>, FetchError> {
        let fetched = read_opened(alloc, fs::open(self.rt, name), limit);
        match &fetched {
            Err(FetchError::Failed) => self.faults = count_fault(self.faults),
            Err(FetchError::TooLong(_)) => self.excesses = count_fault(self.excesses),
            _ => {}
        }
        fetched
    }
}

/// What a file that was to be opened holds, or why it cannot be had.
fn read_opened<F: Read + Drop>(
    alloc: Global,
    opened: io::Result<F>,
    limit: u32,
) -> Result<Vec<u8>, FetchError>
    ensures within { IfOk result (λ v. length v.items ≤ limit) }
    ensures limit { NamesLimit limit result }
    ensures refused { IfErr opened (λ error. IsErrAnd result (IsRefusal (error_kind error))) }
    ensures whole { IfOk opened (λ file. IfSome (F.remaining file) (λ bytes. ReadsWhole bytes limit result)) }
{
    match opened {
        Ok(mut file) => read_whole(alloc, &mut file, limit),
        Err(error) => Err(refusal(error)),
    }
}

/// What a reader has left, if that is at most `limit` bytes.
fn read_whole<F: Read>(alloc: Global, file: &mut F, limit: u32) -> Result<Vec<u8>, FetchError>
    ensures within { IfOk result (λ v. length v.items ≤ limit) }
    ensures limit { NamesLimit limit result }
    ensures whole { IfSome (F.remaining file.old) (λ bytes. ReadsWhole bytes limit result) }
{
    let mut bytes = Vec::new(alloc);
    let mut chunk = [0; CHUNK];
    loop {
        let count = file.read(&mut chunk).map_err(refusal)?;
        if count == 0 {
            return Ok(bytes);
        }
        if count > limit as usize - bytes.len() {
            return Err(FetchError::TooLong(limit));
        }
        bytes
            .extend_from_slice(&chunk[..count])
            .map_err(|_| FetchError::NoMemory)?;
    }
}

/// Want of memory stays what it is, and every other error is a failure.
fn refusal(error: io::Error) -> FetchError
    ensures { IsRefusal (error_kind error) result }
{
    match error.kind() {
        ErrorKind::OutOfMemory => FetchError::NoMemory,
        _ => FetchError::Failed,
    }
}
