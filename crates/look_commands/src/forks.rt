// The forks of files.
ghost use Rattle.std.specs.Prelude.{◌≡◌, ◌^◌, ◌<◌, length};
ghost use Rattle.wrapped_forks.specs.Forks.{fork_of};
ghost use Rattle.binhex.specs.Forks.{forks_of};
ghost use Rattle.look_commands.specs.Forks.{PutsEncoded, PutsFork, PutsForkOf, PutsUnwrapped, WritesFork, encoded_fork};
ghost use Rattle.look_commands.specs.inner.Encoded.{is_want_of_memory};

use crate::said::{fail, print, say};
use crate::streams::Streams;
use binhex::{BinHexError, Fork as EncodedFork, Forks, read};
use job_words::Key;
use look_words::fetch;
use look_words::status::{NO_MEMORY, OUTPUT_FAILED, REFUSED, SUCCESS};
use mix_bits::File;
use std::alloc::{AllocError, Global};
use std::io::{Read, Write};
use std::rt::Files;
use wrapped_forks::{Fork, ForkError, find_fork};

/// What is said of a file of which nothing is known.
const NOTHING_KNOWN: &str =
    "it is none of these: a raw resource fork, MacBinary I to III, AppleSingle, AppleDouble, BinHex 4.0; an archive, as of StuffIt, and a disk image are unpacked first";

/// Writes a fork of a file.
pub fn fork<F: Files, R: Read + Drop, W: Write + Drop, E: Write + Drop>(
    alloc: Global,
    files: &F,
    name: &str,
    which: Fork,
    streams: &mut Streams<R, W, E>,
) -> u8
    ensures { WritesFork which (W.contents streams.old.out) (W.contents streams.new.out) result }
{
    let key = Key::Program(File::Rsrc);
    match fetch(alloc, files, name, key) {
        Ok(bytes) => write_fork(alloc, name, &bytes, which, streams),
        Err(failure) => fail(&mut streams.errors, failure),
    }
}

/// Writes a fork that the bytes of a file are or wrap, or have as text, or says to the errors why there is none.
pub fn write_fork<R: Read + Drop, W: Write + Drop, E: Write + Drop>(
    alloc: Global,
    name: &str,
    bytes: &[u8],
    which: Fork,
    streams: &mut Streams<R, W, E>,
) -> u8
    requires { length bytes.now < 2 ^ 32 }
    ensures { PutsForkOf bytes.now which (fork_of bytes.now which) (W.contents streams.old.out) (W.contents streams.new.out) result }
{
    match find_fork(bytes, which) {
        Ok(found) => {
            let start = found.start as usize;
            print(
                &mut streams.out,
                &bytes[start..start + found.length as usize],
            )
        }
        Err(error) => write_unwrapped(alloc, name, bytes, which, error, streams),
    }
}

/// The same of a file that neither is nor wraps such a fork: one of which nothing is known can be BinHex.
fn write_unwrapped<R: Read + Drop, W: Write + Drop, E: Write + Drop>(
    alloc: Global,
    name: &str,
    bytes: &[u8],
    which: Fork,
    error: ForkError,
    streams: &mut Streams<R, W, E>,
) -> u8
    requires { length bytes.now < 2 ^ 32 }
    ensures { PutsUnwrapped bytes.now which error (W.contents streams.old.out) (W.contents streams.new.out) result }
{
    match error {
        ForkError::Unknown => write_encoded(alloc, name, bytes, which, streams),
        ForkError::Header => refuse(format!(in alloc; "{name}: {error}"), &mut streams.errors),
        ForkError::Version(_) => refuse(format!(in alloc; "{name}: {error}"), &mut streams.errors),
        ForkError::Cut(_) => refuse(format!(in alloc; "{name}: {error}"), &mut streams.errors),
        ForkError::Forkless(_, _) => refuse(
            format!(in alloc; "{name}: {error}"),
            &mut streams.errors,
        ),
    }
}

/// The same of a file that can be BinHex at most.
#[tactic(auto, using(crate::proofs::Encoded::encoded, crate::proofs::Encoded::not_encoded))]
fn write_encoded<R: Read + Drop, W: Write + Drop, E: Write + Drop>(
    alloc: Global,
    name: &str,
    bytes: &[u8],
    which: Fork,
    streams: &mut Streams<R, W, E>,
) -> u8
    requires { length bytes.now < 2 ^ 32 }
    ensures { PutsEncoded which (forks_of bytes.now) (W.contents streams.old.out) (W.contents streams.new.out) result }
{
    match read(alloc, bytes) {
        Ok(forks) => print_encoded(alloc, name, &forks, which, streams),
        Err(error) => {
            if is_memory(error) {
                return NO_MEMORY;
            }
            refuse(unread(alloc, name, error), &mut streams.errors)
        }
    }
}

fn is_memory(error: BinHexError) -> bool
    ensures { result ≡ is_want_of_memory error }
{
    match error {
        BinHexError::NoMemory => true,
        _ => false,
    }
}

/// Why a file is no BinHex.
fn unread(alloc: Global, name: &str, error: BinHexError) -> Result<String, AllocError> {
    match error {
        BinHexError::Unmarked => format!(in alloc; "{name}: {NOTHING_KNOWN}"),
        error => format!(in alloc; "{name}: {error}"),
    }
}

/// Writes a fork that was text, where it has a byte.
fn print_encoded<R: Read + Drop, W: Write + Drop, E: Write + Drop>(
    alloc: Global,
    name: &str,
    forks: &Forks,
    which: Fork,
    streams: &mut Streams<R, W, E>,
) -> u8
    ensures { PutsFork (encoded_fork which forks.now) (W.contents streams.old.out) (W.contents streams.new.out) result }
{
    let encoded = fork_in(forks, which);
    if encoded.is_empty() {
        return refuse(
            format!(in alloc; "{name}: it is BinHex, without a {which}"),
            &mut streams.errors,
        );
    }
    match encoded.put(&mut streams.out) {
        Ok(()) => SUCCESS,
        Err(_) => OUTPUT_FAILED,
    }
}

fn fork_in(forks: &Forks, which: Fork) -> EncodedFork<'_>
    ensures { result ≡ encoded_fork which forks.now }
{
    match which {
        Fork::Data => forks.data_fork(),
        Fork::Resource => forks.resource_fork(),
    }
}

/// Says why a file is refused, if there was memory for a sentence.
fn refuse<E: Write>(sentence: Result<String, AllocError>, errors: &mut E) -> u8
    ensures { result ≡ 3 }
{
    if let Ok(text) = sentence {
        say(errors, text.as_bytes());
    }
    REFUSED
}
