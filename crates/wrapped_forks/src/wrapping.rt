ghost use Rattle.std.specs.Prelude.{◌≡◌, ◌+◌, ◌^◌, ◌<◌, ◌≤◌, true, Some, IfOk, length};
ghost use Rattle.wrapped_forks.specs.Forks.{apple_wrapping as wrapping_of_magic, are_areas, binary_or_refusal as binary_or_refused, fork_of, inside as inside_of, is_raw as is_raw_fork, raw_fork as fork_of_raw, wrapped_fork as fork_of_wrapped, wrapping_name};

use crate::apple::apple_fork;
use crate::binary::{binary_fork, binary_wrapping, is_header};
use crate::fork::Fork;
use mix_bits::long_at;
use std::fmt;
use thiserror::Error;

/// What forks are wrapped in.
#[derive(Clone, Copy, Debug, PartialEq, Eq)]
pub enum Wrapping {
    /// In nothing: the file is the resource fork.
    Raw,
    MacBinary,
    MacBinary2,
    MacBinary3,
    AppleSingle,
    AppleDouble,
}

impl Wrapping {
    /// What the files of this kind are called.
    fn name(self) -> &'static str
        ensures { result.now ≡ wrapping_name self }
    {
        match self {
            Wrapping::Raw => "a raw resource fork",
            Wrapping::MacBinary => "MacBinary I",
            Wrapping::MacBinary2 => "MacBinary II",
            Wrapping::MacBinary3 => "MacBinary III",
            Wrapping::AppleSingle => "AppleSingle",
            Wrapping::AppleDouble => "AppleDouble",
        }
    }
}

impl fmt::Display for Wrapping {
    ghost output = { λ wrapping. Some (wrapping_name wrapping) };

    fn fmt<W: fmt::Write>(&self, f: &mut fmt::Formatter<W>) -> fmt::Result {
        f.write_str(self.name())
    }
}

/// The place of a fork in a file: its first byte, and how many there are.
#[derive(Clone, Copy, Debug, PartialEq, Eq)]
pub struct ForkPlace {
    pub wrapping: Wrapping,
    pub start: u32,
    pub length: u32,
}

/// Why there is no fork.
#[derive(Clone, Copy, Debug, PartialEq, Eq, Error)]
pub enum ForkError {
    #[error("it begins as none of these: a raw resource fork, MacBinary I to III, AppleSingle, AppleDouble")]
    Unknown,
    /// Byte 0 and 74 are zero and a name's length stands in byte 1.
    #[error("it could be MacBinary by its first bytes, and is not: neither is the header's check sum right, as in MacBinary II, nor is the rest that of MacBinary I")]
    Header,
    #[error("it could be {0} by its first bytes, and is not: the version is neither 1 nor 2")]
    Version(Wrapping),
    #[error("it is {0}, and cut: its header, or what that names, goes on behind the last byte")]
    Cut(Wrapping),
    #[error("it is {0}, without a {1}")]
    Forkless(Wrapping, Fork),
}

/// A fork that a file is or wraps, or why there is none.
#[tactic(auto, unfolding(crate::specs::Forks::fork_of))]
pub fn find_fork(bytes: &[u8], fork: Fork) -> Result<ForkPlace, ForkError>
    requires { length bytes.now < 2 ^ 32 }
    ensures fork { result ≡ fork_of bytes.now fork }
    ensures raw { is_raw_fork bytes.now ≡ true → result ≡ fork_of_raw bytes.now fork }
    ensures inside { IfOk result (λ fork. fork.start + fork.length ≤ length bytes.now) }
{
    if is_raw(bytes) {
        raw_fork(bytes, fork)
    } else {
        wrapped_fork(bytes, fork)
    }
}

/// Whether the data and the map that a raw fork's header names lie in the file, the map has its 28 bytes, and they share
/// no byte.
fn is_raw(bytes: &[u8]) -> bool
    requires { length bytes.now < 2 ^ 32 }
    ensures { result ≡ is_raw_fork bytes.now }
{
    16 <= bytes.len() && has_areas(bytes)
}

/// The same where there is a header.
fn has_areas(bytes: &[u8]) -> bool
    requires long { 16 ≤ length bytes.now }
    requires short { length bytes.now < 2 ^ 32 }
    ensures { result ≡ are_areas bytes.now }
{
    let len = bytes.len() as u64;
    let data_start = u64::from(long_at(bytes, 0));
    let map_start = u64::from(long_at(bytes, 4));
    let data_end = data_start + u64::from(long_at(bytes, 8));
    let map_end = map_start + u64::from(long_at(bytes, 12));
    let shared = data_start.max(map_start) < data_end.min(map_end);
    data_end <= len && map_end <= len && 28 <= long_at(bytes, 12) && !shared
}

/// A fork of a file that is a raw resource fork.
fn raw_fork(bytes: &[u8], fork: Fork) -> Result<ForkPlace, ForkError>
    requires { length bytes.now < 2 ^ 32 }
    ensures fork { result ≡ fork_of_raw bytes.now fork }
    ensures inside { IfOk result (λ fork. fork.start + fork.length ≤ length bytes.now) }
{
    match fork {
        Fork::Data => Err(ForkError::Forkless(Wrapping::Raw, fork)),
        Fork::Resource => Ok(ForkPlace {
            wrapping: Wrapping::Raw,
            start: 0,
            length: bytes.len() as u32,
        }),
    }
}

/// A fork of a file that is no raw one.
fn wrapped_fork(bytes: &[u8], fork: Fork) -> Result<ForkPlace, ForkError>
    requires { length bytes.now < 2 ^ 32 }
    ensures fork { result ≡ fork_of_wrapped bytes.now fork }
    ensures inside { IfOk result (λ fork. fork.start + fork.length ≤ length bytes.now) }
{
    if bytes.len() < 16 {
        return Err(ForkError::Unknown);
    }
    match apple_wrapping(long_at(bytes, 0)) {
        Some(wrapping) => apple_fork(bytes, wrapping, fork),
        None => binary_or_refusal(bytes, fork),
    }
}

/// The wrapping with this number in the first four bytes.
fn apple_wrapping(magic: u32) -> Option<Wrapping>
    ensures { result ≡ wrapping_of_magic magic }
{
    match magic {
        0x0005_1600 => Some(Wrapping::AppleSingle),
        0x0005_1607 => Some(Wrapping::AppleDouble),
        _ => None,
    }
}

/// A fork of a file that is neither a raw one nor AppleSingle or AppleDouble.
fn binary_or_refusal(bytes: &[u8], fork: Fork) -> Result<ForkPlace, ForkError>
    requires { length bytes.now < 2 ^ 32 }
    ensures fork { result ≡ binary_or_refused bytes.now fork }
    ensures inside { IfOk result (λ fork. fork.start + fork.length ≤ length bytes.now) }
{
    match binary_wrapping(bytes) {
        Some(wrapping) => binary_fork(bytes, wrapping, fork),
        None if is_header(bytes) => Err(ForkError::Header),
        None => Err(ForkError::Unknown),
    }
}

/// The fork of so many bytes from a place on, where it lies in the file.
pub fn inside(
    bytes: &[u8],
    wrapping: Wrapping,
    fork: Fork,
    start: u64,
    count: u32,
) -> Result<ForkPlace, ForkError>
    requires short { length bytes.now < 2 ^ 32 }
    requires near { start < 2 ^ 40 }
    ensures fork { result ≡ inside_of bytes.now wrapping fork start count }
    ensures inside { IfOk result (λ fork. fork.start + fork.length ≤ length bytes.now) }
{
    if count == 0 {
        return Err(ForkError::Forkless(wrapping, fork));
    }
    if (bytes.len() as u64) < start + u64::from(count) {
        return Err(ForkError::Cut(wrapping));
    }
    Ok(ForkPlace {
        wrapping,
        start: start as u32,
        length: count,
    })
}
