// AppleSingle and AppleDouble: a header of 26 bytes, and an entry of twelve bytes for each part of the file.
ghost use Rattle.std.specs.Prelude.{◌≡◌, ◌+◌, ◌*◌, ◌^◌, ◌<◌, ◌≤◌, IfOk, IfSome, length};
ghost use Rattle.std.specs.Option.{option_or};
ghost use Rattle.wrapped_forks.specs.Forks.{apple_fork as fork_in_apple, entry_kind as kind_of_entry, entry_place as place_of_entry, fork_entry as entry_of_fork, is_fork as names_fork, is_version as is_known_version, listed_fork, named};

use crate::fork::Fork;
use crate::wrapping::{ForkError, ForkPlace, Wrapping, inside};
use mix_bits::{long_at, word_at};

/// A fork of a file with the magic number of AppleSingle or AppleDouble.
pub fn apple_fork(bytes: &[u8], wrapping: Wrapping, fork: Fork) -> Result<ForkPlace, ForkError>
    requires { length bytes.now < 2 ^ 32 }
    ensures fork { result ≡ fork_in_apple bytes.now wrapping fork }
    ensures inside { IfOk result (λ fork. fork.start + fork.length ≤ length bytes.now) }
{
    if bytes.len() < 26 {
        return Err(ForkError::Cut(wrapping));
    }
    if !is_version(long_at(bytes, 4)) {
        return Err(ForkError::Version(wrapping));
    }
    let count = word_at(bytes, 24);
    if (bytes.len() as u64) < u64::from(entry_place(count)) {
        return Err(ForkError::Cut(wrapping));
    }
    listed(bytes, wrapping, fork, count)
}

/// Whether a version is 1 or 2.
fn is_version(version: u32) -> bool
    ensures { result ≡ is_known_version version }
{
    version == 0x0001_0000 || version == 0x0002_0000
}

/// The place of the entry with this number.
fn entry_place(k: u16) -> u32
    ensures place { result ≡ place_of_entry k }
    ensures near { result < 2 ^ 20 }
{
    26 + 12 * u32::from(k)
}

/// The fork that one of the entries names.
fn listed(bytes: &[u8], wrapping: Wrapping, fork: Fork, count: u16) -> Result<ForkPlace, ForkError>
    requires short { length bytes.now < 2 ^ 32 }
    requires whole { place_of_entry count ≤ length bytes.now }
    ensures fork { result ≡ listed_fork bytes.now wrapping fork count }
    ensures inside { IfOk result (λ fork. fork.start + fork.length ≤ length bytes.now) }
{
    match fork_entry(bytes, fork, count) {
        Some(k) => {
            let place = entry_place(k);
            let start = long_at(bytes, place + 4);
            inside(
                bytes,
                wrapping,
                fork,
                u64::from(start),
                long_at(bytes, place + 8),
            )
        }
        None => Err(ForkError::Forkless(wrapping, fork)),
    }
}

/// The number that an entry has which is of a fork.
fn entry_kind(fork: Fork) -> u32
    ensures { result ≡ kind_of_entry fork }
{
    match fork {
        Fork::Data => 1,
        Fork::Resource => 2,
    }
}

/// The first entry of a fork.
fn fork_entry(bytes: &[u8], fork: Fork, count: u16) -> Option<u16>
    requires { place_of_entry count ≤ length bytes.now }
    ensures entry { result ≡ entry_of_fork bytes.now fork count }
    ensures inside { IfSome result (λ k. k < count) }
{
    let mut found = None;
    for k in 0..count {
        found = first(found, bytes, fork, k);
    }
    found
}

/// The entry that was found, or this one where it is the fork's.
fn first(found: Option<u16>, bytes: &[u8], fork: Fork, k: u16) -> Option<u16>
    requires { place_of_entry k + 12 ≤ length bytes.now }
    ensures { result ≡ option_or found (named k (names_fork bytes.now fork k)) }
{
    match found {
        Some(j) => Some(j),
        None if long_at(bytes, entry_place(k)) == entry_kind(fork) => Some(k),
        None => None,
    }
}
