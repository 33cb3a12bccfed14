// MacBinary: a header of 128 bytes, a second header, the data fork and the resource fork, each filled up to a multiple
// of 128.
ghost use Rattle.std.specs.Prelude.{◌≡◌, ◌==◌, ◌+◌, ◌^◌, ◌<◌, ◌≤◌, IfOk, IfSome, length};
ghost use Rattle.std.specs.List.{list_all};
ghost use Rattle.wrapped_forks.specs.Forks.{binary_data as data_in_binary, binary_fork as fork_in_binary, binary_wrapping as wrapping_of_binary, has_sum as has_right_sum, is_first as is_first_version, is_header as is_binary_header, level_of};

use crate::fork::Fork;
use crate::wrapping::{ForkError, ForkPlace, Wrapping, inside};
use crc16::checksum;
use mix_bits::{long_at, round_up, word_at};

/// `mBIN`, by which MacBinary III is known.
const SIGNATURE: u32 = 0x6D42_494E;

/// The greatest length of a fork in MacBinary I.
const LONGEST: u32 = 0x007F_FFFF;

/// The version of MacBinary that a file is.
pub fn binary_wrapping(bytes: &[u8]) -> Option<Wrapping>
    ensures wrapping { result ≡ wrapping_of_binary bytes.now }
    ensures long { IfSome result (λ wrapping. 128 ≤ length bytes.now) }
{
    if is_header(bytes) { level(bytes) } else { None }
}

/// Whether a file could be MacBinary: bytes 0 and 74 are zero, and a name has 1 to 63 bytes.
pub fn is_header(bytes: &[u8]) -> bool
    ensures { result ≡ is_binary_header bytes.now }
{
    128 <= bytes.len() && bytes[0] == 0 && bytes[74] == 0 && 1 <= bytes[1] && bytes[1] <= 63
}

/// The version of MacBinary by a header.
fn level(bytes: &[u8]) -> Option<Wrapping>
    requires { 128 ≤ length bytes.now }
    ensures { result ≡ level_of bytes.now }
{
    if long_at(bytes, 102) == SIGNATURE {
        Some(Wrapping::MacBinary3)
    } else if has_sum(bytes) {
        Some(Wrapping::MacBinary2)
    } else if is_first(bytes) {
        Some(Wrapping::MacBinary)
    } else {
        None
    }
}

/// Whether the check sum of the bytes before it stands at 124.
fn has_sum(bytes: &[u8]) -> bool
    requires { 128 ≤ length bytes.now }
    ensures { result ≡ has_right_sum bytes.now }
{
    let summed = &bytes[..124];
    word_at(bytes, 124) == checksum(summed)
}

/// Whether a header can be of MacBinary I: the bytes that it leaves are zero, and both forks have a length that it allows.
fn is_first(bytes: &[u8]) -> bool
    requires { 128 ≤ length bytes.now }
    ensures { result ≡ is_first_version bytes.now }
{
    bytes[82] == 0
        && are_zeros(&bytes[101..126])
        && long_at(bytes, 83) <= LONGEST
        && long_at(bytes, 87) <= LONGEST
}

fn are_zeros(bytes: &[u8]) -> bool
    ensures { result ≡ list_all (λ byte. byte == 0) bytes.now }
{
    bytes.iter().all(|byte| *byte == 0)
}

/// A fork of a MacBinary file.
pub fn binary_fork(bytes: &[u8], wrapping: Wrapping, fork: Fork) -> Result<ForkPlace, ForkError>
    requires long { 128 ≤ length bytes.now }
    requires short { length bytes.now < 2 ^ 32 }
    ensures fork { result ≡ fork_in_binary bytes.now wrapping fork }
    ensures inside { IfOk result (λ fork. fork.start + fork.length ≤ length bytes.now) }
{
    let data_bytes = long_at(bytes, 83);
    match fork {
        Fork::Data => inside(bytes, wrapping, fork, binary_data(bytes), data_bytes),
        Fork::Resource => inside(
            bytes,
            wrapping,
            fork,
            binary_data(bytes) + round_up(u64::from(data_bytes), 128),
            long_at(bytes, 87),
        ),
    }
}

/// Where the data fork begins.
fn binary_data(bytes: &[u8]) -> u64
    requires { 128 ≤ length bytes.now }
    ensures place { result ≡ data_in_binary bytes.now }
    ensures near { result < 2 ^ 20 }
{
    128 + round_up(u64::from(word_at(bytes, 120)), 128)
}
