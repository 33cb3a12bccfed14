// The header and the forks in the bytes of a file.
ghost use Rattle.std.specs.Prelude.{◌≡◌, ◌+◌, ◌^◌, ◌<◌, ◌≤◌, length};
ghost use Rattle.std.specs.Option.{IfNone};
ghost use Rattle.binhex.specs.Parts.{data_length, data_start, forks_refusal, header_length, refusal_at, refusal_of, resource_length, resource_start};
ghost use Rattle.binhex.specs.inner.Within.{Within};

use crate::error::{BinHexError, Part};
use crate::expanded::{Expanded, Place};

/// Where the header lies.
pub fn header(bytes: &Expanded) -> Place
    requires { 1 ≤ length bytes.now }
    ensures start { result.start ≡ 0 }
    ensures length { result.length ≡ header_length bytes.now }
{
    Place {
        start: 0,
        length: u32::from(bytes.first()) + 20,
    }
}

/// Where the data fork lies.
pub fn data_fork(bytes: &Expanded) -> Place
    requires whole { header_length bytes.now ≤ length bytes.now }
    ensures start { result.start ≡ data_start bytes.now }
    ensures length { result.length ≡ data_length bytes.now }
    ensures near { result.start < 300 }
{
    let length = u32::from(bytes.first()) + 20;
    Place {
        start: u64::from(length) + 2,
        length: bytes.long_at(length - 8),
    }
}

/// Where the resource fork lies.
pub fn resource_fork(bytes: &Expanded) -> Place
    requires whole { header_length bytes.now ≤ length bytes.now }
    ensures start { result.start ≡ resource_start bytes.now }
    ensures length { result.length ≡ resource_length bytes.now }
    ensures near { result.start < 2 ^ 33 }
{
    let data = data_fork(bytes);
    Place {
        start: data.start + u64::from(data.length) + 2,
        length: bytes.long_at(u32::from(bytes.first()) + 16),
    }
}

/// Why bytes are no file with a header and two forks whose check sums are right, if they are none.
pub fn refusal(bytes: &Expanded) -> Option<BinHexError>
    ensures first { result ≡ refusal_of bytes.now }
    ensures inside { IfNone result (Within bytes.now) }
{
    if bytes.len() == 0 {
        return Some(BinHexError::Cut(Part::Header));
    }
    match part_refusal(bytes, Part::Header, header(bytes)) {
        Some(error) => Some(error),
        None => fork_refusal(bytes),
    }
}

/// The same of both forks behind a header that is right.
fn fork_refusal(bytes: &Expanded) -> Option<BinHexError>
    requires whole { header_length bytes.now ≤ length bytes.now }
    ensures first { result ≡ forks_refusal bytes.now }
    ensures inside { IfNone result (Within bytes.now) }
{
    match part_refusal(bytes, Part::DataFork, data_fork(bytes)) {
        Some(error) => Some(error),
        None => part_refusal(bytes, Part::ResourceFork, resource_fork(bytes)),
    }
}

/// Whether a part is cut, or has another check sum behind it than its own.
fn part_refusal(bytes: &Expanded, part: Part, place: Place) -> Option<BinHexError>
    requires near { place.start < 2 ^ 34 }
    ensures first { result ≡ refusal_at bytes.now part place.start (place.start + place.length) }
    ensures inside { IfNone result (place.start + place.length + 2 ≤ length bytes.now) }
{
    let end = place.start + u64::from(place.length);
    if u64::from(bytes.len()) < end + 2 {
        Some(BinHexError::Cut(part))
    } else if bytes.checksum(place) == bytes.word_at(end as u32) {
        None
    } else {
        Some(BinHexError::Sum(part))
    }
}
