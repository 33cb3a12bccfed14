// Routine descriptors in the bytes of a file.
ghost use Rattle.std.specs.Prelude.{◌≡◌, ◌+◌, ◌*◌, ◌^◌, ◌≤◌, IsTrue, is_ok, is_some, length};
ghost use Rattle.proc_info.specs.Signature.{signature_of};
ghost use Rattle.routine_desc.specs.Layout.{are_good_flags, code_at};
ghost use Rattle.mix_bits.specs.Fields.{word_at as word_in};
ghost use Rattle.look_scan.specs.Descriptors.{is_descriptor as is_descriptor_at, is_header as is_header_at, is_record as is_record_at, record_place as place_of_record};

use mix_bits::{long_at, word_at};
use proc_info::read;
use routine_desc::MIXED_MODE_MAGIC;

/// A record: how a routine is called, the code of its set, and where it is.
#[derive(Clone, Copy)]
pub struct Record {
    pub info: u32,
    pub code: u8,
    pub flags: u16,
    pub target: u32,
}

/// Whether a descriptor stands at a place.
pub fn is_descriptor(bytes: &[u8], at: u32) -> bool
    requires header { at + 32 ≤ length bytes.now }
    requires small { length bytes.now ≤ 2 ^ 24 }
    ensures is { result ≡ is_descriptor_at bytes.now at }
    ensures whole { IsTrue result → place_of_record at (word_in bytes.now (at + 10) + 1) ≤ length bytes.now }
{
    is_header(bytes, at)
        && record_place(at, u32::from(word_at(bytes, at + 10)) + 1) as usize <= bytes.len()
        && is_record(bytes, at + 12)
}

fn is_header(bytes: &[u8], at: u32) -> bool
    requires header { at + 32 ≤ length bytes.now }
    requires small { length bytes.now ≤ 2 ^ 24 }
    ensures { result ≡ is_header_at bytes.now at }
{
    let place = at as usize;
    u32::from(word_at(bytes, at)) == MIXED_MODE_MAGIC
        && bytes[place + 2] == 7
        && long_at(bytes, at + 4) == 0
        && bytes[place + 8] == 0
        && word_at(bytes, at + 10) <= 63
}

fn is_record(bytes: &[u8], at: u32) -> bool
    requires whole { at + 20 ≤ length bytes.now }
    requires small { length bytes.now ≤ 2 ^ 24 }
    ensures { result ≡ is_record_at bytes.now at }
{
    let place = at as usize;
    has_signature(long_at(bytes, at))
        && bytes[place + 4] == 0
        && is_set(bytes[place + 5])
        && has_good_flags(word_at(bytes, at + 6))
        && long_at(bytes, at + 12) == 0
}

fn has_signature(info: u32) -> bool
    ensures { result ≡ is_ok (signature_of info) }
{
    read(info).is_ok()
}

/// Whether a code is one of a set: 68K, PowerPC, or 68K code of the Code Fragment Manager.
fn is_set(code: u8) -> bool
    ensures { result ≡ is_some (code_at code) }
{
    code == 0 || code == 1 || code == 16
}

/// Whether a record neither needs preparing nor holds an index, and has no unknown flag.
fn has_good_flags(flags: u16) -> bool
    ensures { result ≡ are_good_flags flags }
{
    flags < 0x20 && flags / 2 % 2 == 0
}

/// Where a record stands of the descriptor at a place.
pub fn record_place(at: u32, k: u32) -> u32
    requires near { at ≤ 2 ^ 24 }
    requires few { k ≤ 2 ^ 16 }
    ensures { result ≡ place_of_record at k }
{
    at + 12 + 20 * k
}

/// The record at a place.
pub fn record_at(bytes: &[u8], at: u32) -> Record
    requires whole { at + 20 ≤ length bytes.now }
    requires small { length bytes.now ≤ 2 ^ 24 }
{
    Record {
        info: long_at(bytes, at),
        code: bytes[at as usize + 5],
        flags: word_at(bytes, at + 6),
        target: long_at(bytes, at + 8),
    }
}
