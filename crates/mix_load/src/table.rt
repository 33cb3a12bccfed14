//! The jump table, which stands in CODE 0 and is loaded into the world above A5.
ghost use Rattle.std.specs.Prelude.{◌≡◌, ◌+◌, ◌*◌, ◌^◌, ◌≤◌, ◌<◌, length, IfOk, IfSome, OnOk};
ghost use Rattle.mix_bits.specs.declared.file.TheConstants.{MOST_BYTES};
ghost use Rattle.std.specs.Result.{result_err};
ghost use Rattle.mix_bits.specs.Search.{least};
ghost use Rattle.mix_load.specs.inner.ForkImage.{table_refusal};
ghost use Rattle.mix_load.specs.Pieces.{with_pieces};
ghost use Rattle.mix_load.specs.JumpTable.{HasTable};
ghost use Rattle.mix_load.specs.Segments.{entry_count, entry_place, header_of, is_bad_entry, is_unloaded, jump_target, offset_in, reaches, segment_at, segment_in, table_pieces, table_start};

use crate::error::LoadError;
use crate::header::{CodeHeader, table_header, table_start};
use crate::segments::segment_at;
use big_memory::Ram;
use mix_bits::word_at;
use rsrc_fork::Fork;

/// The words of an entry whose segment is not loaded: $3F3C pushes the segment's number, and $A9F0 is the
/// trap LoadSeg.
const PUSH: u16 = 0x3F3C;

const LOAD_SEG: u16 = 0xA9F0;

/// A jump to an address, in an entry whose segment is loaded.
const JUMP: u32 = 0x4EF9;

/// The place of an entry in CODE 0.
fn entry_place(i: u32) -> u32
    requires { i < 2 ^ 24 }
    ensures { result ≡ entry_place i }
{
    16 + 8 * i
}

/// The offset that an entry names, behind the segment's header.
pub fn offset_in(code0: &[u8], i: u32) -> u16
    requires within { entry_place i + 8 ≤ length code0.now }
    requires few { i < 2 ^ 24 }
    ensures { result ≡ offset_in code0.now i }
{
    word_at(code0, entry_place(i))
}

/// The number of the segment that an entry names.
pub fn segment_in(code0: &[u8], i: u32) -> u16
    requires within { entry_place i + 8 ≤ length code0.now }
    requires few { i < 2 ^ 24 }
    ensures { result ≡ segment_in code0.now i }
{
    word_at(code0, entry_place(i) + 4)
}

/// Whether an entry's words say that its segment is not loaded.
fn is_unloaded(code0: &[u8], i: u32) -> bool
    requires within { entry_place i + 8 ≤ length code0.now }
    requires few { i < 2 ^ 24 }
    ensures { result ≡ is_unloaded code0.now i }
{
    let place = entry_place(i);
    word_at(code0, place + 2) == PUSH && word_at(code0, place + 6) == LOAD_SEG
}

/// Whether an offset behind a segment's header reaches into the segment or to its end.
fn reaches(fork: &Fork, segment: u16, offset: u16) -> bool
    ensures { result ≡ reaches offset (segment_at fork.now segment) }
{
    match segment_at(fork, segment) {
        Some(code) => 4 + offset as usize <= code.len(),
        None => false,
    }
}

/// Whether an entry cannot be loaded.
pub fn is_bad_entry(fork: &Fork, code0: &[u8], i: u32) -> bool
    requires within { entry_place i + 8 ≤ length code0.now }
    requires few { i < 2 ^ 24 }
    ensures { result ≡ is_bad_entry fork.now code0.now i }
{
    let (segment, offset) = (segment_in(code0, i), offset_in(code0, i));
    !(is_unloaded(code0, i) && reaches(fork, segment, offset))
}

/// The first entry that cannot be loaded.
#[tactic(auto, using(mix_bits::proofs::Searches::least_at))]
fn bad_entry(fork: &Fork, code0: &[u8], count: u32) -> Option<u32>
    requires within { entry_place count ≤ length code0.now }
    requires few { count < 2 ^ 24 }
    ensures is { result ≡ least (is_bad_entry fork.now code0.now) count }
    ensures below { IfSome result (λ i. i < count) }
{
    for i in 0..count {
        if is_bad_entry(fork, code0, i) {
            return Some(i);
        }
    }
    None
}

/// Tests the table of CODE 0 and its entries, and gives the longs before it.
pub fn test_table(fork: &Fork, code0: &[u8]) -> Result<CodeHeader, LoadError>
    requires { length code0.now ≤ MOST_BYTES }
    ensures refusal { result_err result ≡ table_refusal fork.now code0.now }
    ensures header { IfOk result (λ h. h ≡ header_of code0.now) }
    ensures table { OnOk result (HasTable code0.now) }
{
    let Some(header) = table_header(code0) else {
        return Err(LoadError::JumpTable(0));
    };
    match bad_entry(fork, code0, header.table_len / 8) {
        Some(i) => Err(LoadError::JumpTable(entry_place(i))),
        None => Ok(header),
    }
}

/// Where an entry jumps to, once its segment is loaded.
fn jump_target(places: &[u32], code0: &[u8], i: u32) -> u32
    requires within { entry_place i + 8 ≤ length code0.now }
    requires few { i < 2 ^ 24 }
    ensures { result ≡ jump_target places.now code0.now i }
{
    let segment = segment_in(code0, i) as usize;
    let place = if segment < places.len() {
        places[segment]
    } else {
        0
    };
    place.wrapping_add(4 + offset_in(code0, i) as u32)
}

/// Puts the first entries of the table, whose segments are loaded at these places.
fn put_entries(ram: &mut Ram, table: u32, code0: &[u8], places: &[u32], count: u32)
    requires within { entry_place count ≤ length code0.now }
    requires few { count < 2 ^ 24 }
    requires room { table + 8 * count ≤ length ram.old.bytes }
    requires small { length ram.old.bytes ≤ 2 ^ 24 }
    ensures memory { ram.new ≡ with_pieces (table_pieces places.now table code0.now count) ram.old }
    ensures len { length ram.new.bytes ≡ length ram.old.bytes }
{
    for i in 0..count {
        let entry = table + 8 * i;
        ram.fix_long(entry, segment_in(code0, i) as u32 * 65536 + JUMP);
        ram.fix_long(entry + 4, jump_target(places, code0, i));
    }
}

/// Puts the jump table of CODE 0, which has these longs, and whose segments are loaded at these places.
pub fn put_table(ram: &mut Ram, code0: &[u8], header: CodeHeader, places: &[u32])
    requires table { HasTable code0.now }
    requires header { header ≡ header_of code0.now }
    requires brief { length code0.now ≤ MOST_BYTES }
    requires room { table_start header + header.table_len ≤ length ram.old.bytes }
    requires small { length ram.old.bytes ≤ 2 ^ 24 }
    ensures memory { ram.new ≡ with_pieces (table_pieces places.now (table_start (header_of code0.now)) code0.now (entry_count code0.now)) ram.old }
    ensures len { length ram.new.bytes ≡ length ram.old.bytes }
{
    let table = table_start(header) as u32;
    put_entries(ram, table, code0, places, header.table_len / 8);
}
