//! The segments of a fork: its CODEs above 0.
ghost use Rattle.std.specs.Prelude.{◌≡◌, ℕ, ◌+◌, ◌^◌, ◌≤◌, ◌<◌, [], false, None, length, option_map, IfSome, IfOk};
ghost use Rattle.mix_bits.specs.declared.file.TheConstants.{MOST_BYTES};
ghost use Rattle.std.specs.Result.{result_err};
ghost use Rattle.std.specs.Option.{option_map_or};
ghost use Rattle.mix_bits.specs.SearchOperator.{◌or◌};
ghost use Rattle.mix_bits.specs.Search.{any_below, least, refused};
ghost use Rattle.mix_load.specs.inner.ForkImage.{segments_refusal};
ghost use Rattle.mix_bits.specs.Multiples.{rounded_up};
ghost use Rattle.mix_load.specs.Pieces.{with_pieces};
ghost use Rattle.mix_load.specs.Segments.{added_segment, code_at, is_far_code, is_short_code, segment_at, segment_pieces, segments_end, with_segment};
ghost use Rattle.mix_load.specs.SegmentsClauses.{is_far, is_segment, is_short, segment_places};

use crate::error::LoadError;
use big_memory::Ram;
use mix_bits::{round_up, word_at};
use rsrc_fork::Fork;
use std::alloc::{AllocError, Global};

/// 'CODE'.
const CODE: u32 = 0x434F_4445;

/// How many ids from 0 on there are up to that of the last CODE.
pub fn code_count(fork: &Fork) -> u16
    ensures few { result ≤ 32768 }
    ensures all { (id : ℕ) → result ≤ id → code_at fork.now id ≡ None }
{
    fork.ids_end(CODE)
}

/// The CODE with this id.
pub fn code_at<'a>(fork: &Fork<'a>, id: u16) -> Option<&'a [u8]>
    requires { id < 32768 }
    ensures is { option_map (λ code. code.now) result ≡ code_at fork.now id }
    ensures small { IfSome result (λ code. length code.now ≤ MOST_BYTES) }
{
    fork.get(CODE, id as i16)
}

/// The segment with this number, a word that is read as a signed id.
pub fn segment_at<'a>(fork: &Fork<'a>, id: u16) -> Option<&'a [u8]>
    ensures is { option_map (λ code. code.now) result ≡ segment_at fork.now id }
    ensures small { IfSome result (λ code. length code.now ≤ MOST_BYTES) }
{
    if id == 0 || 32768 <= id {
        return None;
    }
    code_at(fork, id)
}

/// What a walk over the segments finds.
#[derive(Clone, Copy)]
struct Survey {
    /// There is a segment.
    some: bool,
    /// The first one of the far model.
    far: Option<u16>,
    /// One lacks a whole header.
    short: bool,
}

/// Whether a segment is of the far model.
fn is_far(segment: Option<&[u8]>) -> bool
    ensures { result ≡ option_map_or is_far_code (option_map (λ code. code.now) segment.entry) false }
{
    match segment {
        Some(code) => 4 <= code.len() && word_at(code, 0) == 0xFFFF,
        None => false,
    }
}

/// Whether a segment lacks a whole header.
fn is_short(segment: Option<&[u8]>) -> bool
    ensures { result ≡ option_map_or is_short_code (option_map (λ code. code.now) segment.entry) false }
{
    match segment {
        Some(code) => code.len() < 4,
        None => false,
    }
}

/// The first segment of the far model, once one more id is looked at.
fn first_far(far: Option<u16>, id: u16, here: bool) -> Option<u16>
    requires { IfSome far (λ first. first < id) }
    ensures is { result ≡ (far or refused here id) }
    ensures below { IfSome result (λ first. first < id + 1) }
{
    match far {
        Some(first) => Some(first),
        None if here => Some(id),
        None => None,
    }
}

/// Looks at the segments below a count of ids, in one walk.
fn walk_segments(fork: &Fork, ids: u16) -> Survey
    ensures some { result.some ≡ any_below (is_segment fork.now) ids }
    ensures far { result.far ≡ least (is_far fork.now) ids }
    ensures below { IfSome result.far (λ id. id < ids) }
    ensures short { result.short ≡ any_below (is_short fork.now) ids }
{
    let mut found = Survey {
        some: false,
        far: None,
        short: false,
    };
    for id in 0..ids {
        let segment = segment_at(fork, id);
        found.some = found.some | segment.is_some();
        found.far = first_far(found.far, id, is_far(segment));
        found.short = found.short | is_short(segment);
    }
    found
}

/// Tests the segments below a count of ids.
pub fn test_segments(fork: &Fork, ids: u16) -> Result<(), LoadError>
    requires { ids ≤ 32768 }
    ensures { result_err result ≡ segments_refusal ids fork.now }
{
    let found = walk_segments(fork, ids);
    if !found.some {
        return Err(LoadError::NoCode(1));
    }
    if let Some(id) = found.far {
        return Err(LoadError::Far(id as i16));
    }
    if found.short {
        return Err(LoadError::JumpTable(0));
    }
    Ok(())
}

/// Where the segments end that begin behind `start`.
pub fn segments_end(fork: &Fork, start: u64, ids: u16) -> u64
    requires { start ≤ 2 ^ 34 }
    ensures is { result ≡ segments_end fork.now start ids }
    ensures few { result ≤ 2 ^ 42 }
{
    let mut end = start;
    for id in 0..ids {
        if let Some(code) = segment_at(fork, id) {
            end = round_up(end, 16) + code.len() as u64;
        }
    }
    end
}

/// Puts a segment, if there is one, behind an end, and gives the end behind it.
fn put_segment(ram: &mut Ram, end: u64, segment: Option<&[u8]>) -> u64
    requires fits { with_segment end (option_map (λ code. code.now) segment) ≤ length ram.old.bytes }
    requires small { length ram.old.bytes ≤ 2 ^ 24 }
    ensures end { result ≡ with_segment end (option_map (λ code. code.now) segment.entry) }
    ensures memory { ram.new ≡ with_pieces (added_segment (rounded_up 16 end) (option_map (λ code. code.now) segment.entry) []) ram.old }
    ensures len { length ram.new.bytes ≡ length ram.old.bytes }
{
    let Some(code) = segment else {
        return end;
    };
    let place = round_up(end, 16);
    ram.fix(place as u32, code);
    place + code.len() as u64
}

/// Puts the segments behind `start`, and says for each id where its segment stands.
pub fn put_segments(
    alloc: Global,
    ram: &mut Ram,
    fork: &Fork,
    start: u64,
    ids: u16,
) -> Result<Vec<u32>, AllocError>
    requires fits { rounded_up 16 (segments_end fork.now start ids) ≤ length ram.old.bytes }
    requires small { length ram.old.bytes ≤ 2 ^ 24 }
    ensures places { IfOk result (λ places. places.items ≡ segment_places fork.now start ids) }
    ensures memory { IfOk result (λ _. ram.new ≡ with_pieces (segment_pieces fork.now start ids) ram.old) }
    ensures len { length ram.new.bytes ≡ length ram.old.bytes }
{
    let mut places = Vec::new(alloc);
    let mut end = start;
    for id in 0..ids {
        let place = round_up(end, 16) as u32;
        places.push(place)?;
        end = put_segment(ram, end, segment_at(fork, id));
    }
    Ok(places)
}
