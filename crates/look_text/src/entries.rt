// The jump table of a fork, which stands in CODE 0.
ghost use Rattle.std.specs.Prelude.{◌≡◌, ◌+◌, ◌*◌, ◌^◌, ◌<◌, ◌≤◌, ◌++◌, OnOk, length, slice_index};
ghost use Rattle.mix_load.specs.Segments.{entry_place, header_of, jump_target as target_of};
ghost use Rattle.look_text.specs.Forks.{entries_text, entry_front, entry_line, target_text};

use crate::line::{Piece, add_line};
use crate::pieces::add;
use mix_bits::NoMemory;
use mix_load::{a5_of, is_bad_entry, offset_in, read_header, segment_in};
use rsrc_fork::Fork;

/// Appends the lines of the first entries, whose segments stand at these places.
#[tactic(auto, using(std::proofs::Common::append_assoc))]
pub fn add_entries(
    text: &mut Vec<u8>,
    fork: &Fork,
    code0: &[u8],
    places: &[u64],
    count: u32,
) -> Result<(), NoMemory>
    requires longs { 16 ≤ length code0.now }
    requires within { entry_place count ≤ length code0.now }
    requires few { count < 2 ^ 24 }
    requires above { (header_of code0.now).table_offset + 8 * count < 2 ^ 32 }
    ensures { OnOk result (text.new.items ≡ text.old.items ++ entries_text fork.now places.now code0.now count) }
{
    for i in 0..count {
        add_entry(text, fork, code0, places, i)?;
    }
    Ok(())
}

/// Appends the line of an entry.
#[tactic(auto, using(std::proofs::Common::append_assoc), unfolding(crate::specs::Forks::entry_line))]
fn add_entry(
    text: &mut Vec<u8>,
    fork: &Fork,
    code0: &[u8],
    places: &[u64],
    i: u32,
) -> Result<(), NoMemory>
    requires longs { 16 ≤ length code0.now }
    requires within { entry_place i + 8 ≤ length code0.now }
    requires few { i < 2 ^ 24 }
    requires above { (header_of code0.now).table_offset + 8 * i + 8 < 2 ^ 32 }
    ensures { OnOk result (text.new.items ≡ text.old.items ++ entry_line fork.now places.now code0.now i) }
{
    let h = read_header(code0);
    let offset = h.table_offset + 8 * i + 2;
    let at = a5_of(h) + u64::from(offset);
    let segment = u32::from(segment_in(code0, i));
    let inside = u32::from(offset_in(code0, i));
    add_front(text, i, at, offset, segment, inside)?;
    add_target(
        text,
        is_bad_entry(fork, code0, i),
        jump_target(places, code0, i),
    )
}

#[tactic(auto, unfolding(crate::specs::Forks::entry_front))]
fn add_front(
    text: &mut Vec<u8>,
    i: u32,
    at: u64,
    offset: u32,
    segment: u32,
    inside: u32,
) -> Result<(), NoMemory>
    ensures { OnOk result (text.new.items ≡ text.old.items ++ entry_front i at offset segment inside) }
{
    add_line(
        text,
        &[
            Piece::Text("entry "),
            Piece::Number(i),
            Piece::Text(": at "),
            Piece::Address(at),
            Piece::Text(", $"),
            Piece::Word(offset),
            Piece::Text("(a5), CODE "),
            Piece::Number(segment),
            Piece::Text(" + $"),
            Piece::Word(inside),
        ],
    )
}

#[tactic(auto, unfolding(crate::specs::Forks::target_text))]
fn add_target(text: &mut Vec<u8>, bad: bool, target: u32) -> Result<(), NoMemory>
    ensures { OnOk result (text.new.items ≡ text.old.items ++ target_text bad target) }
{
    if bad {
        add(text, ", which is not there\n")
    } else {
        add_line(
            text,
            &[Piece::Text(", to "), Piece::Long(target), Piece::Text("\n")],
        )
    }
}

/// Where an entry jumps to, once its segment is loaded.
fn jump_target(places: &[u64], code0: &[u8], i: u32) -> u32
    requires within { entry_place i + 8 ≤ length code0.now }
    requires few { i < 2 ^ 24 }
    ensures { result ≡ target_of places.now code0.now i }
{
    let place = place_at(places, segment_in(code0, i)) % 0x1_0000_0000;
    ((place + 4 + u64::from(offset_in(code0, i))) % 0x1_0000_0000) as u32
}

/// Where a segment stands, 0 where no segment can have its number.
fn place_at(places: &[u64], segment: u16) -> u64
    ensures { result ≡ slice_index places.now segment }
{
    let segment = segment as usize;
    if segment < places.len() {
        places[segment]
    } else {
        0
    }
}
