// Routine descriptors as text.
ghost use Rattle.std.specs.Prelude.{◌+◌, ◌*◌, ◌^◌, ◌≤◌, length};

use crate::descriptor::{Record, is_descriptor, record_at, record_place};
use crate::place::{Part, Place, add_place};
use look_text::{Piece, add, add_bytes, add_line, info_text};
use mix_bits::{NoMemory, word_at};
use std::alloc::Global;

/// How many descriptors are told. A program with more makes them where it runs.
const MOST: u32 = 64;

/// Appends the descriptors at even places of a part, and gives how many there were with those before.
pub fn add_descriptors(
    alloc: Global,
    text: &mut Vec<u8>,
    part: Part,
    bytes: &[u8],
    before: u32,
) -> Result<u32, NoMemory>
    requires { length bytes.now ≤ 2 ^ 24 }
{
    let mut found = before;
    let places = (bytes.len().saturating_sub(30) / 2) as u32;
    for k in 0..places {
        let offset = 2 * k;
        if is_descriptor(bytes, offset) {
            found = found.saturating_add(1);
            if found <= MOST {
                add_descriptor(alloc, text, Place { part, offset }, bytes)?;
            }
        }
    }
    Ok(found)
}

/// Appends the place of a descriptor, and its records.
fn add_descriptor(
    alloc: Global,
    text: &mut Vec<u8>,
    place: Place,
    bytes: &[u8],
) -> Result<(), NoMemory>
    requires header { place.offset + 32 ≤ length bytes.now }
    requires small { length bytes.now ≤ 2 ^ 24 }
{
    add(text, "routine descriptor at ")?;
    add_place(text, place)?;
    add(text, ":\n")?;
    let last = u32::from(word_at(bytes, place.offset + 10));
    for k in 0..last + 1 {
        let at = record_place(place.offset, k);
        if at as usize + 20 <= bytes.len() {
            add_record(alloc, text, record_at(bytes, at))?;
        }
    }
    Ok(())
}

/// Appends a record: the set and the place of its routine, and what its procInfo says.
fn add_record(alloc: Global, text: &mut Vec<u8>, record: Record) -> Result<(), NoMemory> {
    add_line(
        text,
        &[
            Piece::Text(match record.code {
                1 => "ppc ",
                16 => "CFM-68K ",
                _ => "68k ",
            }),
            Piece::Long(record.target),
            Piece::Text(if record.flags % 2 == 1 {
                " from the descriptor on, procInfo "
            } else {
                ", procInfo "
            }),
        ],
    )?;
    add_bytes(text, &info_text(alloc, record.info)?)
}

/// Appends how many descriptors were not told.
pub fn add_untold(text: &mut Vec<u8>, found: u32) -> Result<(), NoMemory> {
    if found <= MOST {
        return Ok(());
    }
    add_line(
        text,
        &[
            Piece::Text("and "),
            Piece::Number(found - MOST),
            Piece::Text(" more routine descriptors\n"),
        ],
    )
}
