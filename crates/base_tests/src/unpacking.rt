// Pattern data.
use crate::equal::equal;
use pef_reloc::{RelocError, unpack};
use std::process::Abort;

/// Whether pattern data answers so for a room of `n` bytes, and writes these first.
fn unpacks(from: &[u8], n: usize, answer: Result<(), RelocError>, written: &[u8]) -> bool {
    let mut room = [0xEE; 24];
    if from.len() > 0x100_0000 || n > 20 {
        return false;
    }
    unpack(from, &mut room[..n]) == answer
        && room.starts_with(written)
        && room[n..].starts_with(&[0xEE; 4])
}

/// Pattern data, the room for it, the answer, and what is written first.
type Unpacking = (&'static [u8], usize, Result<(), RelocError>, &'static [u8]);

/// Each row unpacks as it says.
fn check_unpacking(rt: &impl Abort, rows: &[Unpacking]) {
    for (from, room, answer, written) in rows {
        let fits = unpacks(from, *room, *answer, written);
        equal(rt, "pattern data", (*from, fits), (*from, true));
    }
}

static OPCODES: &[Unpacking] = &[
    (b"\x03", 3, Ok(()), b"\0\0\0"),
    (b"\x22\xAB\xCD", 2, Ok(()), b"\xAB\xCD"),
    (b"\x42\x02\xAB\xCD", 6, Ok(()), b"\xAB\xCD\xAB\xCD\xAB\xCD"),
    (
        b"\x62\x01\x02\x11\x12\xAA\xBB",
        8,
        Ok(()),
        b"\x11\x12\xAA\x11\x12\xBB\x11\x12",
    ),
    (
        b"\x82\x01\x03\xAA\xBB\xCC",
        11,
        Ok(()),
        b"\0\0\xAA\0\0\xBB\0\0\xCC\0\0",
    ),
    (b"\xA0", 0, Err(RelocError::Pattern(0)), b""),
    (b"\x02\x21\x77\x41\x01\x55", 5, Ok(()), b"\0\0\x77\x55\x55"),
    (b"", 0, Ok(()), b""),
];

#[test]
fn each_opcode_writes_its_piece(rt: HostRuntime) {
    check_unpacking(&rt, OPCODES);
}

static COUNTS: &[Unpacking] = &[
    // 130 is 1 and 2 in groups of seven bits; groups of 0 may lead
    (b"\x00\x81\x02", 20, Err(RelocError::Pattern(0)), b"\xEE"),
    (b"\x00\x80\x80\x80\x80\x80\x80\x03", 3, Ok(()), b"\0\0\0"),
    (b"\x20\x02\x0A\x0B", 2, Ok(()), b"\x0A\x0B"),
    // at most 32 bits; a block of no bytes, so often: nothing is written
    (b"\x40\x00\x8F\xFF\xFF\xFF\x7F", 0, Ok(()), b""),
    (
        b"\x40\x00\x90\x80\x80\x80\x00",
        0,
        Err(RelocError::Pattern(0)),
        b"",
    ),
    (
        b"\x01\x40\x00\x90\x80\x80\x80\x00",
        1,
        Err(RelocError::Pattern(1)),
        b"\0",
    ),
];

#[test]
fn a_count_of_zero_follows_as_a_number(rt: HostRuntime) {
    check_unpacking(&rt, COUNTS);
}

static EMPTY: &[Unpacking] = &[
    (b"\x60\x00\x00\x8F\xFF\xFF\xFF\x7F", 0, Ok(()), b""),
    (b"\x80\x00\x00\x8F\xFF\xFF\xFF\x7F", 0, Ok(()), b""),
    (
        b"\x82\x00\x8F\xFF\xFF\xFF\x7F",
        20,
        Err(RelocError::Pattern(0)),
        b"\xEE",
    ),
];

#[test]
fn parts_and_blocks_without_bytes_are_soon_written(rt: HostRuntime) {
    check_unpacking(&rt, EMPTY);
}

static ROOMS: &[Unpacking] = &[
    (b"\x42\x02\xAB\xCD", 5, Err(RelocError::Pattern(0)), b"\xEE"),
    (
        b"\x42\x02\xAB\xCD",
        7,
        Err(RelocError::Pattern(4)),
        b"\xAB\xCD\xAB\xCD\xAB\xCD\xEE",
    ),
    (
        b"\x01\x22\xAB\xCD",
        2,
        Err(RelocError::Pattern(1)),
        b"\0\xEE",
    ),
    (b"\x01\x40\x00\x00", 1, Ok(()), b"\0"),
    (b"\x01\x01", 1, Err(RelocError::Pattern(1)), b"\0"),
];

#[test]
fn as_many_bytes_are_written_as_there_is_room_for(rt: HostRuntime) {
    check_unpacking(&rt, ROOMS);
}

/// The first instruction is refused, or the one behind a byte.
const FIRST: Result<(), RelocError> = Err(RelocError::Pattern(0));

const SECOND: Result<(), RelocError> = Err(RelocError::Pattern(1));

static CUTS: &[Unpacking] = &[
    (b"\x01\x22\xAB", 3, SECOND, b"\0"),
    (b"\x01\x20", 3, SECOND, b"\0"),
    (b"\x01\x00\x81", 3, SECOND, b"\0"),
    (b"\x01\x42", 3, SECOND, b"\0"),
    (b"\x01\x42\x01\xAB", 5, SECOND, b"\0"),
    (b"\x62\x01\x02\x11\x12\xAA", 8, FIRST, b"\xEE"),
    (b"\x62\x01\x02\x11", 8, FIRST, b"\xEE"),
    (b"\x82\x01\x03\xAA\xBB", 11, FIRST, b"\xEE"),
    (b"\x82\x01", 11, FIRST, b"\xEE"),
];

#[test]
fn an_instruction_that_is_cut_is_refused(rt: HostRuntime) {
    check_unpacking(&rt, CUTS);
}
