// Which procInfo has no signature.
use big_memory::Ram;
use look_text::{Piece, add_bytes, add_line, info_refusal};
use mix_bits::{NoMemory, onward};
use std::alloc::Global;

/// How many bytes of a routine descriptor stand before its first record, and how many a record has.
const HEADER: u32 = 12;

const RECORD: u32 = 20;

/// How many records there are at most.
const MOST: u32 = 64;

/// Appends the convention and the broken rule of a procInfo word, if it breaks one.
pub fn add_refusal(alloc: Global, text: &mut Vec<u8>, info: u32) -> Result<(), NoMemory> {
    match info_refusal(alloc, info)? {
        Some(line) => add_bytes(text, &line),
        None => Ok(()),
    }
}

/// Appends the same of the first record of a routine descriptor whose procInfo breaks a rule.
pub fn add_unsigned(
    alloc: Global,
    text: &mut Vec<u8>,
    ram: &Ram,
    descriptor: u32,
) -> Result<(), NoMemory> {
    for k in 0..MOST {
        let Ok(info) = ram.load_long(onward(descriptor, HEADER + RECORD * k)) else {
            return Ok(());
        };
        if let Some(line) = info_refusal(alloc, info)? {
            return add_record(text, k, &line);
        }
    }
    Ok(())
}

/// Appends a line about a record.
fn add_record(text: &mut Vec<u8>, number: u32, line: &[u8]) -> Result<(), NoMemory> {
    add_line(
        text,
        &[
            Piece::Text("record "),
            Piece::Number(number),
            Piece::Text(", "),
        ],
    )?;
    add_bytes(text, line)
}
