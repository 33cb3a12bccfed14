// Memory as a dump.

use crate::memory::add_byte;
use big_memory::Ram;
use look_text::{Piece, add, add_line};
use look_words::Span;
use mix_bits::{NoMemory, onward};
use std::alloc::Global;

/// How many bytes stand in a line.
const ROW: u32 = 16;

/// The bytes of a part of memory as loads see them: sixteen a line, in hexadecimal digits and as characters.
pub fn dump(alloc: Global, ram: &Ram, span: Span) -> Result<Vec<u8>, NoMemory> {
    let mut text = Vec::new(alloc);
    for row in 0..span.count.div_ceil(ROW) {
        let done = row.saturating_mul(ROW);
        let count = span.count.saturating_sub(done).min(ROW);
        add_row(&mut text, ram, onward(span.at, done), count)?;
    }
    Ok(text)
}

/// Appends the line of so many bytes from an address on.
fn add_row(text: &mut Vec<u8>, ram: &Ram, from: u32, count: u32) -> Result<(), NoMemory> {
    add_line(text, &[Piece::Long(from), Piece::Text(":")])?;
    for k in 0..ROW {
        if k < count {
            add_byte(text, ram, onward(from, k))?;
        } else {
            add(text, "   ")?;
        }
    }
    add(text, "  ")?;
    for k in 0..count {
        add_character(text, ram.load_byte(onward(from, k)).ok())?;
    }
    add(text, "\n")
}

/// Appends a byte as a character, where it is one of ASCII that is seen.
fn add_character(text: &mut Vec<u8>, byte: Option<u32>) -> Result<(), NoMemory> {
    match byte {
        Some(byte) if 0x20 <= byte && byte < 0x7F => {
            text.push(byte as u8)?;
            Ok(())
        }
        _ => add(text, "."),
    }
}
