//! The text of one instruction.
//!
//! A line has a set, an address, and what stands there. `text68` and `textppc` have words in hexadecimal with commas
//! between them (`-` stands for none), and a note behind them. The answer says what the decoder makes of the words
//! (how many of them an instruction uses, or why they are none), their text, and the words that the text assembles
//! back to at that address. Words that are too few for an instruction have no text. `as68` and `asppc` have a text
//! in quotation marks; the answer has the words that it assembles to there, or the name of the refusal.
//!
//! The stored answers were not made by this program. GNU as 2.40 makes these words of the line
//! that is the note, with 0x for `$`, or else of the text (`-m68000`, and `-m68020` for the additions; `-m601
//! -mregnames`). The texts are those lines in our own spelling of numbers, targets, sizes, lists of registers and
//! registers of long products (`docs/text.md`). By hand, from the formats and tables of the manuals, are what the
//! assembler has no line for (immediate words whose high byte is not 0, `cmp` with an immediate, a product of longs
//! with a second register, `lswx` into a register of its address), the words that are no instruction, where the note
//! names what is wrong or left out, and the lines of `as68` and `asppc`.

mod m68;
mod ppc;
mod row;

use row::Row;
use std::alloc::{AllocError, Global};

/// The answer to a line: its row, and what is to be said of it.
pub fn answer(alloc: Global, line: &str) -> Result<String, AllocError> {
    match Row::read(line) {
        Some(row) => {
            let (set, at, given) = (row.set, row.at, row.given);
            let said = said_of(alloc, &row)?;
            format!(in alloc; "{set} {at:08X} {given}{said}")
        }
        None => format!(in alloc; "{line} is no row"),
    }
}

/// What is to be said of a row.
fn said_of(alloc: Global, row: &Row) -> Result<String, AllocError> {
    match row.set {
        "text68" => m68::read(alloc, row.words(alloc)?.as_slice(), row.at),
        "textppc" => ppc::read(alloc, row.word(), row.at),
        "as68" => m68::assembled(alloc, row.text(), row.at),
        "asppc" => ppc::assembled(alloc, row.text(), row.at),
        _ => String::from_str(alloc, " is no row"),
    }
}
