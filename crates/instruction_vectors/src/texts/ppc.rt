use asm_ppc::{AsmError, assemble_ppc};
use mix_bits::Line;
use ppc_isa::decode_ppc;
use ppc_text::text_ppc;
use std::alloc::{AllocError, Global};
use std::str::from_utf8;

/// What the word at an address is, its text there, and what that assembles back to.
pub fn read(alloc: Global, word: Option<u32>, at: u32) -> Result<String, AllocError> {
    match word {
        Some(word) => read_word(alloc, word, at),
        None => String::from_str(alloc, " is no row"),
    }
}

/// The word that a text at an address assembles to, or the refusal.
pub fn assembled(alloc: Global, text: &[u8], at: u32) -> Result<String, AllocError> {
    match assemble_ppc(text, at) {
        Ok(word) => format!(in alloc; " = {word:08X}"),
        Err(AsmError::Name) => String::from_str(alloc, " = name"),
        Err(AsmError::Operands) => String::from_str(alloc, " = operands"),
    }
}

/// The answer to a word.
fn read_word(alloc: Global, word: u32, at: u32) -> Result<String, AllocError> {
    let mut line = Line::new();
    text_ppc(word, at, &mut line);
    let kind = kind_of(word);
    let back = assembled(alloc, line.bytes(), at)?;
    let text = from_utf8(line.bytes()).unwrap_or("no text");
    format!(in alloc; " {kind}: {text}{back}")
}

/// What the decoder says of a word.
fn kind_of(word: u32) -> &'static str {
    match decode_ppc(word) {
        Some(_) => "uses 1",
        None => "none",
    }
}
