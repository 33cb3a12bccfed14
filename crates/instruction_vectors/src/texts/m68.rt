use asm_m68::{AsmError, assemble68};
use m68_isa::{Decoded68, decode68};
use m68_text::text68;
use mix_bits::Line;
use std::alloc::{AllocError, Global};
use std::str::from_utf8;

/// What the words at an address are, their text there, and what that assembles back to.
pub fn read(alloc: Global, words: &[u16], at: u32) -> Result<String, AllocError> {
    let kind = kind_of(alloc, &decode68(words))?;
    let line = line_of(words, at);
    match from_utf8(line.bytes()) {
        Ok("") => format!(in alloc; " {kind}"),
        Ok(text) => {
            let back = assembled(alloc, line.bytes(), at)?;
            format!(in alloc; " {kind}: {text}{back}")
        }
        Err(_) => format!(in alloc; " {kind}: no text"),
    }
}

/// The words that a text at an address assembles to, or the refusal.
pub fn assembled(alloc: Global, text: &[u8], at: u32) -> Result<String, AllocError> {
    match assemble68(text, at) {
        Ok(code) => joined(alloc, &code.words[..code.count as usize]),
        Err(AsmError::Name) => String::from_str(alloc, " = name"),
        Err(AsmError::Operands) => String::from_str(alloc, " = operands"),
    }
}

/// What the decoder says of words.
fn kind_of(alloc: Global, decoded: &Decoded68) -> Result<String, AllocError> {
    match *decoded {
        Decoded68::Op(_, used) => format!(in alloc; "uses {used}"),
        Decoded68::Short => String::from_str(alloc, "short"),
        Decoded68::Privileged => String::from_str(alloc, "privileged"),
        Decoded68::Illegal => String::from_str(alloc, "illegal"),
        Decoded68::LineA(word) => format!(in alloc; "line A {word:04X}"),
        Decoded68::LineF => String::from_str(alloc, "line F"),
    }
}

/// The text of words, and nothing where they are too few.
fn line_of(words: &[u16], at: u32) -> Line {
    let mut line = Line::new();
    match decode68(words) {
        Decoded68::Short => {}
        decoded => text68(&decoded, words, at, &mut line),
    }
    line
}

/// Words in hexadecimal, with commas between them.
fn joined(alloc: Global, words: &[u16]) -> Result<String, AllocError> {
    let mut text = String::from_str(alloc, " = ")?;
    for at in 0..words.len() {
        if at > 0 {
            write!(text, ",")?;
        }
        let word = words[at];
        write!(text, "{word:04X}")?;
    }
    Ok(text)
}
