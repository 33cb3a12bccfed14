use std::alloc::{AllocError, Global};

/// A line of standard input.
#[derive(Clone, Copy)]
pub struct Row<'a> {
    /// The instruction set, and whether words or a text are given.
    pub set: &'a str,
    /// The address at which they stand.
    pub at: u32,
    /// The words, or the text with its quotation marks.
    pub given: &'a str,
}

impl<'a> Row<'a> {
    /// The row that a line is, if it is one.
    pub fn read(line: &'a str) -> Option<Row<'a>> {
        let (set, rest) = line.split_once(' ')?;
        let (address, rest) = rest.split_once(' ')?;
        Some(Row {
            set,
            at: number(address)?,
            given: without_note(rest),
        })
    }

    /// The words of sixteen bits; a piece that is no number is left out.
    pub fn words(&self, alloc: Global) -> Result<Vec<u16>, AllocError> {
        let mut words = Vec::new(alloc);
        for piece in self.given.split(',') {
            if let Ok(word) = u16::from_str_radix(piece, 16) {
                words.push(word)?;
            }
        }
        Ok(words)
    }

    /// The word of 32 bits, if it is one.
    pub fn word(&self) -> Option<u32> {
        number(self.given)
    }

    /// The bytes between the first quotation mark and the last one.
    pub fn text(&self) -> &'a [u8] {
        let (_, rest) = self.given.split_once('"').unwrap_or(("", ""));
        let (text, _) = rest.rsplit_once('"').unwrap_or(("", ""));
        text.as_bytes()
    }
}

/// A text in quotation marks, or else what stands before the first space.
fn without_note(text: &str) -> &str {
    if text.starts_with('"') {
        text
    } else {
        let (words, _) = text.split_once(' ').unwrap_or((text, ""));
        words
    }
}

/// A number in hexadecimal.
fn number(text: &str) -> Option<u32> {
    match u32::from_str_radix(text, 16) {
        Ok(number) => Some(number),
        Err(_) => None,
    }
}
