// Bytes of files, as texts.
ghost use Rattle.std.specs.Prelude.{◌<◌, IfSome};

use std::alloc::{AllocError, Global};
use std::io::{self, ErrorKind};

/// Files with names.
#[derive(Drop)]
pub struct Images {
    images: Vec<Image>,
}

/// A file with a name.
#[derive(Drop)]
struct Image {
    name: String,
    bytes: Vec<u8>,
}

impl Images {
    /// No file.
    pub fn new(alloc: Global) -> Images {
        Images {
            images: Vec::new(alloc),
        }
    }

    /// Keeps the file of a text `NAME PIECES`.
    pub fn define(&mut self, alloc: Global, text: &str) -> io::Result<()> {
        let (name, pieces) = text.trim().split_once(' ').unwrap_or((text.trim(), ""));
        let image = Image {
            name: String::from_str(alloc, name)?,
            bytes: self.spell(alloc, pieces)?,
        };
        self.images.push(image)?;
        Ok(())
    }

    /// The bytes that a text spells: pieces of hexadecimal digits, one after the other. The name of a file
    /// stands for its bytes, `@PLACE` goes on at a place, with zeros up to it, `+PLACE` adds 1 to the byte at
    /// a place, `#LENGTH` cuts, and `DIGITS*COUNT` stands for so many times the digits.
    pub fn spell(&self, alloc: Global, text: &str) -> io::Result<Vec<u8>> {
        let mut draft = Draft {
            bytes: Vec::new(alloc),
            at: 0,
        };
        for piece in text.split_whitespace() {
            self.put_piece(&mut draft, piece)?;
        }
        Ok(draft.bytes)
    }

    /// Puts what a piece spells.
    fn put_piece(&self, draft: &mut Draft, piece: &str) -> io::Result<()> {
        if let Some(bytes) = self.find(piece) {
            return Ok(draft.put_all(bytes)?);
        }
        if let Some(place) = piece.strip_prefix('@') {
            return Ok(draft.go_to(number(place)?)?);
        }
        if let Some(place) = piece.strip_prefix('+') {
            draft.raise(number(place)?);
            return Ok(());
        }
        if let Some(length) = piece.strip_prefix('#') {
            draft.cut(number(length)?);
            return Ok(());
        }
        let (digits, count) = piece.split_once('*').unwrap_or((piece, "1"));
        for _ in 0..number(count)? {
            draft.put_digits(digits)?;
        }
        Ok(())
    }

    /// The name of the first file of these bytes.
    pub fn name_of(&self, bytes: &[u8]) -> Option<&str> {
        for image in &self.images {
            if image.bytes.as_slice() == bytes {
                return Some(image.name.as_str());
            }
        }
        None
    }

    /// The file of a name.
    fn find(&self, name: &str) -> Option<&[u8]> {
        for image in &self.images {
            if image.name.as_str() == name {
                return Some(image.bytes.as_slice());
            }
        }
        None
    }
}

/// Bytes that are being spelled, and the place where the next one goes.
#[derive(Drop)]
struct Draft {
    bytes: Vec<u8>,
    at: usize,
}

impl Draft {
    /// Puts the bytes of pairs of hexadecimal digits.
    fn put_digits(&mut self, digits: &str) -> io::Result<()> {
        for pair in digits.as_bytes().chunks(2) {
            let [high, low] = pair else {
                return Err(ErrorKind::InvalidData.into());
            };
            let (Some(high), Some(low)) = (nibble(*high), nibble(*low)) else {
                return Err(ErrorKind::InvalidData.into());
            };
            self.put(high * 16 + low)?;
        }
        Ok(())
    }

    /// Puts bytes one after the other.
    fn put_all(&mut self, bytes: &[u8]) -> Result<(), AllocError> {
        for byte in bytes {
            self.put(*byte)?;
        }
        Ok(())
    }

    /// Puts a byte at a place that is there, or behind all others.
    fn put(&mut self, byte: u8) -> Result<(), AllocError> {
        match self.bytes.get_mut(self.at) {
            Some(place) => *place = byte,
            None => self.bytes.push(byte)?,
        }
        self.at = self.at.saturating_add(1);
        Ok(())
    }

    /// Goes on at a place, with zeros up to it.
    fn go_to(&mut self, place: u32) -> Result<(), AllocError> {
        for _ in self.bytes.len()..place as usize {
            self.bytes.push(0)?;
        }
        self.at = place as usize;
        Ok(())
    }

    /// Adds 1 to the byte at a place, if it is there.
    fn raise(&mut self, place: u32) {
        if let Some(byte) = self.bytes.get_mut(place as usize) {
            *byte = byte.wrapping_add(1);
        }
    }

    /// Keeps so many bytes.
    fn cut(&mut self, length: u32) {
        self.bytes.truncate(length as usize);
        self.at = self.bytes.len();
    }
}

/// A number in hexadecimal.
pub fn number(text: &str) -> io::Result<u32> {
    match u32::from_str_radix(text, 16) {
        Ok(number) => Ok(number),
        Err(_) => Err(ErrorKind::InvalidData.into()),
    }
}

/// The value of a hexadecimal digit.
fn nibble(digit: u8) -> Option<u8>
    ensures { IfSome result (λ value. value < 16) }
{
    match digit {
        b'0'..=b'9' => Some(digit - b'0'),
        b'A'..=b'F' => Some(digit - b'A' + 10),
        _ => None,
    }
}
