// Bytes as text.
use std::alloc::Global;
use std::io::{self, ErrorKind};
use std::str::from_utf8;

/// Bytes that are a text.
pub fn text_of(alloc: Global, bytes: &[u8]) -> io::Result<String> {
    match from_utf8(bytes) {
        Ok(text) => Ok(String::from_str(alloc, text)?),
        Err(_) => Err(ErrorKind::InvalidData.into()),
    }
}

/// Bytes in hexadecimal digits.
pub fn hexadecimal(alloc: Global, bytes: &[u8]) -> io::Result<String> {
    let mut text = String::new(alloc);
    for byte in bytes {
        write!(text, "{byte:02X}")?;
    }
    Ok(text)
}
