// Packets of gdb's Remote Serial Protocol, as a case spells them.
use crate::text::text_of;
use std::alloc::{AllocError, Global};
use std::io;

/// Appends a packet for each word `@send=DATA` of a line.
pub fn append_packets(bytes: &mut Vec<u8>, line: &str) -> Result<(), AllocError> {
    for word in line.split_whitespace() {
        if let Some(data) = word.strip_prefix("@send=") {
            append_packet(bytes, data.as_bytes())?;
        }
    }
    Ok(())
}

/// Appends a packet with its sum.
fn append_packet(bytes: &mut Vec<u8>, data: &[u8]) -> Result<(), AllocError> {
    bytes.push(b'$')?;
    bytes.extend_from_slice(data)?;
    bytes.push(b'#')?;
    let sum = sum_of(data);
    bytes.push(digit(sum / 16))?;
    bytes.push(digit(sum % 16))?;
    Ok(())
}

fn sum_of(data: &[u8]) -> u8 {
    let mut sum: u8 = 0;
    for byte in data {
        sum = sum.wrapping_add(*byte);
    }
    sum
}

fn digit(value: u8) -> u8 {
    b"0123456789abcdef"[value as usize % 16]
}

/// What a server sent, each packet on a line of its own; nothing where it sent nothing.
pub fn packet_lines(alloc: Global, bytes: &[u8]) -> io::Result<String> {
    let mut lines = Vec::new(alloc);
    for byte in bytes {
        if *byte == b'$' {
            lines.push(b'\n')?;
        }
        lines.push(*byte)?;
    }
    if !bytes.is_empty() {
        lines.push(b'\n')?;
    }
    text_of(alloc, &lines)
}
