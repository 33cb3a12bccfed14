use super::RAM_BYTES;
use big_memory::Ram;
use std::alloc::AllocError;

/// Where the instruction stands.
pub const CODE: u32 = 0x1_0000;

/// How many bytes an area has.
const SIZE: usize = 64;

/// How many areas there are.
const AREAS: usize = 5;

/// Where they begin: at the first byte of memory, before and in the gate page, at the data, round the stack pointer, and
/// before the end.
const STARTS: [u32; AREAS] = [0, 0xFE0, 0x1_8000, 0x1_BFE0, 0x1_FFC0];

/// Which of them is the data's.
const DATA: usize = 2;

/// Which of them is the stack's.
const STACK: usize = 3;

/// The bytes of the areas of memory that lines speak of.
#[derive(Clone, Copy)]
pub struct Area {
    bytes: [[u8; SIZE]; AREAS],
}

impl Area {
    /// The bytes of data and stack that follow from their addresses, and zeros elsewhere.
    pub fn fresh() -> Area {
        let mut bytes = [[0; SIZE]; AREAS];
        for at in 0..SIZE {
            bytes[DATA][at] = ((at * 73 + 29) % 256) as u8;
            bytes[STACK][at] = ((at * 41 + 7) % 256) as u8;
        }
        Area { bytes }
    }

    /// What memory holds there.
    pub fn read(ram: &Ram) -> Area {
        let mut bytes = [[0; SIZE]; AREAS];
        for n in 0..AREAS {
            bytes[n] = bytes_at(ram, STARTS[n]);
        }
        Area { bytes }
    }

    /// Puts the bytes into memory.
    pub fn write(&self, ram: &mut Ram) {
        for n in 0..AREAS {
            put(ram, STARTS[n], &self.bytes[n]);
        }
    }

    /// Appends each byte that differs, as ` ADDRESS=BYTE`.
    pub fn tell(&self, after: &Area, text: &mut String) -> Result<(), AllocError> {
        for n in 0..AREAS {
            tell_changes(STARTS[n], &self.bytes[n], &after.bytes[n], text)?;
        }
        Ok(())
    }
}

/// Puts the bytes of the area at an address, where it lies in memory.
fn put(ram: &mut Ram, from: u32, bytes: &[u8; SIZE]) {
    ram.meets_invariant();
    if from <= RAM_BYTES - SIZE as u32 {
        ram.fix(from, bytes);
    }
}

/// The bytes of the area at an address, 0 where it leaves memory.
fn bytes_at(ram: &Ram, from: u32) -> [u8; SIZE] {
    let mut bytes = [0; SIZE];
    if let Ok(span) = ram.span(from, SIZE as u32) {
        for at in 0..SIZE {
            bytes[at] = span.get(at).copied().unwrap_or(0);
        }
    }
    bytes
}

/// Appends the bytes of an area that differ.
fn tell_changes(
    from: u32,
    before: &[u8; SIZE],
    after: &[u8; SIZE],
    text: &mut String,
) -> Result<(), AllocError> {
    for at in 0..SIZE {
        if before[at] != after[at] {
            let address = from.wrapping_add(at as u32);
            let byte = after[at];
            write!(text, " {address:08X}={byte:02X}")?;
        }
    }
    Ok(())
}
