//! Parts of bytes: in hexadecimal, and as windows into a longer text.
ghost use Rattle.std.specs.Prelude.{◌≡◌, ◌+◌, ◌++◌, ◌∷◌, [], OnOk, drop, length, min, take, nat_lt};
ghost use Rattle.big_memory.specs.Lists.{part};
ghost use Rattle.gdb_answers.specs.Answers.{bytes_text, memory_text, window_letter, window_text};
ghost use Rattle.gdb_answers.specs.Stops.{error_text};

use gdb_packets::append_hex;
use mix_bits::NoMemory;

/// At most so many bytes are told by one answer.
const MOST_TOLD: u32 = 0x2000;

pub fn append_error(buffer: &mut Vec<u8>) -> Result<(), NoMemory>
    ensures { OnOk result (buffer.new.items ≡ buffer.old.items ++ error_text) }
{
    buffer.extend_from_slice(b"E01")?;
    Ok(())
}

/// The bytes from a place on.
fn skip(bytes: &[u8], count: u32) -> &[u8]
    ensures { result.now ≡ drop count bytes.now }
{
    let count = count as usize;
    if count < bytes.len() {
        &bytes[count..]
    } else {
        &[]
    }
}

/// At most the first so many bytes.
fn first(bytes: &[u8], count: u32) -> &[u8]
    ensures { result.now ≡ take count bytes.now }
{
    let count = count as usize;
    if count < bytes.len() {
        &bytes[..count]
    } else {
        bytes
    }
}

/// Appends at most so many bytes from an address on.
pub fn append_memory(
    buffer: &mut Vec<u8>,
    memory: &[u8],
    address: u32,
    count: u32,
) -> Result<(), NoMemory>
    ensures { OnOk result (buffer.new.items ≡ buffer.old.items ++ memory_text memory.now address count) }
{
    append_bytes(buffer, first(skip(memory, address), count.min(MOST_TOLD)))
}

fn append_bytes(buffer: &mut Vec<u8>, bytes: &[u8]) -> Result<(), NoMemory>
    ensures { OnOk result (buffer.new.items ≡ buffer.old.items ++ bytes_text bytes.now) }
{
    if bytes.is_empty() {
        append_error(buffer)
    } else {
        append_hex(buffer, bytes)
    }
}

/// Appends a part of a text, and in front of it whether more follows.
#[tactic(auto, using(std::proofs::Common::append_assoc))]
pub fn append_window(
    buffer: &mut Vec<u8>,
    text: &[u8],
    offset: u32,
    count: u32,
) -> Result<(), NoMemory>
    ensures { OnOk result (buffer.new.items ≡ buffer.old.items ++ window_text text.now offset count) }
{
    if text.len() < offset as usize {
        return append_error(buffer);
    }
    let has_more = offset as usize + (count as usize) < text.len();
    buffer.push(letter(has_more))?;
    buffer.extend_from_slice(first(skip(text, offset), count))?;
    Ok(())
}

fn letter(has_more: bool) -> u8
    ensures { window_letter has_more ≡ result ∷ [] }
{
    if has_more { b'm' } else { b'l' }
}
