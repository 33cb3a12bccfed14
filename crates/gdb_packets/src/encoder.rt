ghost use Rattle.std.specs.Prelude.{◌≡◌, ◌%◌, ◌++◌, OnOk, sum};
ghost use Rattle.std.specs.List.{flat_map};
ghost use Rattle.gdb_packets.specs.Stream.{escaped_byte};
ghost use Rattle.gdb_packets.specs.Packets.{packet_text};

use super::hex::hex_digit;
use mix_bits::NoMemory;

/// Appends a packet with this data, to be put as one piece.
#[tactic(auto, unfolding(crate::specs::Packets::packet_text))]
pub fn append_packet(buffer: &mut Vec<u8>, bytes: &[u8]) -> Result<(), NoMemory>
    ensures { OnOk result (buffer.new.items ≡ buffer.old.items ++ packet_text bytes.now) }
{
    buffer.push(b'$')?;
    let start = buffer.len();
    append_escaped(buffer, bytes)?;
    let total = sum_of(&buffer[start..]);
    buffer.extend_from_slice(&[b'#', hex_digit(total / 16), hex_digit(total % 16)])?;
    Ok(())
}

fn append_escaped(buffer: &mut Vec<u8>, bytes: &[u8]) -> Result<(), NoMemory>
    ensures { OnOk result (buffer.new.items ≡ buffer.old.items ++ flat_map escaped_byte bytes.now) }
{
    for &byte in bytes {
        append_byte(buffer, byte)?;
    }
    Ok(())
}

fn append_byte(buffer: &mut Vec<u8>, byte: u8) -> Result<(), NoMemory>
    ensures { OnOk result (buffer.new.items ≡ buffer.old.items ++ escaped_byte byte) }
{
    match byte {
        b'}' => buffer.extend_from_slice(&[b'}', b'}' ^ 0x20])?,
        b'#' => buffer.extend_from_slice(&[b'}', b'#' ^ 0x20])?,
        b'$' => buffer.extend_from_slice(&[b'}', b'$' ^ 0x20])?,
        b'*' => buffer.extend_from_slice(&[b'}', b'*' ^ 0x20])?,
        _ => buffer.push(byte)?,
    }
    Ok(())
}

/// The sum of bytes modulo 256.
fn sum_of(bytes: &[u8]) -> u8
    ensures { result ≡ sum bytes.now % 256 }
{
    let mut total: u8 = 0;
    for &byte in bytes {
        total = total.wrapping_add(byte);
    }
    total
}
