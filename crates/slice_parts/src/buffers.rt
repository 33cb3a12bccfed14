// Bytes that are copied to a buffer.
ghost use Rattle.slice_parts.specs.Buffers.{HoldsFront, buffer};

/// Copies as many bytes as there is room for to the front of a buffer, and answers how many these are.
pub fn copy(bytes: &[u8], into: &mut [u8]) -> usize
    ensures { HoldsFront bytes.now (buffer into.old into.new result) }
{
    let count = bytes.len().min(into.len());
    into[..count].copy_from_slice(&bytes[..count]);
    count
}

/// Copies longs in the same way.
pub fn copy_longs(longs: &[u32], into: &mut [u32]) -> usize
    ensures { HoldsFront longs.now (buffer into.old into.new result) }
{
    let count = longs.len().min(into.len());
    into[..count].copy_from_slice(&longs[..count]);
    count
}
