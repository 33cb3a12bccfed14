// The blocks of the heap in an image.
ghost use Rattle.std.specs.Prelude.{◌≡◌, ◌%◌, ◌<◌, ◌≤◌, length, MatchResult, Ok, Err};
ghost use Rattle.host_heap.specs.Space.{block_limit};
ghost use Rattle.mix_image.specs.Fields.{block_from, blocks_from, empty_heap};
ghost use Rattle.mix_image.specs.inner.Restoring.{Gives};
ghost use Rattle.mix_image.specs.inner.Testing.{end_from, outcome};

use crate::ImageError;
use crate::longs::long;
use host_heap::{Heap, may_follow};
use std::alloc::Global;

/// Tests the blocks in order, each by where the one before it ends. It takes no memory.
pub fn test_blocks(bytes: &[u8], low: u32, high: u32, count: u32) -> Result<(), ImageError>
    requires first { low % 16 ≡ 0 }
    requires last { high % 16 ≡ 0 }
    requires ordered { low ≤ high }
    requires few { count ≤ block_limit }
    ensures { result ≡ outcome (blocks_from bytes.now (empty_heap low high) count) }
{
    let mut end = u64::from(low);
    'each: for k in 0..count {
        end = test_block(bytes, end, high, k)?;
    }
    Ok(())
}

/// Where the block with this number ends, which is to stand behind `end` and to end by `high`.
fn test_block(bytes: &[u8], end: u64, high: u32, k: u32) -> Result<u64, ImageError>
    requires few { k < block_limit }
    ensures { result ≡ end_from bytes.now end high k }
{
    let place = 36 + 8 * k as usize;
    let address = long(bytes, place)?;
    let size = long(bytes, place + 4)?;
    if may_follow(end, high, size, address) {
        Ok(u64::from(address) + u64::from(size))
    } else {
        Err(ImageError::Block(k))
    }
}

/// A heap with the blocks that the image holds.
pub fn read_blocks(
    alloc: Global,
    bytes: &[u8],
    low: u32,
    high: u32,
    count: u32,
) -> Result<Heap, ImageError>
    requires first { low % 16 ≡ 0 }
    requires last { high % 16 ≡ 0 }
    requires ordered { low ≤ high }
    requires few { count ≤ block_limit }
    ensures { Gives result (blocks_from bytes.now (empty_heap low high) count) }
{
    let mut heap = Heap::new(alloc, low, high)?;
    'each: for k in 0..count {
        read_block(bytes, &mut heap, k)?;
    }
    Ok(heap)
}

/// Puts the block with this number behind all others.
fn read_block(bytes: &[u8], heap: &mut Heap, k: u32) -> Result<(), ImageError>
    requires few { k < block_limit }
    ensures { MatchResult result (λ _. block_from bytes.now heap.old k ≡ Ok heap.new) (λ e. block_from bytes.now heap.old k ≡ Err e) }
{
    let place = 36 + 8 * k as usize;
    let address = long(bytes, place)?;
    let size = long(bytes, place + 4)?;
    if heap.append(address, size) {
        Ok(())
    } else {
        Err(ImageError::Block(k))
    }
}
