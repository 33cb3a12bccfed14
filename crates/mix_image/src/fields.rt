// The fields of an image, in order.
ghost use Rattle.std.specs.Prelude.{◌≡◌, ◌≤◌, length};
ghost use Rattle.mix_image.specs.Fields.{fields_of};
ghost use Rattle.mix_image.specs.inner.Restoring.{Gives};
ghost use Rattle.mix_image.specs.inner.Testing.{outcome};

use crate::ImageError;
use crate::blocks::{read_blocks, test_blocks};
use crate::head::read_head;
use crate::longs::long;
use crate::memory::{read_memory, test_memory};
use crate::registers::{file_size, read_active};
use mix_engine::{Body, Machine};
use std::alloc::Global;

/// Whether each field of the image is right, or the first refusal. It takes no memory.
#[tactic(auto, unfolding(crate::specs::Fields::fields_of))]
pub fn test_fields(bytes: &[u8]) -> Result<(), ImageError>
    ensures { result ≡ outcome (fields_of bytes.now) }
{
    let head = read_head(bytes)?;
    test_blocks(bytes, head.low, head.high, head.count)?;
    let place = 36 + 8 * head.count as usize;
    long(bytes, place)?;
    let active = read_active(bytes, place + 4)?;
    test_memory(bytes, place + 8 + file_size(active.isa()), head.kib)
}

/// The machine whose fields the image holds, with nothing guarded.
#[tactic(auto, unfolding(crate::specs::Fields::fields_of))]
pub fn read_fields(alloc: Global, bytes: &[u8]) -> Result<Machine, ImageError>
    ensures { Gives result (fields_of bytes.now) }
{
    let head = read_head(bytes)?;
    let heap = read_blocks(alloc, bytes, head.low, head.high, head.count)?;
    let place = 36 + 8 * head.count as usize;
    let top = long(bytes, place)?;
    let active = read_active(bytes, place + 4)?;
    let ram = read_memory(alloc, bytes, place + 8 + file_size(active.isa()), head.kib)?;
    Ok(Machine {
        active,
        body: Body {
            ram,
            heap,
            top,
            a5: head.a5,
            main: head.main,
            start_sp: head.start_sp,
        },
    })
}
