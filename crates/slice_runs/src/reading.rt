// What the image of a machine says of it.
ghost use Rattle.std.specs.Prelude.{◌≡◌, drop};
ghost use Rattle.switch_frame.specs.Records.{longs_of_file};
ghost use Rattle.mix_image.specs.Spelling.{set_number as number_of};
ghost use Rattle.slice_parts.specs.Buffers.{HoldsFront, IsWithin, buffer};
ghost use Rattle.slice_runs.specs.Looks.{Looks, refused_status};

use mix_bits::Isa;
use mix_image::{ImageError, restore};
use mix_top::status::{NO_MEMORY, NOT_LOADED, SUCCESS};
use slice_parts::{copy, copy_longs};
use std::alloc::Global;
use switch_frame::Active;

/// What was read of a machine.
#[repr(C)]
#[derive(Clone, Copy, Debug, PartialEq, Eq, Default)]
pub struct Seen {
    /// The active set: 0 for 68K, 1 for PowerPC.
    pub set: u32,
    /// How many longs stand in the buffer of registers: of 68K code D0 to D7, A0 to A7, pc and the condition codes, of PowerPC
    /// code r0 to r31, CR, LR, CTR, XER and pc.
    pub longs: usize,
    /// How many bytes stand in the buffer of memory.
    pub bytes: usize,
}

/// Reads the registers of a machine from its image, and its memory from an address on, as far as the buffers have room. The
/// answer is 0; 3 where the bytes are no image; or 9 for want of memory.
pub fn look(
    alloc: Global,
    image: &[u8],
    at: u32,
    longs: &mut [u32],
    bytes: &mut [u8],
    seen: &mut Seen,
) -> u8
    ensures looks { Looks image.now at (buffer longs.old longs.new seen.new.longs) (buffer bytes.old bytes.new seen.new.bytes) seen.new.set result }
    ensures longs { IsWithin (buffer longs.old longs.new seen.new.longs) }
    ensures bytes { IsWithin (buffer bytes.old bytes.new seen.new.bytes) }
{
    *seen = Seen::default();
    match restore(alloc, image) {
        Ok(machine) => {
            seen.set = set_number(machine.active.isa());
            seen.longs = copy_registers(&machine.active, longs);
            seen.bytes = copy(behind(machine.body.ram.bytes(), at), bytes);
            SUCCESS
        }
        Err(error) => status_of(error),
    }
}

fn set_number(set: Isa) -> u32
    ensures { result ≡ number_of set }
{
    match set {
        Isa::M68 => 0,
        Isa::Ppc => 1,
    }
}

pub fn status_of(error: ImageError) -> u8
    ensures { result ≡ refused_status error }
{
    match error {
        ImageError::NoMemory => NO_MEMORY,
        _ => NOT_LOADED,
    }
}

/// The bytes from a place on, none where that is behind them.
fn behind(bytes: &[u8], at: u32) -> &[u8]
    ensures { result.now ≡ drop at bytes.now }
{
    let start = (at as usize).min(bytes.len());
    &bytes[start..]
}

/// Copies the longs of a register file.
fn copy_registers(active: &Active, into: &mut [u32]) -> usize
    ensures { HoldsFront (longs_of_file active.now) (buffer into.old into.new result) }
{
    match active {
        Active::M68(file) => {
            let mut longs = [0; 18];
            file.put_longs(&mut longs);
            copy_longs(&longs, into)
        }
        Active::Ppc(file) => {
            let mut longs = [0; 37];
            file.put_longs(&mut longs);
            copy_longs(&longs, into)
        }
    }
}
