// Longs of an image.
ghost use Rattle.std.specs.Prelude.{◌≡◌, ◌+◌, ◌*◌, ◌^◌, ◌<◌, ◌≤◌, length};
ghost use Rattle.mix_bits.specs.declared.file.TheConstants.{IMAGE_BYTES};
ghost use Rattle.big_memory.specs.Numbers.{long_at, longs_at};
ghost use Rattle.mix_image.specs.Fields.{long_from};

use crate::ImageError;

/// The longs `MIXI` and `MG01`, with which an image begins.
pub const MARK_FIRST: u32 = 0x4D49_5849;

pub const MARK_SECOND: u32 = 0x4D47_3031;

/// The refusal of bytes that end within a field.
pub fn short(bytes: &[u8]) -> ImageError
    requires { length bytes.now < 2 ^ 32 }
    ensures { result ≡ ImageError.Short (length bytes.now) }
{
    ImageError::Short(bytes.len() as u32)
}

/// The long at a place of the image.
pub fn long(bytes: &[u8], at: usize) -> Result<u32, ImageError>
    requires place { at ≤ IMAGE_BYTES }
    ensures { result ≡ long_from bytes.now at }
{
    if bytes.len() < at + 4 {
        Err(short(bytes))
    } else {
        Ok(number(bytes, at))
    }
}

/// The longs from a place on, as many as there is room for.
pub fn read_longs(bytes: &[u8], at: usize, to: &mut [u32])
    requires { at + 4 * length to.old ≤ length bytes.now }
    ensures longs { to.new ≡ longs_at (length to.old) at bytes.now }
    ensures len { length to.new ≡ length to.old }
{
    'each: for k in 0..to.len() {
        to[k] = number(bytes, at + 4 * k);
    }
}

/// The number in the four bytes from a place on.
#[tactic(auto, using(crate::proofs::LongBytes::number_is))]
fn number(bytes: &[u8], at: usize) -> u32
    requires { at + 4 ≤ length bytes.now }
    ensures { result ≡ long_at at bytes.now }
{
    u32::from_be_bytes([bytes[at], bytes[at + 1], bytes[at + 2], bytes[at + 3]])
}
