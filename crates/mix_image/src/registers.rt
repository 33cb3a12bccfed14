// The registers in an image.
ghost use Rattle.std.specs.Prelude.{◌≡◌, ◌≤◌, ◌+◌, length};
ghost use Rattle.switch_frame.specs.Records.{isa_of};
ghost use Rattle.mix_image.specs.Fields.{active_from, file_from, file_size, m68_from, ppc_from};

use crate::ImageError;
use crate::head::set_of;
use crate::longs::{long, read_longs, short};
use m68_isa::Regs68;
use mix_bits::Isa;
use ppc_isa::RegsPpc;
use switch_frame::Active;

/// The active set's number and its registers.
#[tactic(auto, unfolding(crate::specs::Fields::active_from))]
pub fn read_active(bytes: &[u8], at: usize) -> Result<Active, ImageError>
    requires place { at ≤ 40000 }
    ensures { result ≡ active_from bytes.now at }
{
    let value = long(bytes, at)?;
    let set = set_of(value, ImageError::Active(value))?;
    read_file(bytes, at + 4, set)
}

/// How many bytes the registers of a set have.
pub fn file_size(set: Isa) -> usize
    ensures { result ≡ file_size set }
{
    match set {
        Isa::M68 => 72,
        Isa::Ppc => 148,
    }
}

fn read_file(bytes: &[u8], at: usize, set: Isa) -> Result<Active, ImageError>
    requires place { at ≤ 40004 }
    ensures { result ≡ file_from bytes.now at set }
{
    match set {
        Isa::M68 => read_m68(bytes, at),
        Isa::Ppc => read_ppc(bytes, at),
    }
}

fn read_m68(bytes: &[u8], at: usize) -> Result<Active, ImageError>
    requires place { at ≤ 40004 }
    ensures { result ≡ m68_from bytes.now at }
{
    if bytes.len() < at + 72 {
        return Err(short(bytes));
    }
    let mut longs = [0; 18];
    read_longs(bytes, at, &mut longs);
    if longs[17] < 32 {
        Ok(Active::M68(Regs68::from_longs(&longs)))
    } else {
        Err(ImageError::Ccr(longs[17]))
    }
}

fn read_ppc(bytes: &[u8], at: usize) -> Result<Active, ImageError>
    requires place { at ≤ 40004 }
    ensures { result ≡ ppc_from bytes.now at }
{
    if bytes.len() < at + 148 {
        return Err(short(bytes));
    }
    let mut longs = [0; 37];
    read_longs(bytes, at, &mut longs);
    Ok(Active::Ppc(RegsPpc::from_longs(&longs)))
}
