// Masks of fields, and words under a mask.
ghost use Rattle.std.specs.Prelude.{◌≡◌, ◌<◌};
ghost use Rattle.ppc_integer.specs.Conditions.{field_mask_of};
ghost use Rattle.ppc_integer.specs.Rotate.{inserted};

/// The places of the condition register whose fields a mask of eight bits names, as mtcrf has it: its
/// first bit is that of field 0.
#[tactic(auto, using(crate::proofs::MaskLemmas::fields_are))]
pub fn field_mask(fields: u32) -> u32
    requires { fields < 512 }
    ensures { result ≡ field_mask_of fields }
{
    let first = (fields / 128 % 2 * 16 + fields / 64 % 2) * 256
        + fields / 32 % 2 * 16
        + fields / 16 % 2;
    let last = (fields / 8 % 2 * 16 + fields / 4 % 2) * 256 + fields / 2 % 2 * 16 + fields % 2;
    (first * 0x1_0000 + last) * 15
}

/// The bits of `word` at the places of a mask, and those of another word elsewhere.
#[inline(always)]
pub fn insert(mask: u32, word: u32, elsewhere: u32) -> u32
    ensures { result ≡ inserted mask word elsewhere }
{
    (word & mask) | (elsewhere & !mask)
}
