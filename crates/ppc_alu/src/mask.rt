// Rotations with a mask.
ghost use Rattle.std.specs.Prelude.{◌≡◌, ◌<◌};
ghost use Rattle.std.specs.Int.{rotate_left, w32};
ghost use Rattle.ppc_alu.specs.Masks.{mask_of};

/// `v` rotated left by `sh`, and the mask from bit `mb` to bit `me`, which goes on from bit 31 to bit 0
/// where `me` is before `mb`.
pub fn rotate_mask(v: u32, sh: u32, mb: u32, me: u32) -> (u32, u32)
    requires shift { sh < 32 }
    requires begin { mb < 32 }
    requires end { me < 32 }
    ensures rotated { result.0 ≡ rotate_left w32 v sh }
    ensures mask { result.1 ≡ mask_of mb me }
{
    (v.rotate_left(sh), mask(mb, me))
}

/// The mask from bit `mb` to bit `me`: as many ones from bit 0 on, rotated to their place.
#[tactic(auto, using(crate::proofs::MaskLemmas::mask_is))]
fn mask(mb: u32, me: u32) -> u32
    requires begin { mb < 32 }
    requires end { me < 32 }
    ensures { result ≡ mask_of mb me }
{
    let zeros = 31 - (me + 32 - mb) % 32;
    (u32::MAX << zeros).rotate_right(mb)
}
