ghost use Rattle.std.specs.Prelude.{◌≡◌};
ghost use Rattle.m68_isa.specs.Targets.{branch_target};

use mix_bits::onward;

/// Where a branch at an address goes.
#[inline(always)]
pub fn branch_target(at: u32, displacement: u32) -> u32
    ensures { result ≡ branch_target at displacement }
{
    onward(onward(at, 2), displacement)
}
