ghost use Rattle.std.specs.Prelude.{◌≡◌};
ghost use Rattle.ppc_isa.specs.Targets.{branch_target as branch_target_of};

use mix_bits::onward;

/// Where a branch at `at` goes: its displacement counts from address 0 where it is absolute, else
/// from the branch.
#[inline(always)]
pub fn branch_target(absolute: bool, at: u32, displacement: u32) -> u32
    ensures { result ≡ branch_target_of absolute at displacement }
{
    if absolute {
        displacement
    } else {
        onward(at, displacement)
    }
}
