ghost use Rattle.std.specs.Prelude.{◌≡◌, ◌*◌, ◌≤◌};
ghost use Rattle.mix_bits.specs.Addresses.{onward as onward_of};

use big_memory::Did;
use m68_isa::Regs68;
use mix_bits::onward;

/// Lets the program go on behind the `words` words of its instruction.
#[inline(always)]
pub fn go_on(regs: &mut Regs68, words: u32) -> Did
    requires { words ≤ 5 }
    ensures next { result ≡ Did.Next }
    ensures registers { regs.new ≡ record regs.old { pc = onward_of regs.old.pc (2 * words) } }
{
    regs.pc = onward(regs.pc, 2 * words);
    Did::Next
}
