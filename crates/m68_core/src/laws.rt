ghost use Rattle.std.specs.Prelude.{◌≡◌, ◌%◌};
ghost use Rattle.m68_isa.specs.First.{first_of};
ghost use Rattle.m68_isa.specs.Operations.{operation};
ghost use Rattle.m68_ea.specs.Words.{words_at};
ghost use Rattle.m68_effects.specs.laws.Ops.{by_op};
ghost use Rattle.m68_effects.specs.Step.{stepped};
ghost use Rattle.m68_core.specs.laws.Edge.{IsFirst, IsThere};

use big_memory::Ram;
use m68_isa::{Op68, Regs68, op_laws};

/// That a step does what the operation of its first word does, where no word is missing. The clause is
/// its point.
#[inline(always)]
pub fn step_law(regs: &Regs68, ram: &Ram, word: u32, op: Op68)
    requires even { regs.now.pc % 2 ≡ 0 }
    requires first { IsFirst word (words_at ram.now regs.now.pc) }
    requires there { IsThere (words_at ram.now regs.now.pc) }
    requires operation { op ≡ operation (first_of word) }
    ensures { stepped regs.now ram.now ≡ by_op op regs.now ram.now word }
{
    op_laws();
}
