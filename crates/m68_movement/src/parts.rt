ghost use Rattle.std.specs.Prelude.{◌+◌, ◌<◌, ◌≤◌};
ghost use Rattle.m68_isa.specs.ClassesClauses.{IsAlterable};
ghost use Rattle.m68_isa.specs.Operands.{operand_at};
ghost use Rattle.m68_ea.specs.Words.{words_at};
ghost use Rattle.m68_movement.specs.Parts.{Writes};

use big_memory::Ram;
use m68_ea::{find, put};
use m68_isa::Regs68;
use mix_bits::{Fault, Size};

/// Writes a value into an operand of a mode that may be written, and tells whether it did; its increment or decrement is
/// applied. Its extension words begin with word `next`, which goes on behind them.
#[inline(always)]
pub fn write(
    regs: &mut Regs68,
    ram: &mut Ram,
    fault: &mut Fault,
    word: u32,
    next: &mut u32,
    size: Size,
    mode: u32,
    lower: usize,
    value: u32,
) -> bool
    requires number { lower < 8 }
    requires first { next.old < 4 }
    requires alterable { IsAlterable mode lower }
    ensures is { Writes regs.old ram.old word size (operand_at (words_at ram.old regs.old.pc) next.old size mode lower) value result next.new fault.new regs.new ram.new }
    ensures near { next.new ≤ next.old + 2 }
{
    match find(regs, ram, fault, word, next, size, mode, lower) {
        Some(target) => put(regs, ram, fault, target, size, value),
        None => false,
    }
}
