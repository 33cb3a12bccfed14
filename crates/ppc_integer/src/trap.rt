// Traps.
ghost use Rattle.big_memory.specs.Memory.{Memory};
ghost use Rattle.big_memory.specs.StepsClauses.{Does};
ghost use Rattle.ppc_isa.specs.Fields.{fields_of};
ghost use Rattle.ppc_isa.specs.declared.instruction.InstrPpc.TheVariants.{TrapWordImmediate, CompareOrTrap};
ghost use Rattle.ppc_isa.specs.declared.instruction.Comparison.TheVariants.{TrapWord};
ghost use Rattle.ppc_isa.specs.declared.registers.RegsPpc.{RegsPpc};
ghost use Rattle.ppc_integer.specs.Effects.{runs, trap_word as trap_word_of};

use super::condition::traps;
use super::ending::finish;
use big_memory::{Did, stop};
use mix_bits::{Fault, FaultKind};
use ppc_isa::{RegsPpc, a_of, b_of, d_of, offset_of};

/// tw.
#[inline(never)]
pub fn trap_word(regs: &mut RegsPpc, fault: &mut Fault, word: u32) -> Did
    ensures { (m : Memory) → let f = fields_of word in Does (runs regs.old m word (CompareOrTrap (TrapWord f.d f.a f.b))) result fault.new regs.old regs.new m m }
{
    let (x, y) = (regs.gpr[a_of(word)], regs.gpr[b_of(word)]);
    trap_where(regs, fault, word, x, y)
}

/// twi.
#[inline(never)]
pub fn trap_word_immediate(regs: &mut RegsPpc, fault: &mut Fault, word: u32) -> Did
    ensures { (m : Memory) → let f = fields_of word in Does (runs regs.old m word (TrapWordImmediate f.d f.a f.low)) result fault.new regs.old regs.new m m }
{
    let x = regs.gpr[a_of(word)];
    trap_where(regs, fault, word, x, offset_of(word))
}

/// Traps where one of the conditions of TO holds for two words.
fn trap_where(regs: &mut RegsPpc, fault: &mut Fault, word: u32, x: u32, y: u32) -> Did
    ensures { (m : Memory) → Does (trap_word_of regs.old m word (fields_of word).d x y) result fault.new regs.old regs.new m m }
{
    if traps(d_of(word) as u32, x, y) {
        stop::<RegsPpc>(fault, FaultKind::Trap, regs.pc, word)
    } else {
        finish(regs)
    }
}
