// Moves from and to the special purpose registers, and synchronization.
ghost use Rattle.ppc_isa.specs.Fields.{fields_of};
ghost use Rattle.ppc_isa.specs.declared.instruction.InstrPpc.TheVariants.{MoveSpecial};
ghost use Rattle.ppc_isa.specs.declared.instruction.SpecialMove.TheVariants.{MoveFromSpecial, MoveToSpecial};
ghost use Rattle.ppc_integer.specs.AloneClauses.{Ends};
ghost use Rattle.ppc_integer.specs.Alone.{Runs};

use super::ending::finish;
use super::xer::xer_kept;
use big_memory::Did;
use ppc_isa::{RegsPpc, SpecialRegister, d_of};

/// mfspr.
#[inline(always)]
pub fn move_from_special(regs: &mut RegsPpc, word: u32, register: SpecialRegister) -> Did
    ensures { let f = fields_of word in Runs (MoveSpecial (MoveFromSpecial f.d register)) word result regs.old regs.new }
{
    regs.gpr[d_of(word)] = match register {
        SpecialRegister::Xer => xer_kept(regs.xer),
        SpecialRegister::Link => regs.lr,
        SpecialRegister::Count => regs.ctr,
    };
    finish(regs)
}

/// mtspr.
#[inline(always)]
pub fn move_to_special(regs: &mut RegsPpc, word: u32, register: SpecialRegister) -> Did
    ensures { let f = fields_of word in Runs (MoveSpecial (MoveToSpecial register f.d)) word result regs.old regs.new }
{
    let value = regs.gpr[d_of(word)];
    match register {
        SpecialRegister::Xer => regs.xer = xer_kept(value),
        SpecialRegister::Link => regs.lr = value,
        SpecialRegister::Count => regs.ctr = value,
    }
    finish(regs)
}

/// sync and isync, which have nothing to wait for.
#[inline(always)]
pub fn synchronize(regs: &mut RegsPpc) -> Did
    ensures { Ends regs.old result regs.new }
{
    finish(regs)
}
