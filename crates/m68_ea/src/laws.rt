ghost use Rattle.m68_isa.specs.Fields.{HasRegisters};
ghost use Rattle.m68_ea.specs.laws.Laws.{WordsLie};
ghost use Rattle.m68_ea.specs.PlacesClauses.{HasNumbers};

use m68_isa::Ea;

/// What follows of the words of an instruction from where it lies. It does nothing: the clause is its point.
pub fn word_laws()
    ensures { WordsLie }
{}

/// An instruction's operand has the register numbers that [`crate::place`] asks for. It does nothing: the clause is its
/// point.
#[inline(always)]
pub fn operand_law(ea: Ea)
    requires { HasRegisters ea }
    ensures { HasNumbers ea }
{}
