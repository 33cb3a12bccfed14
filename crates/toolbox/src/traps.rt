ghost use Rattle.toolbox.specs.NamesClauses.{IsTrapIndex};
ghost use Rattle.toolbox.specs.laws.Names.{TrapsHaveOneNumber};

use crate::function::Function;

/// The number of the function that a trap word reaches.
#[inline(always)]
pub fn trap_index(word: u16) -> Option<u32>
    ensures { IsTrapIndex word result }
{
    match Function::of_trap(word) {
        Some(function) => Some(function.number() as u32),
        None => None,
    }
}

/// A trap word has one number. It does nothing: the clause is its point.
pub fn trap_laws()
    ensures { TrapsHaveOneNumber }
{}
