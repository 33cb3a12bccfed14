// What holds of the definitions themselves, for the crates that cite them: each law is a contract, and its body does
// nothing.
ghost use Rattle.toolbox.specs.laws.Blames.{BlamedAfterCalm, CalmAtFirst};
ghost use Rattle.toolbox.specs.laws.Functions.{NumbersAreOwn};
ghost use Rattle.toolbox.specs.laws.Names.{ImportsAreNumbered, ImportsHaveOneNumber, TrapsAreNumbered};
ghost use Rattle.toolbox.specs.inner.Performs.{AreLaws};

use big_memory::memory_laws;
use dev_rack::journal_laws;

/// The laws of the crates below. It does nothing.
pub fn laws()
    ensures { AreLaws }
{
    memory_laws();
    journal_laws();
}

/// What holds of the host table. It does nothing: the clauses are its point.
pub fn table_laws()
    ensures numbers { NumbersAreOwn }
    ensures traps { TrapsAreNumbered }
    ensures imports { ImportsHaveOneNumber }
    ensures numbered { ImportsAreNumbered }
{}

/// Whose count of faults rose, over several calls. It does nothing: the clauses are its point.
pub fn blame_laws()
    ensures first { CalmAtFirst }
    ensures after { BlamedAfterCalm }
{}
