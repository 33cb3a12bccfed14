ghost use Rattle.args_m68.specs.laws.Laws.{BeginsAtItsStack, ComesBack, FillsItsStack, SelectorComesBack, TouchesNothingElse};
ghost use Rattle.args_m68.specs.laws.ResultLaws.{ResultComesBack, ReturnLeaves};
ghost use Rattle.args_m68.specs.laws.Apart.{AreReadThere, PlacesAreApart};

/// What follows from the definitions of what a callee is handed. It does nothing: the clauses are its
/// point.
pub fn args68_laws()
    ensures comes_back { ComesBack }
    ensures selector { SelectorComesBack }
    ensures length { FillsItsStack }
    ensures top { BeginsAtItsStack }
    ensures beside { TouchesNothingElse }
{}

/// The same of the definitions of results.
pub fn result68_laws()
    ensures comes_back { ResultComesBack }
    ensures leaves { ReturnLeaves }
{}

/// The same of the places of a call's values: parameters are read at theirs, and no two values share a byte,
/// a register or a condition bit.
pub fn place68_laws()
    ensures read { AreReadThere }
    ensures apart { PlacesAreApart }
{}
