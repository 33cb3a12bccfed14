ghost use Rattle.args_ppc.specs.laws.Laws.{BeginsAtItsStack, ComesBack, FillsItsStack, ResultComesBack, SelectorComesBack, TouchesNothingElse};
ghost use Rattle.args_ppc.specs.laws.Apart.{ParametersAreWords, WordsAreApart, WordsAreInTheFrame, WordsAreThere};

/// What follows from the definitions of what a callee is handed. It does nothing: the clauses are its
/// point.
pub fn args_ppc_laws()
    ensures comes_back { ComesBack }
    ensures selector { SelectorComesBack }
    ensures length { FillsItsStack }
    ensures top { BeginsAtItsStack }
    ensures beside { TouchesNothingElse }
    ensures result { ResultComesBack }
{}

/// The same of the places of a call's words: they are read at theirs, a parameter is one word, and no two words
/// share a register or a byte.
pub fn place_ppc_laws()
    ensures read { WordsAreThere }
    ensures parameters { ParametersAreWords }
    ensures apart { WordsAreApart }
    ensures frame { WordsAreInTheFrame }
{}
