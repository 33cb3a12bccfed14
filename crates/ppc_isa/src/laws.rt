ghost use Rattle.ppc_isa.specs.laws.Laws.{DecodedStands, RowsAreApart};
ghost use Rattle.ppc_isa.specs.laws.Laws.{LongLaws};

/// What holds of the words of instructions. It does nothing: the clauses are its point.
pub fn word_laws()
    ensures stands { DecodedStands }
    ensures apart { RowsAreApart }
{}

/// That a register file and its longs give each other back. It does nothing: the clause is its point.
pub fn long_laws()
    ensures { LongLaws }
{}
