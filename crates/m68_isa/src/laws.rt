ghost use Rattle.m68_isa.specs.laws.Longs.{LongLaws};
ghost use Rattle.m68_isa.specs.laws.Needs.{IsKept, OpLaws};

/// What holds of every operation. It does nothing: the clause is its point.
pub fn op_laws()
    ensures { OpLaws }
{}

/// That the reading of an instruction depends on no word behind its own. The clause is its point.
pub fn reading_law(word: u32)
    ensures { IsKept word }
{}

/// That a register file and its longs give each other back. It does nothing: the clause is its point.
pub fn long_laws()
    ensures { LongLaws }
{}
