ghost use Rattle.m68_alu.specs.laws.Laws.{OverflowLaws};

/// The two ways to tell an overflow. It does nothing: the clause is its point.
pub fn overflow_laws()
    ensures { OverflowLaws }
{}
