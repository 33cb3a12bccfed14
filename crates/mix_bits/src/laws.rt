ghost use Rattle.mix_bits.specs.laws.Laws.{BothHold, FewBytes, HoldsOfEach, NamesReadBack, ReadsReplaced, OthersStay};
ghost use Rattle.mix_bits.specs.laws.Numbers.{ReadsDecimals, ReadsHexadecimals};
ghost use Rattle.mix_bits.specs.laws.SearchLaws.{FailsBelow, FirstIsLeast, LeastOfFailing, NoneIsCounted, NoneIsLeast};

/// What follows from the definition of a replaced digit. It does nothing: the clauses are its point.
pub fn digit_laws()
    ensures reads { ReadsReplaced }
    ensures stays { OthersStay }
{}

/// What follows from tests one after the other, and from a test of all numbers of a range. It does nothing, either.
pub fn test_laws()
    ensures both { BothHold }
    ensures each { HoldsOfEach }
{}

/// What follows from the sizes of values. It does nothing, either.
pub fn size_laws()
    ensures few { FewBytes }
{}

/// How reading and writing numbers undo each other. It does nothing, either.
pub fn number_laws()
    ensures decimals { ReadsDecimals }
    ensures hexadecimals { ReadsHexadecimals }
{}

/// What a line's name and the rest of it give back. It does nothing, either.
pub fn name_laws()
    ensures back { NamesReadBack }
{}

/// What follows from the definitions of searches. It does nothing: the clauses are its point.
pub fn search_laws()
    ensures first { FirstIsLeast }
    ensures none { NoneIsLeast }
    ensures behind { LeastOfFailing }
    ensures fails { FailsBelow }
    ensures counted { NoneIsCounted }
{}
