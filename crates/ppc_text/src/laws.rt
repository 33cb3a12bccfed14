ghost use Rattle.std.specs.Prelude.{◌≡◌, ◌≢◌, length};
ghost use Rattle.std.specs.List.{AllPairs};
ghost use Rattle.ppc_text.specs.laws.Laws.{NamesAreListed, NegativeTexts, PositiveTexts};
ghost use Rattle.ppc_text.specs.Listed.{names};

/// What holds of the names of all instructions and of signed numbers. It does nothing: the clauses
/// are its point.
pub fn text_laws()
    ensures count { length names ≡ 181 }
    ensures distinct { AllPairs (λ m n. m ≢ n) names }
    ensures names { NamesAreListed }
    ensures positive { PositiveTexts }
    ensures negative { NegativeTexts }
{}
