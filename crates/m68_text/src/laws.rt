ghost use Rattle.std.specs.Prelude.{◌≡◌, ◌≢◌, length};
ghost use Rattle.std.specs.List.{AllPairs};
ghost use Rattle.m68_text.specs.laws.Laws.{NamesAreListed};
ghost use Rattle.m68_text.specs.Listed.{names};

use m68_table::table_laws;

/// What holds of the names of all instructions. It does nothing: the clauses are its point.
pub fn text_laws()
    ensures count { length names ≡ 234 }
    ensures distinct { AllPairs (λ m n. m ≢ n) names }
    ensures names { NamesAreListed }
{
    table_laws();
}
