ghost use Rattle.mix_image.specs.laws.Laws.{MarkIsText, RestoredIsSpelled, SpellingIsRestored, SpellingsDiffer};

/// That spelling and restoring are inverse to each other. It does nothing: the clauses are its point.
///
/// With the clauses of `save` and `restore`: what `save` kept of a machine is restored to that machine, and what
/// `save` keeps of a machine that was restored are the bytes that it was restored from.
pub fn spelling_laws()
    ensures restored { SpellingIsRestored }
    ensures spelled { RestoredIsSpelled }
    ensures apart { SpellingsDiffer }
    ensures text { MarkIsText }
{}
