ghost use Rattle.mix_text.specs.laws.Laws.{AnswersOnce, ListingsComeBack};

/// What holds of texts and of listings. It does nothing: the clauses are its point.
pub fn assembly_laws()
    ensures once { AnswersOnce }
    ensures back { ListingsComeBack }
{
    m68_text::text_laws();
}
