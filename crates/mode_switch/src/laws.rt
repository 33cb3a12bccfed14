ghost use Rattle.mode_switch.specs.laws.Laws.{BeginsAtItsStack, FillsItsStack, IsOfItsSet, MeansWhatItWants};

/// What follows from the definitions of a mode switch. It does nothing: the clauses are its point.
pub fn switch_laws()
    ensures means { MeansWhatItWants }
    ensures length { FillsItsStack }
    ensures set { IsOfItsSet }
    ensures top { BeginsAtItsStack }
{}
