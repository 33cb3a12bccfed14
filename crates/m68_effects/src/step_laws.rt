ghost use Rattle.m68_effects.specs.laws.StepLaws.{OthersDo, ReadsFirst, StopsUnwritten};

/// What follows from the definitions of a step that is tried. It does nothing: the clause is its point.
pub fn tried_laws()
    ensures { OthersDo }
{}

/// What follows from the definitions of a step that reads an operand first. It does nothing: the clause is its point.
pub fn reading_laws()
    ensures { ReadsFirst }
{}

/// What follows from the definitions of a step that writes an operand. It does nothing: the clause is its point.
pub fn writing_laws()
    ensures { StopsUnwritten }
{}
