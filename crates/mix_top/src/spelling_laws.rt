// What follows from the definition of a script.
ghost use Rattle.mix_top.specs.laws.SpellingLaws.{BadLinesAreFirst, ScriptsAreLines};

/// Which texts are a script of which commands, and which line is the first bad one elsewhere. It does nothing: the clauses
/// are its point.
pub fn script_laws()
    ensures scripts { ScriptsAreLines }
    ensures bad { BadLinesAreFirst }
{}
