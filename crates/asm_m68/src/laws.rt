ghost use Rattle.asm_m68.specs.laws.AssemblyLaws.{GivenAreNamed, GivesOne, NamesArePrinted, NoneIsMissing, TextsDiffer, TextsGive};
ghost use Rattle.asm_m68.specs.laws.FormLaws.{FormsAreListed};
ghost use Rattle.asm_m68.specs.laws.SpellingLaws.{TextsSpell, WordsSpell};

/// What holds of lines, texts and names. It does nothing: the clauses are its point.
pub fn asm_laws()
    ensures one { GivesOne }
    ensures named { GivenAreNamed }
    ensures texts { TextsGive }
    ensures whole { NoneIsMissing }
    ensures differ { TextsDiffer }
    ensures names { NamesArePrinted }
{}

/// What holds of the texts of instructions. It does nothing: the clauses are its point.
pub fn spelling_laws()
    ensures instructions { TextsSpell }
    ensures words { WordsSpell }
{}

/// What holds of the table as a whole. It does nothing: the clause is its point.
pub fn form_laws()
    ensures { FormsAreListed }
{}
