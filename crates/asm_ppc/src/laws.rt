ghost use Rattle.asm_ppc.specs.laws.AssemblyLaws.{GivenAreNamed, GivesOne, NamesArePrinted, TextsDiffer};

/// What holds of lines, texts and names. It does nothing: the clauses are its point.
pub fn asm_laws()
    ensures one { GivesOne }
    ensures named { GivenAreNamed }
    ensures differ { TextsDiffer }
    ensures names { NamesArePrinted }
{}
