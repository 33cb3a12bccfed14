ghost use Rattle.binhex.specs.laws.Packed.{GivesBackPacked};
ghost use Rattle.binhex.specs.laws.Sixths.{GivesBackText};
ghost use Rattle.binhex.specs.laws.Wholes.{GivesForksBack};

/// That bytes which were packed are given back. It does nothing: the clause is its point.
pub fn packed_law()
    ensures { GivesBackPacked }
{}

/// The same of bytes whose bits were written as text.
pub fn text_law()
    ensures { GivesBackText }
{}

/// The same of the forks of a file.
pub fn forks_law()
    ensures { GivesForksBack }
{}
