ghost use Rattle.mix_reach.specs.laws.Laws.{StoresWhereTold};

/// A step from a whole machine to another stores where it is told, or in a block that it makes. It does nothing: the
/// clause is its point.
pub fn reach_laws()
    ensures { StoresWhereTold }
{}
