// What follows from the definitions of sinks and of keepers.
ghost use Rattle.mix_io.specs.laws.Kept.{NothingKept, SavesFront, SavesJoin};
ghost use Rattle.mix_io.specs.laws.Streams.{BreaksJoin, GrowsJoin, NothingGrows};

/// Laws of what a sink holds after several puts. It does nothing: the clauses are its point.
pub fn stream_laws()
    ensures nothing { NothingGrows }
    ensures grows { GrowsJoin }
    ensures breaks { BreaksJoin }
{}

/// Laws of what a keeper holds after several pieces. It does nothing, either.
pub fn keeper_laws()
    ensures nothing { NothingKept }
    ensures join { SavesJoin }
    ensures front { SavesFront }
{}
