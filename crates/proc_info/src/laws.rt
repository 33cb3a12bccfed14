ghost use Rattle.proc_info.specs.laws.Arguments.{BehindFront, BehindNone};
ghost use Rattle.std.specs.Prelude.{◌≡◌};

/// What follows from the definition of values behind others, whatever refusals are. It does nothing: the
/// clauses are its point.
pub fn word_laws<E>()
    ensures front { BehindFront E }
    ensures none { BehindNone E }
{}
