ghost use Rattle.pef_reloc.specs.laws.Laws.{HasAllRows, HasOneRow, HasPlan, HasSameRefusal, IsBeyondLimit, IsFilledSpan, IsSpelled, IsWithinLimit, IsWorkLast, IsRepeatWorkLast, KeepsSize, UnpacksPieces};

/// What holds of pattern data as a whole. It does nothing: the clause is its point.
pub fn pattern_laws()
    ensures { UnpacksPieces }
{}

/// What holds of the table of relocations as a whole. It does nothing: the clauses are its point.
pub fn table_laws()
    ensures one_row { HasOneRow }
    ensures spelled { IsSpelled }
    ensures all { HasAllRows }
{}

/// What a run does to a section, and what that depends on. It does nothing: the clauses are its point.
pub fn plan_laws()
    ensures plan { HasPlan }
    ensures size { KeepsSize }
    ensures refusal { HasSameRefusal }
{}

/// How many instructions a run takes, that one too many is refused so only where nothing else refuses it, and what a
/// repeat goes back over. It does nothing: the clauses are its point.
pub fn work_laws()
    ensures within { IsWithinLimit }
    ensures beyond { IsBeyondLimit }
    ensures last { IsWorkLast }
    ensures repeat { IsRepeatWorkLast }
    ensures span { IsFilledSpan }
{}
