ghost use Rattle.gdb_answers.specs.laws.Answers.{RegistersReadBack, RegistersStandInOrder, WindowsAreWhole};

/// What gdb reads out of answers. It does nothing: the clauses are its point.
pub fn answer_laws()
    ensures registers { RegistersReadBack }
    ensures order { RegistersStandInOrder }
    ensures windows { WindowsAreWhole }
{}
