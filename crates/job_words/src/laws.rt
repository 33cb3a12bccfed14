// What follows from the definition of the command of words.
ghost use Rattle.job_words.specs.laws.Laws.{CommandIsAsked, KeysStandInOrder, OrderIsFree, RefusalIsFirst};

/// Which words are a command and which one, where others go wrong, that the order of settings is free, and in which
/// order the files of a command are fetched. It does nothing: the clauses are its point.
pub fn word_laws()
    ensures command { CommandIsAsked }
    ensures refusal { RefusalIsFirst }
    ensures order { OrderIsFree }
    ensures keys { KeysStandInOrder }
{}
