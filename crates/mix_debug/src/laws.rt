ghost use Rattle.mix_debug.specs.laws.ChangeLaws.{RunsAreMaximal, Undoes};
ghost use Rattle.mix_debug.specs.laws.Trips.{FittingIsLongest, ListsLead, TripsReturn};

/// Laws of the history. It does nothing: the clauses are its point.
///
/// The old values of the maximal runs in which two lists of bytes differ, written over the new list, give
/// the old one; these runs hold the bytes that differ and no other, and no two of them touch. What is kept of the steps is
/// the longest row of the newest ones that fits. Any list of steps forward and back leads to the machine before the steps
/// that it takes back, or behind those that it leaves; one that takes back each step that it did, and no other, leaves the
/// machine as it was.
pub fn history_laws()
    ensures undoes { Undoes }
    ensures maximal { RunsAreMaximal }
    ensures longest { FittingIsLongest }
    ensures lists { ListsLead }
    ensures returns { TripsReturn }
{}
