ghost use Rattle.mix_top.specs.laws.Laws.{ContinuedRunsAreOne};

/// That a run which is cut, kept and continued is the uncut run. It does nothing: the clause is its point.
///
/// With the clause of `mixed_main`: where `run` with `steps=N save=F` answers 11 over a keeper that tells its bytes and has
/// nothing under that name, and `continue` with `steps=M` gets what was kept there, the rest of the input and the devices as they
/// were left, and comes to an end, then both outputs one after the other, and both traces without the first `limit`
/// line, are those of `run` with `N + M` steps, with the answers of the devices in both.
pub fn checkpoint_laws()
    ensures { ContinuedRunsAreOne }
{}
