ghost use Rattle.mix_load.specs.laws.Laws.{PiecesLie};

/// Where the pieces of every program lie that is loaded. It does nothing: the clause is its point.
///
/// That the heap begins at a multiple of 16 and ends at the floor of the stack is a clause of [`load`](crate::load).
pub fn load_laws()
    ensures { PiecesLie }
{}
