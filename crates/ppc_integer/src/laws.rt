ghost use Rattle.ppc_integer.specs.laws.Laws.{LeavesAtHostCode};
ghost use Rattle.ppc_integer.specs.laws.StorageLaws.{IndexedStringsFill, IndexedStringsStore, LoadsLittle, ReversesBack, StringsFill, StringsStore};

/// What holds of every step. It does nothing: the clause is its point.
///
/// No instruction leaves the set; a step leaves it only at the code address of a host function.
pub fn effect_laws()
    ensures { LeavesAtHostCode }
{}

/// What loads and stores of strings, and of bytes in the other order, do. It does nothing: the clauses are its point.
pub fn storage_laws()
    ensures strings { StringsFill }
    ensures indexed { IndexedStringsFill }
    ensures stored { StringsStore }
    ensures indexed_stored { IndexedStringsStore }
    ensures little { LoadsLittle }
    ensures reversed { ReversesBack }
{}
