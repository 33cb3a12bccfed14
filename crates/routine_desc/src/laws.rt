ghost use Rattle.std.specs.Prelude.{◌≡◌};
ghost use Rattle.routine_desc.specs.laws.Laws.{HoldsRecords, InfosAreSigned, ReadsItsBytes, RecordsAreAlike, TakesARecord, TakesNone};

use crate::flags::RoutineFlags;

/// What follows from the definitions of a descriptor and of the choice, and the bits of the flags that have
/// names. It does nothing: the clauses are its point.
pub fn desc_laws()
    ensures records { HoldsRecords }
    ensures signed { InfosAreSigned }
    ensures alike { RecordsAreAlike }
    ensures bytes { ReadsItsBytes }
    ensures taken { TakesARecord }
    ensures none { TakesNone }
    ensures relative { RoutineFlags.RELATIVE.0 ≡ 1 }
    ensures needs_preparing { RoutineFlags.NEEDS_PREPARING.0 ≡ 2 }
    ensures use_native { RoutineFlags.USE_NATIVE.0 ≡ 4 }
    ensures dont_pass_selector { RoutineFlags.DONT_PASS_SELECTOR.0 ≡ 8 }
    ensures default { RoutineFlags.DEFAULT.0 ≡ 16 }
    ensures index { RoutineFlags.INDEX.0 ≡ 32 }
{}
