// What holds of the definitions themselves, for the crates that cite them: each law is a contract, and its body does
// nothing.
ghost use Rattle.std.specs.Prelude.{◌≡◌, ℕ, ◌%◌, ◌≤◌, ◌↔◌, [], Option, Some, MatchOption};
ghost use Rattle.host_heap.specs.Space.{Space};
ghost use Rattle.host_heap.specs.SpaceClauses.{IsLowest, HasNone};
ghost use Rattle.host_heap.specs.PlaceClauses.{IsPlace};
ghost use Rattle.host_heap.specs.Place.{lowest_fit, place_for, taken, freed};
ghost use Rattle.host_heap.specs.Sound.{IsSound};
ghost use Rattle.host_heap.specs.laws.Laws.{FreedBytesAreThere, FreeingNothing, FreeingTakesOne, FreeingUndoesPlacing, LastTells, PlacesAreTested, PlacingAppends, PlacingKeepsSound, PlacingUndoesFreeing, RoomBeginsNone, TakesFreeBytes, TakingAddsOne, TakingPlaces};

/// The value `lowest_fit` is the lowest address with room, and None exactly where there is none.
pub fn lowest_fit_is_lowest()
    ensures { (s : Space) (size : ℕ) → MatchOption (lowest_fit s size) (HasNone s size) (IsLowest s size) }
{}

/// The value `place_for` is what the relation `IsPlace` allows, and nothing else is.
pub fn place_is_unique()
    ensures { (s : Space) (size : ℕ) (answer : Option ℕ) → (answer ≡ place_for s size) ↔ IsPlace s size answer }
{}

/// In a sound heap each place is a multiple of 8.
pub fn place_is_aligned()
    ensures { (s : Space) (size address : ℕ) → IsSound s → IsPlace s size (Some address) → address % 8 ≡ 0 }
{}

/// A heap with no block is sound, if its bounds are multiples of 16 in order.
pub fn empty_heap_is_sound()
    ensures { (low high : ℕ) → low % 16 ≡ 0 → high % 16 ≡ 0 → low ≤ high → IsSound (record { low = low; high = high; blocks = [] }) }
{}

/// What `get` leaves of a sound heap is sound.
pub fn taking_keeps_sound()
    ensures { (s : Space) (size : ℕ) → IsSound s → IsSound (taken s size) }
{}

/// What `free` leaves of a sound heap is sound.
pub fn freeing_keeps_sound()
    ensures { (s : Space) (address : ℕ) → IsSound s → IsSound (freed s address) }
{}

/// To give up the block that a sound heap has just made gives that heap again.
pub fn freeing_undoes_taking()
    ensures { (s : Space) (size address : ℕ) → IsSound s → IsPlace s size (Some address) → freed (taken s size) address ≡ s }
{}

/// What placing blocks and giving them up leaves of a heap.
pub fn placing_laws()
    ensures tests { PlacesAreTested }
    ensures begins { RoomBeginsNone }
    ensures sound { PlacingKeepsSound }
    ensures appends { PlacingAppends }
    ensures last { LastTells }
    ensures taking { TakingPlaces }
    ensures freeing { FreeingUndoesPlacing }
    ensures again { PlacingUndoesFreeing }
    ensures nothing { FreeingNothing }
{}

/// Which blocks and bytes are in use after `get` and `free`.
pub fn block_laws()
    ensures bytes { TakesFreeBytes }
    ensures taking { TakingAddsOne }
    ensures freeing { FreeingTakesOne }
    ensures again { FreedBytesAreThere }
{}
