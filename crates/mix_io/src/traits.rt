// The five traits by which the machine meets the outside. An object may tell what it holds, for proofs
// alone: a member that is `None` tells nothing. Each keeps a count of its faults, in 64 bits, which
// never falls and stands still at its last value.
ghost use Rattle.std.specs.Prelude.{◌≡◌, ℕ, ◌≤◌, List, Option, None, length, IfOk, is_err};
ghost use Rattle.mix_io.specs.Calls.{one_more};
ghost use Rattle.mix_io.specs.CountsClauses.{HasCause, NamedCause};
ghost use Rattle.mix_io.specs.FetchCauses.{ExcessCause, FetchCause};
ghost use Rattle.mix_io.specs.KeptClauses.{Saves};
ghost use Rattle.mix_io.specs.Takes.{Takes, Fetches};
ghost use Rattle.mix_io.specs.Told.{Puts, Hears};

use super::errors::{Failed, FetchError};
use std::alloc::Global;

/// A place where files are found by name. It may tell the map of its files. It counts for each name its
/// faults, and the times that a file exceeded a limit, though one count may serve many names.
pub trait Shelf {
    ghost contents: { Self → Option (List ℕ → Option (List ℕ)) };

    ghost faults: { Self → List ℕ → ℕ };

    ghost excesses: { Self → List ℕ → ℕ };

    /// The whole file of that name, if it has at most `limit` bytes.
    fn fetch(&mut self, alloc: Global, name: &str, limit: u32) -> Result<Vec<u8>, FetchError>
        ensures within { IfOk result (λ v. length v.items ≤ limit) }
        ensures contents { contents self.new ≡ contents self.old }
        ensures answer { Fetches (contents self.old) name.now limit result }
        ensures cause { FetchCause (faults self.old) (faults self.new) name.now result }
        ensures excess { ExcessCause (excesses self.old) (excesses self.new) name.now result };
}

/// A stream of bytes that comes in. It may tell the bytes that are left.
pub trait Source {
    ghost left: { Self → Option (List ℕ) };

    ghost faults: { Self → ℕ };

    /// The next byte, or `None` at the end.
    fn take(&mut self) -> Result<Option<u8>, Failed>
        ensures bytes { Takes (left self.old) (left self.new) result }
        ensures cause { HasCause (faults self.old) (faults self.new) result };
}

/// A stream of bytes that goes out. It may tell the bytes that it holds, and it may count its puts.
pub trait Sink {
    ghost held: { Self → Option (List ℕ) };

    ghost faults: { Self → ℕ };

    ghost puts: { Self → Option ℕ } = { λ _. None };

    /// Puts the whole piece, or fails with a part of it put.
    fn put(&mut self, piece: &[u8]) -> Result<(), Failed>
        ensures bytes { Puts (held self.old) (held self.new) piece.now result }
        ensures cause { HasCause (faults self.old) (faults self.new) result }
        // Each put counts, whatever it answers.
        ensures count { puts self.new ≡ one_more (puts self.old) };
}

/// What answers a word with a word. It may tell its conversation: each word that it was asked, in
/// order, with its answer, or with none where it failed.
pub trait Device: Drop {
    ghost told: { Self → Option (List (ℕ × Option ℕ)) };

    ghost faults: { Self → ℕ };

    /// The answer to a word, or a failure.
    fn ask(&mut self, word: u32) -> Result<u32, Failed>
        ensures heard { Hears (told self.old) (told self.new) word result }
        ensures cause { HasCause (faults self.old) (faults self.new) result };
}

/// A place where bytes are kept by name, piece after piece. It may tell the bytes of each name, and
/// counts its faults for each name, though one count may serve many names.
pub trait Keeper {
    ghost kept: { Self → Option (List ℕ → List ℕ) };

    ghost faults: { Self → List ℕ → ℕ };

    /// Keeps the whole piece behind those that were kept by this name, or fails with a front of it
    /// kept. The first piece of a name starts it empty, whatever was there before this keeper.
    fn keep(&mut self, name: &str, piece: &[u8]) -> Result<(), Failed>
        ensures bytes { Saves (kept self.old) (kept self.new) name.now piece.now result }
        ensures cause { NamedCause (faults self.old) (faults self.new) name.now (is_err result) };
}
