// A keeper in memory, of one name, with room for a given number of bytes.
ghost use Rattle.std.specs.Prelude.{◌≡◌, ℕ, List, [], Some, IfOk, is_err, is_ok, string_bytes};
ghost use Rattle.mix_io.specs.NumberedCalls.{calls_from_one};
ghost use Rattle.mix_io.specs.CountsClauses.{NamedCause};
ghost use Rattle.mix_io.specs.KeptClauses.{Saves};
ghost use Rattle.mix_io.specs.Memory.{MemoryKeep, keep_faults, kept_as};
ghost use Rattle.mix_io.specs.InMemory.{after_keep, keeps_piece};

use super::counts::count_fault;
use super::errors::Failed;
use super::memory_sink::MemSink;
use super::traits::{Keeper, Sink};
use mix_bits::NoMemory;
use std::alloc::Global;
use std::marker::Model;

/// Keeps the pieces of its name, and tells them. Every other name fails.
#[derive(Drop)]
pub struct MemKeep {
    name: String,
    pieces: MemSink,
    other_faults: u64,
}

impl Model for MemKeep {
    ghost Value = { MemoryKeep };

    ghost view = { λ s. record {
      name = string_bytes s.name;
      pieces = s.pieces;
      other_faults = s.other_faults;
    } };
}

impl MemKeep {
    /// Reserves its room. `fails` has the numbers, from 1, of the calls that fail and keep nothing: a
    /// call for another name counts too. It has one count of faults for its name, and one for all others.
    pub fn new(alloc: Global, name: String, room: u32, fails: Vec<u32>) -> Result<MemKeep, NoMemory>
        ensures made { IfOk result (λ s. s ≡ record {
          name = string_bytes name;
          pieces = record { bytes = []; room = room; calls = calls_from_one fails.items; faults = 0 };
          other_faults = 0;
        }) }
        ensures kept { IfOk result (λ s. ⟦<MemKeep as Keeper>⟧.kept s ≡ Some (kept_as s)) }
        ensures empty { IfOk result (λ s. (name : List ℕ) → kept_as s name ≡ []) }
        ensures faults { IfOk result (λ s. (name : List ℕ) → ⟦<MemKeep as Keeper>⟧.faults s name ≡ 0) }
    {
        Ok(MemKeep {
            name,
            pieces: MemSink::new(alloc, room, fails)?,
            other_faults: 0,
        })
    }

    /// The bytes that it keeps by its name.
    pub fn kept(&self) -> &[u8]
        ensures bytes { result.now ≡ self.now.pieces.bytes }
        ensures kept { result.now ≡ kept_as self.now self.now.name }
    {
        self.pieces.held()
    }

    /// The bytes that it keeps by a name, none where that is another than its own.
    pub fn kept_by(&self, name: &str) -> &[u8]
        ensures { result.now ≡ kept_as self.now name.now }
    {
        if name == self.name.as_str() {
            self.pieces.held()
        } else {
            &[]
        }
    }
}

impl Keeper for MemKeep {
    ghost kept = { λ s. Some (kept_as s) };

    ghost faults = { keep_faults };

    fn keep(&mut self, name: &str, piece: &[u8]) -> Result<(), Failed>
        ensures bytes { Saves (Some (kept_as self.old)) (Some (kept_as self.new)) name.now piece.now result }
        ensures cause { NamedCause (keep_faults self.old) (keep_faults self.new) name.now (is_err result) }
        ensures exact { is_ok result ≡ keeps_piece self.old name.now piece.now }
        ensures after { self.new ≡ after_keep self.old name.now piece.now }
    {
        if name == self.name.as_str() {
            self.pieces.put(piece)
        } else {
            self.pieces.pass_by();
            self.other_faults = count_fault(self.other_faults);
            Err(Failed)
        }
    }
}
