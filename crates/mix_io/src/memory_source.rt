// A source over bytes in memory.
ghost use Rattle.std.specs.Prelude.{◌≡◌, Option, Some};
ghost use Rattle.std.specs.Vec.Iter.{into_iter_items};
ghost use Rattle.mix_io.specs.NumberedCalls.{calls_from_one};
ghost use Rattle.mix_io.specs.CountsClauses.{HasCause};
ghost use Rattle.mix_io.specs.Takes.{Takes};
ghost use Rattle.mix_io.specs.Memory.{MemorySource};
ghost use Rattle.mix_io.specs.InMemory.{taken, after_take};

use super::counts::{Calls, count_fault};
use super::errors::Failed;
use super::traits::Source;
use std::marker::Model;
use std::vec::IntoIter;

/// Gives the bytes that it was made of, and tells those that are left.
#[derive(Drop)]
pub struct MemSource {
    bytes: IntoIter<u8>,
    calls: Calls,
    faults: u64,
}

impl Model for MemSource {
    ghost Value = { MemorySource };

    ghost view = { λ s. record {
      bytes = into_iter_items s.bytes;
      calls = s.calls;
      faults = s.faults;
    } };
}

impl MemSource {
    /// `fails` has the numbers, from 1, of the calls that fail and take nothing.
    pub fn new(bytes: Vec<u8>, fails: Vec<u32>) -> MemSource
        ensures made { result ≡ record { bytes = bytes.items; calls = calls_from_one fails.items; faults = 0 } }
        ensures left { ⟦<MemSource as Source>⟧.left result ≡ Some bytes.items }
        ensures faults { ⟦<MemSource as Source>⟧.faults result ≡ 0 }
    {
        MemSource {
            bytes: bytes.into_iter(),
            calls: Calls::new(fails),
            faults: 0,
        }
    }
}

impl Source for MemSource {
    ghost left = { λ s. Some s.bytes };

    ghost faults = { λ s. s.faults };

    fn take(&mut self) -> Result<Option<u8>, Failed>
        ensures bytes { Takes (Some self.old.bytes) (Some self.new.bytes) result }
        ensures cause { HasCause self.old.faults self.new.faults result }
        ensures exact { result ≡ taken self.old }
        ensures after { self.new ≡ after_take self.old }
    {
        if self.calls.is_failing() {
            self.faults = count_fault(self.faults);
            return Err(Failed);
        }
        Ok(self.bytes.next())
    }
}
