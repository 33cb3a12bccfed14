// A sink in memory, with room for a given number of bytes.
ghost use Rattle.std.specs.Prelude.{◌≡◌, ◌≤◌, ◌+◌, ◌++◌, [], Some, IfOk, length, is_ok, vec_capacity, vec_len};
ghost use Rattle.mix_io.specs.NumberedCalls.{calls_from_one};
ghost use Rattle.mix_io.specs.Calls.{one_more};
ghost use Rattle.mix_io.specs.CountsClauses.{HasCause};
ghost use Rattle.mix_io.specs.Told.{Puts};
ghost use Rattle.mix_io.specs.Memory.{MemorySink};
ghost use Rattle.mix_io.specs.InMemory.{takes_piece, after_put, passed_by};

use super::counts::{Calls, count_fault};
use super::errors::Failed;
use super::traits::Sink;
use mix_bits::NoMemory;
use std::alloc::Global;
use std::marker::Model;

/// Holds the bytes that were put, and tells them.
#[derive(Drop)]
pub struct MemSink {
    bytes: Vec<u8>,
    room: u32,
    calls: Calls,
    faults: u64,
}

impl Model for MemSink {
    ghost Value = { MemorySink };

    ghost view = { λ s. record {
      bytes = s.bytes.items;
      room = s.room;
      calls = s.calls;
      faults = s.faults;
    } };

    ghost invariant = { λ s. (length s.bytes.items ≤ s.room) × (s.room ≤ vec_capacity s.bytes) };
}

impl MemSink {
    /// Reserves its room. `fails` has the numbers, from 1, of the calls that fail and keep nothing.
    pub fn new(alloc: Global, room: u32, fails: Vec<u32>) -> Result<MemSink, NoMemory>
        ensures made { IfOk result (λ s. s ≡ record { bytes = []; room = room; calls = calls_from_one fails.items; faults = 0 }) }
        ensures held { IfOk result (λ s. ⟦<MemSink as Sink>⟧.held s ≡ Some []) }
        ensures faults { IfOk result (λ s. ⟦<MemSink as Sink>⟧.faults s ≡ 0) }
        ensures puts { IfOk result (λ s. ⟦<MemSink as Sink>⟧.puts s ≡ Some 1) }
    {
        Ok(MemSink {
            bytes: Vec::with_capacity(alloc, room as usize)?,
            room,
            calls: Calls::new(fails),
            faults: 0,
        })
    }

    /// The bytes that it holds.
    pub fn held(&self) -> &[u8]
        ensures bytes { result.now ≡ self.now.bytes }
        ensures held { ⟦<MemSink as Sink>⟧.held self.now ≡ Some result.now }
    {
        &self.bytes
    }

    /// Counts a call that puts nothing.
    pub(crate) fn pass_by(&mut self)
        ensures { self.new ≡ passed_by self.old }
    {
        let _ = self.calls.is_failing();
    }
}

impl Sink for MemSink {
    ghost held = { λ s. Some s.bytes };

    ghost faults = { λ s. s.faults };

    ghost puts = { λ s. Some s.calls.next };

    fn put(&mut self, piece: &[u8]) -> Result<(), Failed>
        ensures bytes { Puts (Some self.old.bytes) (Some self.new.bytes) piece.now result }
        ensures cause { HasCause self.old.faults self.new.faults result }
        ensures count { Some self.new.calls.next ≡ one_more (Some self.old.calls.next) }
        ensures exact { is_ok result ≡ takes_piece self.old piece.now }
        ensures after { self.new ≡ after_put self.old piece.now }
    {
        let left = self.room as usize - self.bytes.len();
        if self.calls.is_failing() {
            self.faults = count_fault(self.faults);
            return Err(Failed);
        }
        if piece.len() > left {
            append(&mut self.bytes, &piece[..left]);
            self.faults = count_fault(self.faults);
            return Err(Failed);
        }
        append(&mut self.bytes, piece);
        Ok(())
    }
}

/// Appends a piece for which there is room, without taking memory.
fn append(bytes: &mut Vec<u8>, piece: &[u8])
    requires { vec_len bytes.old + length piece.now ≤ vec_capacity bytes.old }
    ensures items { bytes.new.items ≡ bytes.old.items ++ piece.now }
    ensures capacity { vec_capacity bytes.old ≤ vec_capacity bytes.new }
{
    let _ = bytes.extend_from_slice(piece);
}
