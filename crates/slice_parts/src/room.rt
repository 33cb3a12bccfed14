// A sink that stands for a buffer of a caller.
ghost use Rattle.std.specs.Prelude.{◌≡◌, ◌+◌, ◌<◌, ◌≤◌, ◌++◌, IfOk, is_ok, length, vec_capacity, vec_len};
ghost use Rattle.mix_io.specs.Calls.{one_more};
ghost use Rattle.mix_io.specs.CountsClauses.{HasCause};
ghost use Rattle.mix_io.specs.StreamsClauses.{output};
ghost use Rattle.mix_io.specs.Told.{Puts};
ghost use Rattle.slice_parts.specs.Buffers.{IsWithin, Shows, buffer, told_of};
ghost use Rattle.slice_parts.specs.Rooms.{RoomHeld, after_put, empty_room, takes_piece};

use super::buffers::copy;
use mix_io::{Failed, NoMemory, Sink};
use std::alloc::Global;
use std::marker::Model;

/// Holds what is put, up to as many bytes as the buffer has: it fails exactly where a piece exceeds the room that is left,
/// and holds what fits.
#[derive(Drop)]
pub struct Room {
    bytes: Vec<u8>,
    room: usize,
    faults: u64,
}

impl Model for Room {
    ghost Value = { RoomHeld };

    ghost view = { λ s. record {
      room = s.room;
      bytes = s.bytes.items;
      faults = s.faults;
    } };

    ghost invariant = { λ s. (length s.bytes.items ≤ s.room) × (s.room ≤ vec_capacity s.bytes) × (0 < s.faults → length s.bytes.items ≡ s.room) };
}

impl Room {
    /// Reserves room for so many bytes.
    pub fn new(alloc: Global, room: usize) -> Result<Room, NoMemory>
        ensures { IfOk result (λ s. s ≡ empty_room room) }
    {
        Ok(Room {
            bytes: Vec::with_capacity(alloc, room)?,
            room,
            faults: 0,
        })
    }

    /// Copies what it holds to the front of its buffer, and answers how many bytes these are.
    pub fn copy_to(&self, into: &mut [u8]) -> usize
        ensures shows { Shows (output (told_of self.now.room self.now.bytes) self.now.faults) (buffer into.old into.new result) }
        ensures within { IsWithin (buffer into.old into.new result) }
    {
        copy(&self.bytes, into)
    }
}

impl Sink for Room {
    ghost held = { λ s. told_of s.room s.bytes };

    ghost faults = { λ s. s.faults };

    fn put(&mut self, piece: &[u8]) -> Result<(), Failed>
        ensures bytes { Puts (told_of self.old.room self.old.bytes) (told_of self.new.room self.new.bytes) piece.now result }
        ensures cause { HasCause self.old.faults self.new.faults result }
        ensures count { None ≡ one_more None }
        ensures exact { is_ok result ≡ takes_piece self.old piece.now }
        ensures after { self.new ≡ after_put self.old piece.now }
    {
        let left = self.room - self.bytes.len();
        if piece.len() > left {
            append(&mut self.bytes, &piece[..left]);
            self.faults = self.faults.saturating_add(1);
            return Err(Failed);
        }
        append(&mut self.bytes, piece);
        Ok(())
    }
}

/// Appends a piece for which there is room, without taking memory.
fn append(bytes: &mut Vec<u8>, piece: &[u8])
    requires { vec_len bytes.old + length piece.now ≤ vec_capacity bytes.old }
    ensures items { bytes.new.items ≡ bytes.old.items ++ piece.now }
    ensures capacity { vec_capacity bytes.old ≤ vec_capacity bytes.new }
{
    let _ = bytes.extend_from_slice(piece);
}
