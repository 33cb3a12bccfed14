// A keeper that stands for a buffer of a caller.
ghost use Rattle.std.specs.Prelude.{◌≡◌, IfOk, Some, is_err, is_ok};
ghost use Rattle.mix_io.specs.CountsClauses.{NamedCause};
ghost use Rattle.mix_io.specs.KeptClauses.{Saves};
ghost use Rattle.slice_parts.specs.Buffers.{IsWithin, ShowsKept, buffer, kept_of};
ghost use Rattle.slice_parts.specs.Rooms.{RoomKept, after_keep, empty_keep, faults_for, keeps_piece};

use super::room::Room;
use mix_io::{Failed, Keeper, NoMemory, Sink};
use std::alloc::Global;
use std::marker::Model;

/// The one name under which something can be kept.
pub const NAME: &str = "kept";

/// Keeps the pieces of its name, up to as many bytes as the buffer has. Every other name fails.
#[derive(Drop)]
pub struct RoomKeep {
    pieces: Room,
    other_faults: u64,
}

impl Model for RoomKeep {
    ghost Value = { RoomKept };

    ghost view = { λ s. record { pieces = s.pieces; other_faults = s.other_faults } };
}

impl RoomKeep {
    /// Reserves room for so many bytes.
    pub fn new(alloc: Global, room: usize) -> Result<RoomKeep, NoMemory>
        ensures { IfOk result (λ s. s ≡ empty_keep room) }
    {
        Ok(RoomKeep {
            pieces: Room::new(alloc, room)?,
            other_faults: 0,
        })
    }

    /// Copies what it keeps to the front of its buffer, and answers how many bytes these are.
    pub fn copy_to(&self, into: &mut [u8]) -> usize
        ensures shows { ShowsKept (Some (kept_of self.now.pieces.room self.now.pieces.bytes)) (faults_for self.now) (buffer into.old into.new result) }
        ensures within { IsWithin (buffer into.old into.new result) }
    {
        self.pieces.copy_to(into)
    }
}

impl Keeper for RoomKeep {
    ghost kept = { λ s. Some (kept_of s.pieces.room s.pieces.bytes) };

    ghost faults = { faults_for };

    fn keep(&mut self, name: &str, piece: &[u8]) -> Result<(), Failed>
        ensures bytes { Saves (Some (kept_of self.old.pieces.room self.old.pieces.bytes)) (Some (kept_of self.new.pieces.room self.new.pieces.bytes)) name.now piece.now result }
        ensures cause { NamedCause (faults_for self.old) (faults_for self.new) name.now (is_err result) }
        ensures exact { is_ok result ≡ keeps_piece self.old name.now piece.now }
        ensures after { self.new ≡ after_keep self.old name.now piece.now }
    {
        if name == NAME {
            self.pieces.put(piece)
        } else {
            self.other_faults = self.other_faults.saturating_add(1);
            Err(Failed)
        }
    }
}
