// What a call reads and writes.
ghost use Rattle.std.specs.Prelude.{◌≡◌, [], Some, IfOk};
ghost use Rattle.slice_parts.specs.Rooms.{empty_keep, empty_room};

use super::room::Room;
use super::room_keep::RoomKeep;
use mix_io::{MemSource, NoMemory, Source};
use std::alloc::Global;

/// The input of a call, and what stands for its buffers.
#[derive(Drop)]
pub struct Streams {
    pub input: MemSource,
    pub out: Room,
    pub trace: Room,
    pub keep: RoomKeep,
}

impl Streams {
    /// Copies the input, which never fails, and reserves room for so many bytes of output, of trace and of what is kept.
    pub fn new(
        alloc: Global,
        input: &[u8],
        out: usize,
        trace: usize,
        kept: usize,
    ) -> Result<Streams, NoMemory>
        ensures left { IfOk result (λ s. ⟦<MemSource as Source>⟧.left s.input ≡ Some input.now) }
        ensures faults { IfOk result (λ s. ⟦<MemSource as Source>⟧.faults s.input ≡ 0) }
        ensures never { IfOk result (λ s. s.input.calls.fails ≡ []) }
        ensures out { IfOk result (λ s. s.out ≡ empty_room out) }
        ensures trace { IfOk result (λ s. s.trace ≡ empty_room trace) }
        ensures kept { IfOk result (λ s. s.keep ≡ empty_keep kept) }
    {
        let bytes = Vec::from_slice(alloc, input)?;
        Ok(Streams {
            input: MemSource::new(bytes, Vec::new(alloc)),
            out: Room::new(alloc, out)?,
            trace: Room::new(alloc, trace)?,
            keep: RoomKeep::new(alloc, kept)?,
        })
    }
}
