// A watched range.
ghost use Rattle.std.specs.Prelude.{◌≤◌};

use arrayvec::ArrayVec;

/// At most so many bytes are in a range.
pub const BYTES: usize = 64;

/// A range of memory, and the bytes that were seen there.
#[derive(Drop)]
pub struct Watch {
    pub at: u32,
    pub count: u32,
    pub seen: ArrayVec<u8, BYTES>,
    ghost small: { count ≤ 64 },
}
