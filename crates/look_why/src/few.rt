// An output for the bytes of one line.
ghost use Rattle.std.specs.Prelude.{◌≡◌, ◌+◌, ◌≤◌, [], Some, length};

use arrayvec::ArrayVec;
use mix_bits::append;
use mix_io::{Failed, Sink};

/// How many bytes it has room for; a line gives at most ten.
const FEW_BYTES: usize = 16;

/// Keeps a few bytes, and fails where there are more.
#[derive(Drop)]
pub struct Few {
    pub bytes: ArrayVec<u8, 16>,
    faults: u64,
}

impl Few {
    ghost use Rattle.std.specs.Prelude.{◌≡◌, [], Some};

    /// With nothing put yet.
    pub fn new() -> Few
        ensures { result.bytes.items ≡ [] }
    {
        Few {
            bytes: ArrayVec::new(),
            faults: 0,
        }
    }
}

impl Sink for Few {
    ghost held = { λ s. Some s.bytes.items };

    ghost faults = { λ s. s.faults };

    fn put(&mut self, piece: &[u8]) -> Result<(), Failed> {
        if piece.len() > FEW_BYTES - self.bytes.len() {
            self.faults = self.faults.saturating_add(1);
            return Err(Failed);
        }
        append(&mut self.bytes, piece);
        Ok(())
    }
}
