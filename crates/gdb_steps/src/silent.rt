// A sink for what was told before.
ghost use Rattle.std.specs.Prelude.{◌≡◌, None};

use mix_io::{Failed, Sink};

/// Takes everything, keeps nothing, and tells nothing.
#[derive(Drop)]
pub struct Silent;

impl Sink for Silent {
    ghost held = { λ _. None };

    ghost faults = { λ _. 0 };

    fn put(&mut self, _piece: &[u8]) -> Result<(), Failed> {
        Ok(())
    }
}
