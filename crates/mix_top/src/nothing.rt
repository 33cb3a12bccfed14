// An outside that has nothing, keeps nothing and never fails.
ghost use Rattle.std.specs.Prelude.{[], Some, None};

use dev_rack::{Answer, Asked, Devices};
use mix_io::{Failed, Sink, Source};

/// An input without a byte.
#[derive(Drop)]
pub struct NoInput;

impl Source for NoInput {
    ghost left = { λ _. Some [] };

    ghost faults = { λ _. 0 };

    fn take(&mut self) -> Result<Option<u8>, Failed> {
        Ok(None)
    }
}

/// A sink that keeps nothing, and tells nothing.
#[derive(Drop)]
pub struct Nowhere;

impl Sink for Nowhere {
    ghost held = { λ _. None };

    ghost faults = { λ _. 0 };

    fn put(&mut self, _piece: &[u8]) -> Result<(), Failed> {
        Ok(())
    }
}

/// Devices without a slot.
#[derive(Drop)]
pub struct NoDevices;

impl Devices for NoDevices {
    ghost state = { λ _. record { slots = []; journal = [] } };

    fn ask(&mut self, _slot: u32, _word: u32) -> Answer {
        Answer::Empty
    }

    fn eject(&mut self, _slot: u32) -> bool {
        false
    }

    fn journal(&self) -> &[Asked] {
        &[]
    }
}
