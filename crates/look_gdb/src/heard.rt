// What a walk puts.
ghost use Rattle.std.specs.Prelude.{◌≡◌, [], ◌++◌, IfOk, OnOk, Some, None, if◌then◌else◌};
ghost use Rattle.look_gdb.specs.Walks.{bytes_put};

use mix_bits::NoMemory;
use mix_io::{Failed, Sink};
use std::alloc::Global;

/// A sink that keeps what is put, or passes over it.
#[derive(Drop)]
pub struct Heard {
    bytes: Vec<u8>,
    is_kept: bool,
    faults: u64,
}

impl Heard {
    /// A sink without a byte.
    pub fn new(alloc: Global, is_kept: bool) -> Heard
        ensures held { ⟦<Heard as Sink>⟧.held result ≡ (if is_kept then Some [] else None) }
        ensures faults { ⟦<Heard as Sink>⟧.faults result ≡ 0 }
    {
        Heard {
            bytes: Vec::new(alloc),
            is_kept,
            faults: 0,
        }
    }

    /// Appends the bytes that are kept.
    pub fn tell(&self, console: &mut Vec<u8>) -> Result<(), NoMemory>
        ensures { OnOk result (console.new.items ≡ console.old.items ++ bytes_put (⟦<Heard as Sink>⟧.held self.now)) }
    {
        if self.is_kept {
            console.extend_from_slice(&self.bytes)?;
        }
        Ok(())
    }
}

impl Sink for Heard {
    ghost held = { λ s. if s.is_kept then Some s.bytes.items else None };

    ghost faults = { λ s. s.faults };

    fn put(&mut self, piece: &[u8]) -> Result<(), Failed> {
        if !self.is_kept {
            return Ok(());
        }
        match self.bytes.extend_from_slice(piece) {
            Ok(()) => Ok(()),
            Err(_) => {
                self.faults = self.faults.saturating_add(1);
                Err(Failed)
            }
        }
    }
}
