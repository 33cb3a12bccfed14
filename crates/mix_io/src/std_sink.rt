// A sink over a writer of std.
ghost use Rattle.std.specs.Prelude.{◌≡◌};
ghost use Rattle.mix_io.specs.CountsClauses.{HasCause};
ghost use Rattle.mix_io.specs.Told.{Puts};

use super::errors::Failed;
use super::traits::Sink;
use super::write::write_whole;
use std::io::Write;

/// Writes each piece until it is out, and tells what its writer tells: of a stream of the system that is nothing. A
/// write that takes nothing of what is left is a failure.
#[derive(Drop)]
pub struct StdSink<W: Write + Drop> {
    to: W,
    faults: u64,
}

impl<W: Write + Drop> StdSink<W> {
    /// A sink that writes to a writer, with no fault yet.
    pub fn new(to: W) -> StdSink<W>
        ensures held { ⟦<StdSink<W> as Sink>⟧.held result ≡ W.contents to }
        ensures faults { ⟦<StdSink<W> as Sink>⟧.faults result ≡ 0 }
    {
        StdSink { to, faults: 0 }
    }
}

impl<W: Write + Drop> Sink for StdSink<W> {
    ghost held = { λ s. W.contents s.to };

    ghost faults = { λ s. s.faults };

    fn put(&mut self, piece: &[u8]) -> Result<(), Failed>
        ensures bytes { Puts (W.contents self.old.to) (W.contents self.new.to) piece.now result }
        ensures cause { HasCause self.old.faults self.new.faults result }
    {
        write_whole(&mut self.to, &mut self.faults, piece)
    }
}
