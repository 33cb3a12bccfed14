// Streams whose bytes are counted.

use mix_io::{Failed, Sink, Source};

/// A stream, and how many bytes it gave or took. What fails is not counted, and nothing above 4294967295.
#[derive(Drop)]
pub struct Counted<S: Drop> {
    stream: S,
    bytes: u32,
}

impl<S: Drop> Counted<S> {
    ghost use Rattle.std.specs.Prelude.{◌≡◌};

    /// A stream of which nothing was counted yet.
    pub fn new(stream: S) -> Counted<S>
        ensures stream { result.stream ≡ stream }
        ensures bytes { result.bytes ≡ 0 }
    {
        Counted { stream, bytes: 0 }
    }

    /// How many bytes were counted.
    pub fn bytes(&self) -> u32
        ensures { result ≡ self.now.bytes }
    {
        self.bytes
    }
}

impl<S: Source + Drop> Source for Counted<S> {
    ghost left = { λ s. S.left s.stream };

    ghost faults = { λ s. S.faults s.stream };

    fn take(&mut self) -> Result<Option<u8>, Failed> {
        let taken = self.stream.take()?;
        if taken.is_some() {
            self.bytes = self.bytes.saturating_add(1);
        }
        Ok(taken)
    }
}

impl<S: Sink + Drop> Sink for Counted<S> {
    ghost held = { λ s. S.held s.stream };

    ghost faults = { λ s. S.faults s.stream };

    ghost puts = { λ s. S.puts s.stream };

    fn put(&mut self, piece: &[u8]) -> Result<(), Failed> {
        self.stream.put(piece)?;
        self.bytes = self
            .bytes
            .saturating_add(piece.len().min(0xFFFF_FFFF) as u32);
        Ok(())
    }
}
