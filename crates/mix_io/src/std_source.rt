// A source over a reader of std.
ghost use Rattle.std.specs.Prelude.{◌≡◌, ◌↔◌, Option, None, Some, [], Ok, IsTrue, if◌then◌else◌};
ghost use Rattle.std.specs.Bool.{OnTrue};
ghost use Rattle.mix_io.specs.CountsClauses.{HasCause};
ghost use Rattle.mix_io.specs.Takes.{Takes};

use super::counts::count_fault;
use super::errors::Failed;
use super::traits::Source;
use std::io::Read;

/// Takes each byte by one read. A read of no byte is the end, and nothing is read after it, though the
/// reader may have more then, as a terminal does: until the end it tells what its reader tells, of a stream of
/// the system nothing, and from then on that no byte is left.
#[derive(Drop)]
pub struct StdSource<R: Read + Drop> {
    from: R,
    ended: bool,
    faults: u64,
}

impl<R: Read + Drop> StdSource<R> {
    /// A source that reads from a reader, with no fault yet, and not at its end.
    pub fn new(from: R) -> StdSource<R>
        ensures left { ⟦<StdSource<R> as Source>⟧.left result ≡ R.remaining from }
        ensures faults { ⟦<StdSource<R> as Source>⟧.faults result ≡ 0 }
    {
        StdSource {
            from,
            ended: false,
            faults: 0,
        }
    }
}

impl<R: Read + Drop> Source for StdSource<R> {
    ghost left = { λ s. if s.ended then Some [] else R.remaining s.from };

    ghost faults = { λ s. s.faults };

    fn take(&mut self) -> Result<Option<u8>, Failed>
        ensures bytes { Takes (if self.old.ended then Some [] else R.remaining self.old.from) (if self.new.ended then Some [] else R.remaining self.new.from) result }
        ensures ended { OnTrue self.old.ended ((result ≡ Ok None) × (self.new ≡ self.old)) }
        // A read of no byte is the end, and nothing else is.
        ensures raised { IsTrue self.new.ended ↔ (result ≡ Ok None) }
        ensures cause { HasCause self.old.faults self.new.faults result }
    {
        if self.ended {
            return Ok(None);
        }
        let mut byte = [0];
        match self.from.read(&mut byte) {
            Ok(0) => {
                self.ended = true;
                Ok(None)
            }
            Ok(_) => Ok(Some(byte[0])),
            Err(_) => {
                self.faults = count_fault(self.faults);
                Err(Failed)
            }
        }
    }
}
