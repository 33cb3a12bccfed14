// The input of a program, from some place on.
ghost use Rattle.std.specs.Prelude.{◌≡◌, Some};

use mix_io::{Failed, Source};

/// The bytes that are left of an input.
#[derive(Drop)]
pub struct Rest<'a> {
    pub bytes: &'a [u8],
}

impl<'a> Source for Rest<'a> {
    ghost left = { λ s. Some s.bytes.now };

    ghost faults = { λ _. 0 };

    fn take(&mut self) -> Result<Option<u8>, Failed> {
        match self.bytes.split_first() {
            Some((byte, rest)) => {
                self.bytes = rest;
                Ok(Some(*byte))
            }
            None => Ok(None),
        }
    }
}
