ghost use Rattle.std.specs.Prelude.{◌≡◌, ◌+◌, ◌≤◌, ◌==◌, length, slice_range};
ghost use Rattle.mix_io.specs.Told.{Puts};

use crate::expanded::{Expanded, Place};
use mix_io::Failed;
use std::io::Write;
use std::marker::Model;

/// A fork of a file. Contracts see it as its bytes, which are made as they are put.
#[derive(Drop)]
pub struct Fork<'a> {
    bytes: &'a Expanded,
    place: Place,
}

impl<'a> Model for Fork<'a> {
    ghost use Rattle.std.specs.Prelude.{List, ℕ, ◌+◌, ◌≤◌, length, slice_range};

    ghost Value = { List ℕ };

    ghost view = { λ fork. slice_range fork.bytes.now fork.place.start (fork.place.start + fork.place.length) };

    ghost invariant = { λ fork. fork.place.start + fork.place.length ≤ length fork.bytes.now };
}

impl<'a> Fork<'a> {
    /// The fork at a place.
    pub(crate) fn new(bytes: &'a Expanded, place: Place) -> Fork<'a>
        requires { place.start + place.length ≤ length bytes.now }
        ensures { result ≡ slice_range bytes.now place.start (place.start + place.length) }
    {
        Fork { bytes, place }
    }

    pub fn is_empty(&self) -> bool
        ensures { result ≡ (length self.now == 0) }
    {
        self.place.length == 0
    }

    /// Puts its bytes, a piece at a time.
    pub fn put<W: Write>(&self, out: &mut W) -> Result<(), Failed>
        ensures { Puts (W.contents out.old) (W.contents out.new) self.now result }
    {
        self.bytes.put(self.place, out)
    }
}
