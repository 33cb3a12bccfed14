// Bytes for which packed ones stand, one after another.
ghost use Rattle.std.specs.Prelude.{◌≡◌, ◌<◌, ◌≤◌, ◌++◌, ◌∷◌, drop, length};
ghost use Rattle.binhex.specs.inner.Spread.{whole};

use crate::runs::Run;
use std::marker::Model;

/// What is left of the bytes for which packed ones stand. Contracts see it as these bytes.
#[derive(Drop)]
pub struct Rest<'a> {
    packed: &'a [u8],
    run: Run,
}

impl<'a> Model for Rest<'a> {
    ghost use Rattle.std.specs.Prelude.{List, ℕ};
    ghost use Rattle.binhex.specs.inner.Spread.{left};

    ghost Value = { List ℕ };

    ghost view = { λ rest. left rest.run rest.packed.now };
}

impl<'a> Rest<'a> {
    /// All bytes for which packed ones stand.
    pub fn new(packed: &'a [u8]) -> Rest<'a>
        ensures { result ≡ whole packed.now }
    {
        Rest {
            packed,
            run: Run::none(),
        }
    }

    /// Takes the next byte.
    pub fn next(&mut self) -> u8
        requires { 0 < length self.old }
        ensures { self.old ≡ result ∷ self.new }
    {
        while self.run.count == 0 {
            self.run = self.run.behind(self.packed[0]);
            self.packed = &self.packed[1..];
        }
        self.run.count -= 1;
        self.run.byte
    }

    /// Passes over so many bytes.
    pub fn skip(&mut self, count: u64)
        requires { count ≤ length self.old }
        ensures { self.new ≡ drop count self.old }
    {
        for _ in 0..count {
            self.next();
        }
    }

    /// Takes as many bytes as there is room for.
    pub fn fill(&mut self, room: &mut [u8])
        requires { length room.old ≤ length self.old }
        ensures { self.old ≡ room.new ++ self.new }
    {
        for j in 0..room.len() {
            room[j] = self.next();
        }
    }
}
