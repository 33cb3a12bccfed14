ghost use Rattle.std.specs.Prelude.{◌≡◌, Some};
ghost use Rattle.wrapped_forks.specs.Forks.{fork_name};

use std::fmt;

/// A fork of a Macintosh file.
#[derive(Clone, Copy, Debug, PartialEq, Eq)]
pub enum Fork {
    Data,
    Resource,
}

impl Fork {
    fn name(self) -> &'static str
        ensures { result.now ≡ fork_name self }
    {
        match self {
            Fork::Data => "data fork",
            Fork::Resource => "resource fork",
        }
    }
}

impl fmt::Display for Fork {
    ghost output = { λ fork. Some (fork_name fork) };

    fn fmt<W: fmt::Write>(&self, f: &mut fmt::Formatter<W>) -> fmt::Result {
        f.write_str(self.name())
    }
}
