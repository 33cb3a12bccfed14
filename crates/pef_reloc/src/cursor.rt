// The state of a run of relocations, beside the section.
ghost use Rattle.std.specs.Prelude.{◌≡◌, ◌+◌, ◌^◌, ◌<◌};
ghost use Rattle.std.specs.Result.{result_err};
ghost use Rattle.pef_reloc.specs.Additions.{allowed, passed};
ghost use Rattle.pef_reloc.specs.inner.Additions.{begun, moved, work_left};
ghost use Rattle.pef_reloc.specs.inner.Held.{HasNext};

use crate::error::RelocError;
use crate::section::Source;

/// Where a run of relocations stands.
#[derive(Clone, Copy)]
pub struct Cursor {
    /// The place in the section of the next long.
    pub position: u64,
    /// The next import.
    pub index: u32,
    /// What is added for section C.
    pub c: u32,
    /// What is added for section D.
    pub d: u32,
    /// How many more instructions may be run.
    pub left: u32,
    /// The instruction that runs is one too many.
    pub over: bool,
}

impl Cursor {
    /// Moves on without an addition.
    pub fn skip(&mut self, n: u64)
        requires { self.old.position + n < 2 ^ 64 }
        ensures { self.new ≡ moved n self.old }
    {
        self.position += n;
    }

    /// Moves on behind an addition.
    pub fn pass(&mut self, source: Source)
        requires room { self.old.position + 4 < 2 ^ 64 }
        requires next { HasNext source self.old }
        ensures { self.new ≡ passed source self.old }
    {
        self.position += 4;
        if let Source::FromImport = source {
            self.index += 1;
        }
    }

    /// Counts an instruction.
    pub fn begin(&mut self)
        ensures { self.new ≡ begun self.old }
    {
        self.over = self.left == 0;
        self.left = self.left.saturating_sub(1);
    }

    /// A value, unless the instruction that asks for it is one too many.
    pub fn allowed(&self, value: Result<u32, RelocError>) -> Result<u32, RelocError>
        ensures { result ≡ allowed self.now value }
    {
        match value {
            Ok(value) if !self.over => Ok(value),
            Ok(_) => Err(RelocError::Work),
            Err(e) => Err(e),
        }
    }

    /// Ends an instruction.
    pub fn finish(&self) -> Result<(), RelocError>
        ensures { result_err result ≡ work_left self.now }
    {
        if self.over {
            Err(RelocError::Work)
        } else {
            Ok(())
        }
    }
}
