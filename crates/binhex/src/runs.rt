// Runs of equal bytes.
ghost use Rattle.std.specs.Prelude.{◌≡◌, ◌+◌, ◌^◌, ◌<◌, ◌≤◌, IfOk};
ghost use Rattle.binhex.specs.inner.Measured.{Measures};
ghost use Rattle.binhex.specs.inner.Spread.{no_run, one_of, run_behind};
ghost use Rattle.binhex.specs.inner.Steps.{Takes};

use crate::error::BinHexError;

/// What stands before the length of a run.
const MARK: u8 = 0x90;

/// How many bytes a file may stand for, both forks and their header.
const MOST: u32 = 0x0200_0000;

/// What a packed byte stands for: so many equal bytes.
#[derive(Clone, Copy)]
pub struct Run {
    /// The last byte so far where there are none.
    pub byte: u8,
    pub count: u8,
    /// Whether the next packed byte is the length of a run.
    pub is_marked: bool,
}

impl Run {
    /// None, before the first packed byte.
    pub fn none() -> Run
        ensures { result ≡ no_run }
    {
        Run {
            byte: 0,
            count: 0,
            is_marked: false,
        }
    }

    fn one(byte: u8) -> Run
        ensures { result ≡ one_of byte }
    {
        Run {
            byte,
            count: 1,
            is_marked: false,
        }
    }

    /// What the next packed byte stands for. The first of a run of bytes stood before its mark; the length 0 stands for a
    /// mark itself.
    pub fn behind(self, packed: u8) -> Run
        ensures { result ≡ run_behind self packed }
    {
        match (self.is_marked, packed) {
            (true, 0) => Run::one(MARK),
            (true, length) => Run {
                count: length - 1,
                is_marked: false,
                ..self
            },
            (false, MARK) => Run {
                count: 0,
                is_marked: true,
                ..self
            },
            (false, byte) => Run::one(byte),
        }
    }
}

/// How many bytes packed ones stand for.
pub fn measure(packed: &[u8]) -> Result<u32, BinHexError>
    ensures { Measures packed.now result }
{
    let mut run = Run::none();
    let mut count = 0;
    for k in 0..packed.len() {
        count = with_run(run, count, packed[k])?;
        run = run.behind(packed[k]);
    }
    if run.is_marked {
        return Err(BinHexError::Run);
    }
    Ok(count)
}

/// The count of bytes with those for which a packed one stands behind a run, where they may be.
fn with_run(run: Run, count: u32, packed: u8) -> Result<u32, BinHexError>
    requires { count ≤ 2 ^ 25 }
    ensures takes { Takes run count packed result }
    ensures few { IfOk result (λ more. more ≤ 2 ^ 25) }
{
    if run.is_marked && packed != 0 && count == 0 {
        return Err(BinHexError::Run);
    }
    let more = count + u32::from(run.behind(packed).count);
    if MOST < more {
        return Err(BinHexError::Long);
    }
    Ok(more)
}
