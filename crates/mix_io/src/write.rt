// Whole pieces written to a writer of std, which may take less at once.
ghost use Rattle.mix_io.specs.CountsClauses.{HasCause};
ghost use Rattle.mix_io.specs.Told.{Puts};

use super::counts::count_fault;
use super::errors::Failed;
use std::io::Write;

/// Writes until the whole piece is out, and counts a fault where that fails, as it does where a write
/// takes nothing of what is left.
pub fn write_whole<W: Write>(to: &mut W, faults: &mut u64, piece: &[u8]) -> Result<(), Failed>
    ensures bytes { Puts (W.contents to.old) (W.contents to.new) piece.now result }
    ensures cause { HasCause faults.old faults.new result }
{
    let written = write_on(to, piece);
    if written.is_err() {
        *faults = count_fault(*faults);
    }
    written
}

fn write_on<W: Write>(to: &mut W, piece: &[u8]) -> Result<(), Failed>
    ensures { Puts (W.contents to.old) (W.contents to.new) piece.now result }
{
    let mut done = 0;
    while done < piece.len() {
        match to.write(&piece[done..]) {
            Ok(0) | Err(_) => return Err(Failed),
            Ok(count) => done += count,
        }
    }
    Ok(())
}
