// Unpacking pattern data.
ghost use Rattle.std.specs.Prelude.{◌≡◌, ◌≤◌, length, OnOk};
ghost use Rattle.mix_bits.specs.declared.file.TheConstants.{MOST_BYTES};
ghost use Rattle.std.specs.Result.{result_err};
ghost use Rattle.big_memory.specs.Lists.{put};
ghost use Rattle.pef_reloc.specs.Pattern.{unpacked};

use crate::error::RelocError;
use crate::piece::read_piece;
use crate::writing::{size_of, write_piece};

/// Unpacks pattern data into all of `to`.
///
/// The one refusal is [`RelocError::Pattern`]. After it `to` begins with what was written so far.
pub fn unpack(from: &[u8], to: &mut [u8]) -> Result<(), RelocError>
    requires { length from.now ≤ MOST_BYTES }
    ensures refusal { result_err result ≡ (unpacked from.now (length to.old)).refusal }
    ensures written { to.new ≡ put 0 (unpacked from.now (length to.old)).written to.old }
    ensures whole { OnOk result (to.new ≡ (unpacked from.now (length to.old)).written) }
{
    let mut rest = from;
    let mut at = 0;
    while !rest.is_empty() {
        let place = (from.len() - rest.len()) as u32;
        let Some((piece, behind)) = read_piece(rest) else {
            return Err(RelocError::Pattern(place));
        };
        let size = size_of(piece) as usize;
        if size > to.len() - at {
            return Err(RelocError::Pattern(place));
        }
        write_piece(to, at, size, piece);
        at += size;
        rest = behind;
    }
    if at < to.len() {
        return Err(RelocError::Pattern(from.len() as u32));
    }
    Ok(())
}
