// The bytes of a text.
ghost use Rattle.std.specs.Prelude.{◌^◌, ◌+◌, ◌<◌, ◌≤◌, [], Err, IfErr, OnErr, OnOk, length};
ghost use Rattle.mix_io.specs.Streams.{Breaks, Grows, StopsWithin};
ghost use Rattle.mix_io.specs.StreamsClauses.{output};
ghost use Rattle.mix_text.specs.AssemblingClauses.{HasBytes, OfBytes};
ghost use Rattle.mix_text.specs.Assembling.{IsAssembled};
ghost use Rattle.mix_text.specs.inner.Parts.{Adds};

use super::line::{assemble_line, known_line};
use super::lines::split_line;
use super::refused::Refused;
use arrayvec::ArrayVec;
use mix_bits::{Isa, append, onward};
use mix_io::{Failed, Sink};

/// How many bytes are put at once, at most.
const PIECE_BYTES: usize = 4096;

/// Bytes that wait to be put.
type Piece = ArrayVec<u8, PIECE_BYTES>;

/// Whether each line of a text assembles, the first at an address and each other behind the bytes of those before it;
/// else the first that is refused.
pub fn check_text(set: Isa, text: &[u8], at: u32) -> Result<(), Refused>
    requires { length text.now < 2 ^ 31 }
    ensures whole { OnOk result (HasBytes set at text.now) }
    ensures refused { IfErr result (λ r. IsAssembled set at text.now (Err r)) }
{
    let mut rest = text;
    let mut next = at;
    let mut number: u32 = 1;
    'lines: while !rest.is_empty() {
        let (line, behind) = split_line(rest);
        match assemble_line(set, line, next) {
            Ok(bytes) => next = onward(next, bytes.len() as u32),
            Err(reason) => {
                return Err(Refused {
                    line: number,
                    reason,
                });
            }
        }
        rest = behind;
        number += 1;
    }
    Ok(())
}

/// Puts the bytes of a text of which no line is refused, in pieces of at most 4096 bytes.
pub fn put_text<O: Sink>(set: Isa, text: &[u8], at: u32, out: &mut O) -> Result<(), Failed>
    requires { HasBytes set at text.now }
    ensures whole { OnOk result (OfBytes set at text.now (Grows (output (O.held out.old) (O.faults out.old)) (output (O.held out.new) (O.faults out.new)))) }
    ensures part { OnErr result (OfBytes set at text.now (StopsWithin (output (O.held out.old) (O.faults out.old)) (output (O.held out.new) (O.faults out.new)))) }
{
    let mut piece = ArrayVec::new();
    let mut rest = text;
    let mut next = at;
    'lines: while !rest.is_empty() {
        let (line, behind) = split_line(rest);
        let bytes = known_line(set, line, next);
        rest = behind;
        next = onward(next, bytes.len() as u32);
        add_bytes(&mut piece, &bytes, out)?;
    }
    flush(&piece, out)
}

/// Adds bytes to a piece; where it has no room for them, what it holds is put first.
fn add_bytes<O: Sink>(piece: &mut Piece, bytes: &[u8], out: &mut O) -> Result<(), Failed>
    requires { length bytes.now ≤ 10 }
    ensures whole { OnOk result (Adds (output (O.held out.old) (O.faults out.old)) (output (O.held out.new) (O.faults out.new)) piece.old.items piece.new.items bytes.now) }
    ensures part { OnErr result (Breaks (output (O.held out.old) (O.faults out.old)) (output (O.held out.new) (O.faults out.new)) [] piece.old.items) }
{
    if piece.try_extend_from_slice(bytes).is_ok() {
        return Ok(());
    }
    out.put(piece)?;
    piece.clear();
    append(piece, bytes);
    Ok(())
}

/// Puts what a piece holds; where it is empty, nothing.
fn flush<O: Sink>(piece: &[u8], out: &mut O) -> Result<(), Failed>
    ensures whole { OnOk result (Grows (output (O.held out.old) (O.faults out.old)) (output (O.held out.new) (O.faults out.new)) piece.now) }
    ensures part { OnErr result (Breaks (output (O.held out.old) (O.faults out.old)) (output (O.held out.new) (O.faults out.new)) [] piece.now) }
{
    if piece.is_empty() {
        Ok(())
    } else {
        out.put(piece)
    }
}
