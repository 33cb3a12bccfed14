// A text of lines, from its lines to the last byte.
ghost use Rattle.std.specs.Prelude.{◌≤◌, length};
ghost use Rattle.mix_bits.specs.declared.file.TheConstants.{MOST_BYTES};
ghost use Rattle.mix_engine.specs.Beside.{AreSame};
ghost use Rattle.mix_io.specs.StreamsClauses.{output};
ghost use Rattle.mix_text.specs.AssemblingClauses.{HasBytes};
ghost use Rattle.mix_text.specs.AssemblingClauses.{OfBytes};
ghost use Rattle.mix_top.specs.inner.World.{EndsIn};
ghost use Rattle.mix_top.specs.World.{Keep, PutsText};
ghost use Rattle.mix_top.specs.Assembling.{AssembleWay};
ghost use Rattle.mix_top.specs.inner.Parts.{beside_lent};

use super::close::close;
use super::ending::Ending;
use super::lines::line_text;
use super::status::{NOT_LOADED, OUTPUT_FAILED, SUCCESS};
use dev_rack::Devices;
use mix_bits::Isa;
use mix_engine::Outside;
use mix_io::{Sink, Source};
use mix_text::{check_text, put_text};

/// Assembles the lines of a text, the first at an address: where none is refused, their bytes go to the output.
pub fn assemble_text<'i, 'o, 't, 'd, I: Source, O: Sink, T: Sink, D: Devices>(
    set: Isa,
    at: u32,
    text: &[u8],
    outside: &mut Outside<'i, 'o, 't, 'd, I, O, T, D>,
) -> Ending
    requires { length text.now ≤ MOST_BYTES }
    ensures ends { (k : Keep) → EndsIn None (AssembleWay set at text.now)
        (beside_lent I.left I.faults O.held O.faults T.held T.faults D.state outside.old k)
        (beside_lent I.left I.faults O.held O.faults T.held T.faults D.state outside.new k)
        result }
    ensures same { AreSame outside.old outside.new }
{
    match check_text(set, text, at) {
        Ok(()) => Ending::without_steps(put_bytes(set, at, text, outside.out)),
        Err(line) => Ending::without_steps(close(
            outside.trace,
            line_text(line).bytes(),
            NOT_LOADED,
        )),
    }
}

/// Puts the bytes of a text of which no line is refused, and answers the status.
fn put_bytes<O: Sink>(set: Isa, at: u32, text: &[u8], out: &mut O) -> u8
    requires { HasBytes set at text.now }
    ensures { OfBytes set at text.now (λ bytes. PutsText (output (O.held out.old) (O.faults out.old)) (output (O.held out.new) (O.faults out.new)) bytes 0 result) }
{
    match put_text(set, text, at, out) {
        Ok(()) => SUCCESS,
        Err(_) => OUTPUT_FAILED,
    }
}
