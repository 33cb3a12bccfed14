ghost use Rattle.std.specs.Prelude.{◌≡◌, ◌+◌, ◌*◌, ◌%◌, ◌^◌, Ok};
ghost use Rattle.proc_info.specs.SignatureClauses.{params_word, word_of};
ghost use Rattle.proc_info.specs.Signature.{signature_of};
ghost use Rattle.proc_info.specs.Views.{signature};

use super::conv::Shape;
use super::param::Param;
use super::sig::Sig;
use super::size::number_of;

/// The procInfo word of a signature.
pub fn write(sig: &Sig) -> u32
    ensures word { result ≡ word_of (signature sig.now) }
    ensures back { signature_of result ≡ Ok (signature sig.now) }
{
    let head = sig.conv.code() + 16 * number_of(sig.result);
    let shape = sig.conv.shape();
    let params = packed(shape, sig.params());
    match shape {
        Shape::Stack => head.wrapping_add(params << 6),
        Shape::Dispatched => {
            let head = head + 64 * number_of(sig.selector);
            head.wrapping_add(params << 8)
        }
        Shape::Registers => {
            let head = head + 64 * u32::from(sig.place);
            head.wrapping_add(params << 11)
        }
    }
}

/// The parameters as digits of a number, the first one lowest. Those of a signature fit in a word.
fn packed(shape: Shape, params: &[Param]) -> u32
    ensures { result ≡ params_word shape params.now % 2 ^ 32 }
{
    match params {
        [] => 0,
        [first, rest @ ..] => {
            let above = packed(shape, rest);
            match shape {
                Shape::Stack => number_of(first.size).wrapping_add(above << 2),
                Shape::Dispatched => number_of(first.size).wrapping_add(above << 2),
                Shape::Registers => {
                    let lowest = number_of(first.size) + 4 * u32::from(first.reg);
                    lowest.wrapping_add(above << 5)
                }
            }
        }
    }
}
