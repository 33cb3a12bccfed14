// AND, OR and EOR.
ghost use Rattle.std.specs.Prelude.{◌≡◌, ◌≢◌, ◌<◌};
ghost use Rattle.mix_bits.specs.Sizes.{modulus};
ghost use Rattle.mix_bits.specs.declared.size.Size.TheVariants.{Zero};
ghost use Rattle.m68_alu.specs.Logical.{combination};

use super::sizes::result_flags;
use super::sums::Out;
use m68_isa::{Ccr, LogicOp};
use mix_bits::{Size, trunc};

/// AND, OR or EOR: N and Z by the result, V and C cleared, X as it was.
#[inline]
pub fn logic(op: LogicOp, s: Size, dst: u32, src: u32, old: Ccr) -> Out
    requires { s ≢ Zero }
    ensures value { result ≡ combination op s old dst src }
    ensures below { result.value < modulus s }
{
    let d = trunc(dst, s);
    let r = trunc(src, s);
    let value = match op {
        LogicOp::And => d & r,
        LogicOp::Or => d | r,
        LogicOp::Eor => d ^ r,
    };
    Out {
        value,
        ccr: result_flags(s, value, old),
    }
}
