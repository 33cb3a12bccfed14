// Results.
ghost use Rattle.std.specs.Prelude.{◌≡◌};
ghost use Rattle.proc_info.specs.Views.{signature};
ghost use Rattle.args_ppc.specs.Results.{result_in, with_result};

use mix_bits::{Size, trunc};
use ppc_isa::RegsPpc;
use proc_info::Sig;

/// The result of a callee, cut to its size.
pub fn result_ppc(sig: &Sig, regs: &RegsPpc) -> u32
    ensures { result ≡ result_in (signature sig.now) regs.now }
{
    trunc(regs.gpr[3], sig.result)
}

/// Gives a caller its result, cut to its size, if there is one.
pub fn put_result_ppc(sig: &Sig, value: u32, regs: &mut RegsPpc)
    ensures { regs.new ≡ with_result (signature sig.now) value regs.old }
{
    match sig.result {
        Size::Zero => {}
        Size::One | Size::Two | Size::Four => regs.gpr[3] = trunc(value, sig.result),
    }
}
