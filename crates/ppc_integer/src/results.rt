ghost use Rattle.std.specs.Prelude.{◌≡◌, ◌<◌};
ghost use Rattle.ppc_integer.specs.Arithmetic.{with_arith};
ghost use Rattle.ppc_integer.specs.File.{onto_next, recorded, with_result};

use super::condition::with_cr0;
use super::xer::{xer_so, xer_with_ca, xer_with_overflow};
use mix_bits::onward;
use ppc_alu::{Arith, compare};
use ppc_isa::RegsPpc;

/// Puts a result into register `n`, and its comparison with 0 into the first field of the condition
/// register where `rc` is set.
#[inline(always)]
pub fn put_result(regs: &mut RegsPpc, n: usize, rc: bool, value: u32)
    requires { n < 32 }
    ensures { regs.new ≡ with_result regs.old n rc value }
{
    regs.gpr[n] = value;
    record(regs, rc, value);
}

/// What an arithmetic instruction sets besides its register.
#[derive(Clone, Copy)]
pub struct Sets {
    /// CA, from the carry.
    pub ca: bool,
    /// OV and SO, from the overflow, with OE.
    pub oe: bool,
    /// The first field of the condition register, from the comparison with 0, with Rc.
    pub rc: bool,
}

/// Puts a sum, a difference, a product, a quotient or a shifted word into register `n`, and what the
/// instruction sets besides, the condition register last.
#[inline(always)]
pub fn put_arith(regs: &mut RegsPpc, n: usize, sets: Sets, outcome: Arith)
    requires { n < 32 }
    ensures { regs.new ≡ with_arith regs.old n sets.ca sets.oe sets.rc outcome }
{
    regs.gpr[n] = outcome.value;
    if sets.ca {
        regs.xer = xer_with_ca(regs.xer, outcome.ca);
    }
    if sets.oe {
        regs.xer = xer_with_overflow(regs.xer, outcome.ov);
    }
    record(regs, sets.rc, outcome.value);
}

/// Compares a result with 0, where `rc` is set.
#[inline(always)]
fn record(regs: &mut RegsPpc, rc: bool, value: u32)
    ensures { regs.new ≡ recorded rc value regs.old }
{
    if rc {
        regs.cr = with_cr0(regs.cr, compare(true, value, 0, xer_so(regs.xer)));
    }
}

/// Goes to the next instruction.
#[inline(always)]
pub fn advance(regs: &mut RegsPpc)
    ensures { regs.new ≡ onto_next regs.old }
{
    regs.pc = onward(regs.pc, 4);
}
