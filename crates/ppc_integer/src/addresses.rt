ghost use Rattle.std.specs.Prelude.{◌≡◌, ◌<◌};
ghost use Rattle.ppc_isa.specs.Fields.{fields_of};
ghost use Rattle.ppc_integer.specs.File.{base_of};
ghost use Rattle.ppc_integer.specs.Storage.{index_address as index_address_of, offset_address as offset_address_of};

use mix_bits::onward;
use ppc_isa::{RegsPpc, a_of, b_of, offset_of};

/// (A|0): register `a`, or 0 for register 0.
#[inline(always)]
pub fn base(regs: &RegsPpc, a: usize) -> u32
    requires { a < 32 }
    ensures { result ≡ base_of regs.now a }
{
    if a == 0 { 0 } else { regs.gpr[a] }
}

/// The address (A|0) and a signed offset.
#[inline(always)]
pub fn offset_address(regs: &RegsPpc, word: u32) -> u32
    ensures { result ≡ offset_address_of regs.now (fields_of word).a (fields_of word).low }
{
    onward(base(regs, a_of(word)), offset_of(word))
}

/// The address (A|0) and register B.
#[inline(always)]
pub fn index_address(regs: &RegsPpc, word: u32) -> u32
    ensures { result ≡ index_address_of regs.now (fields_of word).a (fields_of word).b }
{
    onward(base(regs, a_of(word)), regs.gpr[b_of(word)])
}
