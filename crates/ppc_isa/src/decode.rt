ghost use Rattle.std.specs.Prelude.{◌≡◌, ◌↔◌, IfSome};
ghost use Rattle.ppc_isa.specs.Rows.{decoded};
ghost use Rattle.ppc_isa.specs.Valid.{InRange, Stands};
ghost use Rattle.ppc_isa.specs.declared.instruction.InstrPpc.{InstrPpc};

use super::instruction::InstrPpc;
use super::made::instruction_of;
use super::operation::op_of;

/// The instruction that a word stands for, or None where it stands for none: a word of another
/// opcode, one with a reserved bit set, and the manual's invalid forms.
pub fn decode_ppc(word: u32) -> Option<InstrPpc>
    ensures stands { (i : InstrPpc) → (result ≡ Some i) ↔ Stands i word }
    ensures in_range { IfSome result InRange }
    ensures table { result ≡ decoded word }
{
    instruction_of(op_of(word), word)
}
