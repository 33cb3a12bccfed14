// Comparisons and the condition register.
ghost use Rattle.std.specs.Prelude.{◌≡◌, ◌/◌, ◌+◌, ◌*◌, ◌<◌, ◌==◌};
ghost use Rattle.ppc_isa.specs.Fields.{fields_of};
ghost use Rattle.ppc_isa.specs.declared.instruction.InstrPpc.TheVariants.{CompareImmediate, ConditionLogical, MoveConditionField, MoveXerToConditionField, CompareOrTrap, MoveCondition};
ghost use Rattle.ppc_isa.specs.declared.instruction.Comparison.TheVariants.{Compare};
ghost use Rattle.ppc_isa.specs.declared.instruction.ConditionMove.TheVariants.{MoveFromConditionRegister, MoveToConditionFields};
ghost use Rattle.ppc_integer.specs.Condition.{with_field};
ghost use Rattle.ppc_integer.specs.Conditions.{cr_op as cr_op_of};
ghost use Rattle.ppc_integer.specs.AloneClauses.{Ends};
ghost use Rattle.ppc_integer.specs.Alone.{Runs};

use super::condition::{cr_bit, cr_field, with_cr_bit, with_cr_field, with_cr0};
use super::ending::finish;
use super::mask::{field_mask, insert};
use super::xer::{xer_so, xer_top, xer_without_top};
use big_memory::Did;
use ppc_alu::{CrOp, compare, cr_logic};
use ppc_isa::{
    LogicalOp, RegsPpc, a_of, b_of, d_of, from_field_of, low_of, named_fields_of, offset_of,
    to_field_of,
};

/// cmp and cmpl.
#[inline(always)]
pub fn compare_registers(regs: &mut RegsPpc, word: u32, signed: bool) -> Did
    ensures { let f = fields_of word in Runs (CompareOrTrap (Compare signed (f.d / 4) f.a f.b)) word result regs.old regs.new }
{
    let bits = compare(
        signed,
        regs.gpr[a_of(word)],
        regs.gpr[b_of(word)],
        xer_so(regs.xer),
    );
    compared(regs, word, bits)
}

/// cmpi and cmpli.
#[inline(always)]
pub fn compare_immediate(regs: &mut RegsPpc, word: u32, signed: bool) -> Did
    ensures { let f = fields_of word in Runs (CompareImmediate signed (f.d / 4) f.a f.low) word result regs.old regs.new }
{
    let immediate = if signed {
        offset_of(word)
    } else {
        low_of(word)
    };
    let bits = compare(signed, regs.gpr[a_of(word)], immediate, xer_so(regs.xer));
    compared(regs, word, bits)
}

/// Ends a comparison: its bits go to a field, most often the first.
#[inline(always)]
fn compared(regs: &mut RegsPpc, word: u32, bits: u32) -> Did
    requires { bits < 16 }
    ensures { Ends (record regs.old { cr = with_field regs.old.cr ((fields_of word).d / 4) bits }) result regs.new }
{
    regs.cr = if is_first_field(word) {
        with_cr0(regs.cr, bits)
    } else {
        with_cr_field(regs.cr, to_field_of(word), bits)
    };
    finish(regs)
}

/// Whether the field of the condition register in the place of D is the first, asked of the word itself.
#[inline(always)]
fn is_first_field(word: u32) -> bool
    ensures { result ≡ ((fields_of word).d / 4 == 0) }
{
    word % 0x400_0000 < 0x80_0000
}

/// mcrf.
#[inline(never)]
pub fn move_condition_field(regs: &mut RegsPpc, word: u32) -> Did
    ensures { let f = fields_of word in Runs (MoveConditionField (f.d / 4) (f.a / 4)) word result regs.old regs.new }
{
    let bits = cr_field(regs.cr, from_field_of(word));
    regs.cr = with_cr_field(regs.cr, to_field_of(word), bits);
    finish(regs)
}

/// crand, cror, crxor, crnand, crnor, creqv, crandc and crorc.
#[inline(never)]
pub fn condition_logical(regs: &mut RegsPpc, word: u32, op: LogicalOp) -> Did
    ensures { let f = fields_of word in Runs (ConditionLogical op f.d f.a f.b) word result regs.old regs.new }
{
    let first = cr_bit(regs.cr, a_of(word) as u32);
    let second = cr_bit(regs.cr, b_of(word) as u32);
    let on = cr_logic(cr_op(op), first, second);
    regs.cr = with_cr_bit(regs.cr, d_of(word) as u32, on);
    finish(regs)
}

/// What an instruction does with two bits.
#[inline(always)]
fn cr_op(op: LogicalOp) -> CrOp
    ensures { result ≡ cr_op_of op }
{
    match op {
        LogicalOp::And => CrOp::And,
        LogicalOp::Or => CrOp::Or,
        LogicalOp::Xor => CrOp::Xor,
        LogicalOp::Nand => CrOp::Nand,
        LogicalOp::Nor => CrOp::Nor,
        LogicalOp::Equivalent => CrOp::Eqv,
        LogicalOp::AndComplement => CrOp::Andc,
        LogicalOp::OrComplement => CrOp::Orc,
    }
}

/// mfcr.
#[inline(never)]
pub fn move_from_condition_register(regs: &mut RegsPpc, word: u32) -> Did
    ensures { let f = fields_of word in Runs (MoveCondition (MoveFromConditionRegister f.d)) word result regs.old regs.new }
{
    regs.gpr[d_of(word)] = regs.cr;
    finish(regs)
}

/// mtcrf.
#[inline(never)]
pub fn move_to_condition_fields(regs: &mut RegsPpc, word: u32) -> Did
    ensures { let f = fields_of word in Runs (MoveCondition (MoveToConditionFields (f.a * 16 + f.b / 2) f.d)) word result regs.old regs.new }
{
    regs.cr = insert(
        field_mask(named_fields_of(word)),
        regs.gpr[d_of(word)],
        regs.cr,
    );
    finish(regs)
}

/// mcrxr.
#[inline(never)]
pub fn move_xer_to_condition_field(regs: &mut RegsPpc, word: u32) -> Did
    ensures { let f = fields_of word in Runs (MoveXerToConditionField (f.d / 4)) word result regs.old regs.new }
{
    regs.cr = with_cr_field(regs.cr, to_field_of(word), xer_top(regs.xer));
    regs.xer = xer_without_top(regs.xer);
    finish(regs)
}
