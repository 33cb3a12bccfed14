// Rotations under a mask, and shifts.
ghost use Rattle.std.specs.Prelude.{◌/◌, ◌%◌};
ghost use Rattle.ppc_isa.specs.Fields.{fields_of};
ghost use Rattle.ppc_isa.specs.declared.instruction.ShiftOp.TheVariants.{Left, Right, RightAlgebraic};
ghost use Rattle.ppc_isa.specs.declared.instruction.InstrPpc.TheVariants.{Shift, ShiftRightAlgebraicImmediate, Rotate};
ghost use Rattle.ppc_isa.specs.declared.instruction.Rotation.TheVariants.{RotateLeft, RotateLeftImmediate};
ghost use Rattle.ppc_integer.specs.Alone.{Runs};

use super::ending::{finish, finish_carrying, finish_result};
use super::mask::insert;
use super::results::put_result;
use super::shift::{shift_left, shift_right_logical};
use big_memory::Did;
use ppc_alu::{rotate_mask, shift_right};
use ppc_isa::{MaskUse, RegsPpc, a_of, b_of, d_of, is_last, mask_begin_of, mask_end_of, shift_of};

/// rlwimi and rlwinm.
#[inline(always)]
pub fn rotate_left_immediate(regs: &mut RegsPpc, word: u32, outside: MaskUse) -> Did
    ensures { let f = fields_of word in Runs (Rotate (RotateLeftImmediate outside f.a f.d f.b (f.xo / 32) (f.xo % 32) f.last)) word result regs.old regs.new }
{
    let (rotated, mask) = rotate_mask(
        regs.gpr[d_of(word)],
        shift_of(word),
        mask_begin_of(word),
        mask_end_of(word),
    );
    let value = match outside {
        MaskUse::Insert => insert(mask, rotated, regs.gpr[a_of(word)]),
        MaskUse::Clear => rotated & mask,
    };
    finish_result(regs, a_of(word), is_last(word), value)
}

/// rlwnm.
#[inline(never)]
pub fn rotate_left(regs: &mut RegsPpc, word: u32) -> Did
    ensures { let f = fields_of word in Runs (Rotate (RotateLeft f.a f.d f.b (f.xo / 32) (f.xo % 32) f.last)) word result regs.old regs.new }
{
    let count = regs.gpr[b_of(word)] % 32;
    let (rotated, mask) = rotate_mask(
        regs.gpr[d_of(word)],
        count,
        mask_begin_of(word),
        mask_end_of(word),
    );
    put_result(regs, a_of(word), is_last(word), rotated & mask);
    finish(regs)
}

/// slw.
#[inline(always)]
pub fn shift_word_left(regs: &mut RegsPpc, word: u32) -> Did
    ensures { let f = fields_of word in Runs (Shift Left f.a f.d f.b f.last) word result regs.old regs.new }
{
    let value = shift_left(regs.gpr[d_of(word)], regs.gpr[b_of(word)] % 64);
    finish_result(regs, a_of(word), is_last(word), value)
}

/// srw.
#[inline(always)]
pub fn shift_word_right(regs: &mut RegsPpc, word: u32) -> Did
    ensures { let f = fields_of word in Runs (Shift Right f.a f.d f.b f.last) word result regs.old regs.new }
{
    let value = shift_right_logical(regs.gpr[d_of(word)], regs.gpr[b_of(word)] % 64);
    finish_result(regs, a_of(word), is_last(word), value)
}

/// sraw.
#[inline(never)]
pub fn shift_word_right_algebraic(regs: &mut RegsPpc, word: u32) -> Did
    ensures { let f = fields_of word in Runs (Shift RightAlgebraic f.a f.d f.b f.last) word result regs.old regs.new }
{
    let outcome = shift_right(regs.gpr[d_of(word)], regs.gpr[b_of(word)] % 64);
    finish_carrying(regs, a_of(word), is_last(word), outcome)
}

/// srawi.
#[inline(always)]
pub fn shift_right_algebraic_immediate(regs: &mut RegsPpc, word: u32) -> Did
    ensures { let f = fields_of word in Runs (ShiftRightAlgebraicImmediate f.a f.d f.b f.last) word result regs.old regs.new }
{
    let outcome = shift_right(regs.gpr[d_of(word)], shift_of(word));
    finish_carrying(regs, a_of(word), is_last(word), outcome)
}
