ghost use Rattle.std.specs.Prelude.{◌≡◌};
ghost use Rattle.ppc_isa.specs.Fields.{fields_of};
ghost use Rattle.ppc_isa.specs.Made.{made};
ghost use Rattle.ppc_isa.specs.Rows.{decoded};

use super::fields::{Fields, fields_of};
use super::instruction::{
    BranchRegister, CarryUse, Comparison, ConditionMove, ExtendedOperand, ImmediateOp, InstrPpc,
    LoadKind, LogicalOp, MaskUse, MultipleAccess, Multiplication, ReversedAccess, ReversedKind,
    Rotation, ShiftOp, SpecialMove, SpecialRegister, StoreKind, StringImmediateAccess,
    StringIndexedAccess, UnaryOp,
};
use super::op::OpPpc;
use super::word::{
    far_displacement_of, is_absolute, is_overflow, mask_begin_of, mask_end_of, named_fields_of,
    near_displacement_of,
};

// An instruction of these fields.
macro_rules! made {
    ($row:ident($names:ident::$name:ident) => $($fields:tt)*) => {
        Some(InstrPpc::$row($names::$name { $($fields)* }))
    };
    ($name:ident => $($fields:tt)*) => {
        Some(InstrPpc::$name { $($fields)* })
    };
}

/// The instruction that a word's operation makes of the word's fields.
pub fn instruction_of(op: OpPpc, word: u32) -> Option<InstrPpc>
    requires meaning { decoded word ≡ made op (fields_of word) }
    ensures { result ≡ made op (fields_of word) }
{
    let Fields {
        d,
        a,
        b,
        low,
        last,
        ..
    } = fields_of(word);
    let (aa, oe) = (is_absolute(word), is_overflow(word));
    let (field, from) = (d / 4, a / 4);
    let (mb, me) = (mask_begin_of(word) as u8, mask_end_of(word) as u8);
    match op {
        OpPpc::Twi => made!(TrapWordImmediate => to: d, a, immediate: low),
        OpPpc::Mulli => made!(MultiplyLowImmediate => d, a, immediate: low),
        OpPpc::Subfic => made!(SubtractFromImmediateCarrying => d, a, immediate: low),
        OpPpc::Cmpli => made!(CompareImmediate => signed: false, field, a, immediate: low),
        OpPpc::Cmpi => made!(CompareImmediate => signed: true, field, a, immediate: low),
        OpPpc::Addic => made!(AddImmediateCarrying => rc: false, d, a, immediate: low),
        OpPpc::AddicRecord => made!(AddImmediateCarrying => rc: true, d, a, immediate: low),
        OpPpc::Addi => made!(AddImmediate => shifted: false, d, a, immediate: low),
        OpPpc::Addis => made!(AddImmediate => shifted: true, d, a, immediate: low),
        OpPpc::Bc =>
            made!(BranchConditional => bo: d, bi: a, displacement: near_displacement_of(word), aa, lk: last),
        OpPpc::B => made!(Branch => displacement: far_displacement_of(word), aa, lk: last),
        OpPpc::Rlwimi =>
            made!(Rotate(Rotation::RotateLeftImmediate) => outside: MaskUse::Insert, a, s: d, sh: b, mb, me, rc: last),
        OpPpc::Rlwinm =>
            made!(Rotate(Rotation::RotateLeftImmediate) => outside: MaskUse::Clear, a, s: d, sh: b, mb, me, rc: last),
        OpPpc::Rlwnm => made!(Rotate(Rotation::RotateLeft) => a, s: d, b, mb, me, rc: last),
        OpPpc::Ori => made!(LogicalImmediate => op: ImmediateOp::Or, a, s: d, immediate: low),
        OpPpc::Oris =>
            made!(LogicalImmediate => op: ImmediateOp::OrShifted, a, s: d, immediate: low),
        OpPpc::Xori => made!(LogicalImmediate => op: ImmediateOp::Xor, a, s: d, immediate: low),
        OpPpc::Xoris =>
            made!(LogicalImmediate => op: ImmediateOp::XorShifted, a, s: d, immediate: low),
        OpPpc::Andi => made!(LogicalImmediate => op: ImmediateOp::And, a, s: d, immediate: low),
        OpPpc::Andis =>
            made!(LogicalImmediate => op: ImmediateOp::AndShifted, a, s: d, immediate: low),
        OpPpc::Lwz => made!(Load => kind: LoadKind::Word, update: false, d, a, offset: low),
        OpPpc::Lwzu => made!(Load => kind: LoadKind::Word, update: true, d, a, offset: low),
        OpPpc::Lbz => made!(Load => kind: LoadKind::Byte, update: false, d, a, offset: low),
        OpPpc::Lbzu => made!(Load => kind: LoadKind::Byte, update: true, d, a, offset: low),
        OpPpc::Stw => made!(Store => kind: StoreKind::Word, update: false, s: d, a, offset: low),
        OpPpc::Stwu => made!(Store => kind: StoreKind::Word, update: true, s: d, a, offset: low),
        OpPpc::Stb => made!(Store => kind: StoreKind::Byte, update: false, s: d, a, offset: low),
        OpPpc::Stbu => made!(Store => kind: StoreKind::Byte, update: true, s: d, a, offset: low),
        OpPpc::Lhz => made!(Load => kind: LoadKind::Half, update: false, d, a, offset: low),
        OpPpc::Lhzu => made!(Load => kind: LoadKind::Half, update: true, d, a, offset: low),
        OpPpc::Lha =>
            made!(Load => kind: LoadKind::HalfAlgebraic, update: false, d, a, offset: low),
        OpPpc::Lhau =>
            made!(Load => kind: LoadKind::HalfAlgebraic, update: true, d, a, offset: low),
        OpPpc::Sth => made!(Store => kind: StoreKind::Half, update: false, s: d, a, offset: low),
        OpPpc::Sthu => made!(Store => kind: StoreKind::Half, update: true, s: d, a, offset: low),
        OpPpc::Lmw => made!(Multiple(MultipleAccess::LoadMultiple) => d, a, offset: low),
        OpPpc::Stmw => made!(Multiple(MultipleAccess::StoreMultiple) => s: d, a, offset: low),
        OpPpc::Mcrf => made!(MoveConditionField => field, from),
        OpPpc::Bclr =>
            made!(BranchConditionalToRegister => register: BranchRegister::Link, bo: d, bi: a, lk: last),
        OpPpc::Crnor => made!(ConditionLogical => op: LogicalOp::Nor, d, a, b),
        OpPpc::Crandc => made!(ConditionLogical => op: LogicalOp::AndComplement, d, a, b),
        OpPpc::Isync => Some(InstrPpc::InstructionSynchronize),
        OpPpc::Crxor => made!(ConditionLogical => op: LogicalOp::Xor, d, a, b),
        OpPpc::Crnand => made!(ConditionLogical => op: LogicalOp::Nand, d, a, b),
        OpPpc::Crand => made!(ConditionLogical => op: LogicalOp::And, d, a, b),
        OpPpc::Creqv => made!(ConditionLogical => op: LogicalOp::Equivalent, d, a, b),
        OpPpc::Crorc => made!(ConditionLogical => op: LogicalOp::OrComplement, d, a, b),
        OpPpc::Cror => made!(ConditionLogical => op: LogicalOp::Or, d, a, b),
        OpPpc::Bcctr =>
            made!(BranchConditionalToRegister => register: BranchRegister::Count, bo: d, bi: a, lk: last),
        OpPpc::Cmp => made!(CompareOrTrap(Comparison::Compare) => signed: true, field, a, b),
        OpPpc::Tw => made!(CompareOrTrap(Comparison::TrapWord) => to: d, a, b),
        OpPpc::Subfc => made!(SubtractFrom => carry: CarryUse::Carrying, d, a, b, oe, rc: last),
        OpPpc::Addc => made!(Add => carry: CarryUse::Carrying, d, a, b, oe, rc: last),
        OpPpc::Mulhwu =>
            made!(Multiply(Multiplication::MultiplyHigh) => signed: false, d, a, b, rc: last),
        OpPpc::Mfcr => made!(MoveCondition(ConditionMove::MoveFromConditionRegister) => d),
        OpPpc::Lwzx => made!(LoadIndexed => kind: LoadKind::Word, update: false, d, a, b),
        OpPpc::Slw => made!(Shift => op: ShiftOp::Left, a, s: d, b, rc: last),
        OpPpc::Cntlzw => made!(Unary => op: UnaryOp::CountLeadingZeros, a, s: d, rc: last),
        OpPpc::And => made!(Logical => op: LogicalOp::And, a, s: d, b, rc: last),
        OpPpc::Cmpl => made!(CompareOrTrap(Comparison::Compare) => signed: false, field, a, b),
        OpPpc::Subf => made!(SubtractFrom => carry: CarryUse::Plain, d, a, b, oe, rc: last),
        OpPpc::Lwzux => made!(LoadIndexed => kind: LoadKind::Word, update: true, d, a, b),
        OpPpc::Andc => made!(Logical => op: LogicalOp::AndComplement, a, s: d, b, rc: last),
        OpPpc::Mulhw =>
            made!(Multiply(Multiplication::MultiplyHigh) => signed: true, d, a, b, rc: last),
        OpPpc::Lbzx => made!(LoadIndexed => kind: LoadKind::Byte, update: false, d, a, b),
        OpPpc::Neg => made!(Negate => d, a, oe, rc: last),
        OpPpc::Lbzux => made!(LoadIndexed => kind: LoadKind::Byte, update: true, d, a, b),
        OpPpc::Nor => made!(Logical => op: LogicalOp::Nor, a, s: d, b, rc: last),
        OpPpc::Subfe => made!(SubtractFrom => carry: CarryUse::Extended, d, a, b, oe, rc: last),
        OpPpc::Adde => made!(Add => carry: CarryUse::Extended, d, a, b, oe, rc: last),
        OpPpc::Mtcrf =>
            made!(MoveCondition(ConditionMove::MoveToConditionFields) => mask: named_fields_of(word) as u8, s: d),
        OpPpc::Stwx => made!(StoreIndexed => kind: StoreKind::Word, update: false, s: d, a, b),
        OpPpc::Stwux => made!(StoreIndexed => kind: StoreKind::Word, update: true, s: d, a, b),
        OpPpc::Subfze =>
            made!(SubtractFromExtended => operand: ExtendedOperand::Zero, d, a, oe, rc: last),
        OpPpc::Addze => made!(AddExtended => operand: ExtendedOperand::Zero, d, a, oe, rc: last),
        OpPpc::Stbx => made!(StoreIndexed => kind: StoreKind::Byte, update: false, s: d, a, b),
        OpPpc::Subfme =>
            made!(SubtractFromExtended => operand: ExtendedOperand::MinusOne, d, a, oe, rc: last),
        OpPpc::Addme =>
            made!(AddExtended => operand: ExtendedOperand::MinusOne, d, a, oe, rc: last),
        OpPpc::Mullw => made!(Multiply(Multiplication::MultiplyLow) => d, a, b, oe, rc: last),
        OpPpc::Stbux => made!(StoreIndexed => kind: StoreKind::Byte, update: true, s: d, a, b),
        OpPpc::Add => made!(Add => carry: CarryUse::Plain, d, a, b, oe, rc: last),
        OpPpc::Lhzx => made!(LoadIndexed => kind: LoadKind::Half, update: false, d, a, b),
        OpPpc::Eqv => made!(Logical => op: LogicalOp::Equivalent, a, s: d, b, rc: last),
        OpPpc::Lhzux => made!(LoadIndexed => kind: LoadKind::Half, update: true, d, a, b),
        OpPpc::Xor => made!(Logical => op: LogicalOp::Xor, a, s: d, b, rc: last),
        OpPpc::Mfxer =>
            made!(MoveSpecial(SpecialMove::MoveFromSpecial) => register: SpecialRegister::Xer, d),
        OpPpc::Mflr =>
            made!(MoveSpecial(SpecialMove::MoveFromSpecial) => register: SpecialRegister::Link, d),
        OpPpc::Mfctr =>
            made!(MoveSpecial(SpecialMove::MoveFromSpecial) => register: SpecialRegister::Count, d),
        OpPpc::Lhax => made!(LoadIndexed => kind: LoadKind::HalfAlgebraic, update: false, d, a, b),
        OpPpc::Lhaux => made!(LoadIndexed => kind: LoadKind::HalfAlgebraic, update: true, d, a, b),
        OpPpc::Sthx => made!(StoreIndexed => kind: StoreKind::Half, update: false, s: d, a, b),
        OpPpc::Orc => made!(Logical => op: LogicalOp::OrComplement, a, s: d, b, rc: last),
        OpPpc::Sthux => made!(StoreIndexed => kind: StoreKind::Half, update: true, s: d, a, b),
        OpPpc::Or => made!(Logical => op: LogicalOp::Or, a, s: d, b, rc: last),
        OpPpc::Divwu => made!(Divide => signed: false, d, a, b, oe, rc: last),
        OpPpc::Mtxer =>
            made!(MoveSpecial(SpecialMove::MoveToSpecial) => register: SpecialRegister::Xer, s: d),
        OpPpc::Mtlr =>
            made!(MoveSpecial(SpecialMove::MoveToSpecial) => register: SpecialRegister::Link, s: d),
        OpPpc::Mtctr =>
            made!(MoveSpecial(SpecialMove::MoveToSpecial) => register: SpecialRegister::Count, s: d),
        OpPpc::Nand => made!(Logical => op: LogicalOp::Nand, a, s: d, b, rc: last),
        OpPpc::Divw => made!(Divide => signed: true, d, a, b, oe, rc: last),
        OpPpc::Mcrxr => made!(MoveXerToConditionField => field),
        OpPpc::Lswx => made!(StringIndexed(StringIndexedAccess::LoadStringIndexed) => d, a, b),
        OpPpc::Lwbrx =>
            made!(Reversed(ReversedAccess::LoadReversed) => kind: ReversedKind::Word, d, a, b),
        OpPpc::Srw => made!(Shift => op: ShiftOp::Right, a, s: d, b, rc: last),
        OpPpc::Lswi =>
            made!(StringImmediate(StringImmediateAccess::LoadStringImmediate) => d, a, nb: b),
        OpPpc::Sync => Some(InstrPpc::Synchronize),
        OpPpc::Stswx => made!(StringIndexed(StringIndexedAccess::StoreStringIndexed) => s: d, a, b),
        OpPpc::Stwbrx =>
            made!(Reversed(ReversedAccess::StoreReversed) => kind: ReversedKind::Word, s: d, a, b),
        OpPpc::Stswi =>
            made!(StringImmediate(StringImmediateAccess::StoreStringImmediate) => s: d, a, nb: b),
        OpPpc::Lhbrx =>
            made!(Reversed(ReversedAccess::LoadReversed) => kind: ReversedKind::Half, d, a, b),
        OpPpc::Sraw => made!(Shift => op: ShiftOp::RightAlgebraic, a, s: d, b, rc: last),
        OpPpc::Srawi => made!(ShiftRightAlgebraicImmediate => a, s: d, sh: b, rc: last),
        OpPpc::Sthbrx =>
            made!(Reversed(ReversedAccess::StoreReversed) => kind: ReversedKind::Half, s: d, a, b),
        OpPpc::Extsh => made!(Unary => op: UnaryOp::ExtendSignHalf, a, s: d, rc: last),
        OpPpc::Extsb => made!(Unary => op: UnaryOp::ExtendSignByte, a, s: d, rc: last),
        OpPpc::Invalid => None,
    }
}
