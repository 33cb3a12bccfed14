ghost use Rattle.std.specs.Prelude.{◌≡◌, [], ◌∷◌, if◌then◌else◌};
ghost use Rattle.ppc_isa.specs.Targets.{branch_target as branch_target_of};
ghost use Rattle.ppc_text.specs.inner.Operands.{listed};
ghost use Rattle.ppc_text.specs.Instructions.{operands};
ghost use Rattle.ppc_text.specs.Operands.{special_number};
ghost use Rattle.ppc_text.specs.declared.operand.Operand.TheVariants.{Displaced as DisplacedOf, Number as NumberOf, Register as RegisterOf, Signed as SignedOf, Target as TargetOf};

use super::operand::Operand::{self, Displaced, Number, Register, Signed, Target};
use super::operand::Operands;
use ppc_isa::{
    Comparison, ConditionMove, InstrPpc, MultipleAccess, Multiplication, ReversedAccess, Rotation,
    SpecialMove, SpecialRegister, StringImmediateAccess, StringIndexedAccess, branch_target,
};

/// Where a branch at an address goes.
fn target(aa: bool, at: u32, displacement: u32) -> Operand
    ensures { result ≡ TargetOf (branch_target_of aa at displacement) }
{
    Target(branch_target(aa, at, displacement))
}

/// A short field of the word.
fn number(field: u8) -> Operand
    ensures { result ≡ NumberOf field }
{
    Number(u16::from(field))
}

/// A register by the number that its field has once the halves are exchanged.
fn special(register: SpecialRegister) -> Operand
    ensures { result ≡ NumberOf (special_number register) }
{
    match register {
        SpecialRegister::Xer => Number(1),
        SpecialRegister::Link => Number(8),
        SpecialRegister::Count => Number(9),
    }
}

/// What a register is compared with.
fn compared(signed: bool, immediate: u16) -> Operand
    ensures { result ≡ (if signed then SignedOf immediate else NumberOf immediate) }
{
    if signed {
        Signed(immediate)
    } else {
        Number(immediate)
    }
}

/// Three registers.
fn three_registers(d: u8, a: u8, b: u8) -> Operands
    ensures { listed result ≡ RegisterOf d ∷ RegisterOf a ∷ RegisterOf b ∷ [] }
{
    Operands::Three(Register(d), Register(a), Register(b))
}

/// Two registers.
fn two_registers(d: u8, a: u8) -> Operands
    ensures { listed result ≡ RegisterOf d ∷ RegisterOf a ∷ [] }
{
    Operands::Two(Register(d), Register(a))
}

/// Two registers and a signed immediate.
fn with_immediate(d: u8, a: u8, immediate: u16) -> Operands
    ensures { listed result ≡ RegisterOf d ∷ RegisterOf a ∷ SignedOf immediate ∷ [] }
{
    Operands::Three(Register(d), Register(a), Signed(immediate))
}

/// A register, and memory at a displacement from another.
fn access(d: u8, offset: u16, a: u8) -> Operands
    ensures { listed result ≡ RegisterOf d ∷ DisplacedOf offset a ∷ [] }
{
    Operands::Two(Register(d), Displaced(offset, a))
}

/// A comparison, with the 0 of words of 32 bits.
fn comparison(field: u8, a: u8, with: Operand) -> Operands
    ensures { listed result ≡ NumberOf field ∷ NumberOf 0 ∷ RegisterOf a ∷ with ∷ [] }
{
    Operands::Four(number(field), Number(0), Register(a), with)
}

/// The operands of an instruction that stands at an address, in the order of its line.
pub fn operands_ppc(i: InstrPpc, at: u32) -> Operands
    ensures { listed result ≡ operands i at }
{
    match i {
        InstrPpc::AddImmediate {
            d,
            a,
            immediate,
            ..
        } => with_immediate(d, a, immediate),
        InstrPpc::AddImmediateCarrying {
            d,
            a,
            immediate,
            ..
        } => with_immediate(d, a, immediate),
        InstrPpc::SubtractFromImmediateCarrying { d, a, immediate } => with_immediate(
            d, a, immediate,
        ),
        InstrPpc::MultiplyLowImmediate { d, a, immediate } => with_immediate(d, a, immediate),
        InstrPpc::CompareImmediate {
            signed,
            field,
            a,
            immediate,
        } => comparison(field, a, compared(signed, immediate)),
        InstrPpc::TrapWordImmediate { to, a, immediate } => Operands::Three(
            number(to),
            Register(a),
            Signed(immediate),
        ),
        InstrPpc::LogicalImmediate {
            a,
            s,
            immediate,
            ..
        } => Operands::Three(Register(a), Register(s), Number(immediate)),
        InstrPpc::Rotate(
            Rotation::RotateLeftImmediate {
                a,
                s,
                sh,
                mb,
                me,
                ..
            },
        ) => Operands::Five(Register(a), Register(s), number(sh), number(mb), number(me)),
        InstrPpc::Rotate(
            Rotation::RotateLeft {
                a,
                s,
                b,
                mb,
                me,
                ..
            },
        ) => Operands::Five(
            Register(a),
            Register(s),
            Register(b),
            number(mb),
            number(me),
        ),
        InstrPpc::BranchConditional {
            bo,
            bi,
            displacement,
            aa,
            ..
        } => Operands::Three(number(bo), number(bi), target(aa, at, displacement)),
        InstrPpc::Branch {
            displacement,
            aa,
            ..
        } => Operands::One(target(aa, at, displacement)),
        InstrPpc::Load { d, a, offset, .. } => access(d, offset, a),
        InstrPpc::Store { s, a, offset, .. } => access(s, offset, a),
        InstrPpc::Multiple(MultipleAccess::LoadMultiple { d, a, offset }) => access(d, offset, a),
        InstrPpc::Multiple(MultipleAccess::StoreMultiple { s, a, offset }) => access(s, offset, a),
        InstrPpc::MoveConditionField { field, from } => Operands::Two(number(field), number(from)),
        InstrPpc::BranchConditionalToRegister { bo, bi, .. } => Operands::Two(
            number(bo),
            number(bi),
        ),
        InstrPpc::ConditionLogical { d, a, b, .. } => Operands::Three(
            number(d),
            number(a),
            number(b),
        ),
        InstrPpc::InstructionSynchronize => Operands::None,
        InstrPpc::Add { d, a, b, .. } => three_registers(d, a, b),
        InstrPpc::AddExtended { d, a, .. } => two_registers(d, a),
        InstrPpc::SubtractFrom { d, a, b, .. } => three_registers(d, a, b),
        InstrPpc::SubtractFromExtended { d, a, .. } => two_registers(d, a),
        InstrPpc::Negate { d, a, .. } => two_registers(d, a),
        InstrPpc::Multiply(Multiplication::MultiplyLow { d, a, b, .. }) => three_registers(d, a, b),
        InstrPpc::Multiply(Multiplication::MultiplyHigh { d, a, b, .. }) => three_registers(
            d, a, b,
        ),
        InstrPpc::Divide { d, a, b, .. } => three_registers(d, a, b),
        InstrPpc::Logical { a, s, b, .. } => three_registers(a, s, b),
        InstrPpc::Unary { a, s, .. } => two_registers(a, s),
        InstrPpc::Shift { a, s, b, .. } => three_registers(a, s, b),
        InstrPpc::ShiftRightAlgebraicImmediate { a, s, sh, .. } => Operands::Three(
            Register(a),
            Register(s),
            number(sh),
        ),
        InstrPpc::CompareOrTrap(Comparison::Compare { field, a, b, .. }) => comparison(
            field,
            a,
            Register(b),
        ),
        InstrPpc::CompareOrTrap(Comparison::TrapWord { to, a, b }) => Operands::Three(
            number(to),
            Register(a),
            Register(b),
        ),
        InstrPpc::LoadIndexed { d, a, b, .. } => three_registers(d, a, b),
        InstrPpc::StoreIndexed { s, a, b, .. } => three_registers(s, a, b),
        InstrPpc::Reversed(ReversedAccess::LoadReversed { d, a, b, .. }) => three_registers(
            d, a, b,
        ),
        InstrPpc::Reversed(ReversedAccess::StoreReversed { s, a, b, .. }) => three_registers(
            s, a, b,
        ),
        InstrPpc::StringImmediate(StringImmediateAccess::LoadStringImmediate { d, a, nb }) =>
            Operands::Three(Register(d), Register(a), number(nb)),
        InstrPpc::StringImmediate(StringImmediateAccess::StoreStringImmediate { s, a, nb }) =>
            Operands::Three(Register(s), Register(a), number(nb)),
        InstrPpc::StringIndexed(StringIndexedAccess::LoadStringIndexed { d, a, b }) =>
            three_registers(d, a, b),
        InstrPpc::StringIndexed(StringIndexedAccess::StoreStringIndexed { s, a, b }) =>
            three_registers(s, a, b),
        InstrPpc::MoveCondition(ConditionMove::MoveFromConditionRegister { d }) => Operands::One(
            Register(d),
        ),
        InstrPpc::MoveCondition(ConditionMove::MoveToConditionFields { mask, s }) => Operands::Two(
            number(mask),
            Register(s),
        ),
        InstrPpc::MoveXerToConditionField { field } => Operands::One(number(field)),
        InstrPpc::MoveSpecial(SpecialMove::MoveFromSpecial { d, register }) => Operands::Two(
            Register(d),
            special(register),
        ),
        InstrPpc::MoveSpecial(SpecialMove::MoveToSpecial { register, s }) => Operands::Two(
            special(register),
            Register(s),
        ),
        InstrPpc::Synchronize => Operands::None,
    }
}
