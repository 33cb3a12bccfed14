ghost use Rattle.std.specs.Prelude.{◌≡◌, ◌+◌, ◌≤◌, ◌++◌, codes, length};
ghost use Rattle.ppc_text.specs.Instructions.{name};
ghost use Rattle.ppc_text.specs.Names.{branch_marks as branch_marks_of, branch_name as branch_name_of, carry_name, extended_name, immediate_name as immediate_name_of, letter as letter_of, load_name as load_name_of, load_reversed_name as load_reversed_name_of, logical_name as logical_name_of, overflow_marks as overflow_marks_of, rotate_name as rotate_name_of, shift_name as shift_name_of, store_name as store_name_of, store_reversed_name as store_reversed_name_of, unary_name as unary_name_of, update};

use ppc_isa::{
    BranchRegister, CarryUse, Comparison, ConditionMove, ExtendedOperand, ImmediateOp, InstrPpc,
    LoadKind, LogicalOp, MaskUse, MultipleAccess, Multiplication, ReversedAccess, ReversedKind,
    Rotation, ShiftOp, SpecialMove, StoreKind, StringImmediateAccess, StringIndexedAccess, UnaryOp,
};

/// The name of an instruction: its stem, and the letters that its word asks for.
#[derive(Clone, Copy)]
pub struct Name {
    pub stem: &'static str,
    pub ending: &'static str,
}

/// A name of two parts.
fn named(stem: &'static str, ending: &'static str) -> Name
    ensures stem { result.stem.now ≡ stem.now }
    ensures ending { result.ending.now ≡ ending.now }
{
    Name { stem, ending }
}

/// A name without an ending.
fn whole(stem: &'static str) -> Name
    ensures stem { result.stem.now ≡ stem.now }
    ensures ending { result.ending.now ≡ codes "" }
{
    Name { stem, ending: "" }
}

/// A letter, where a bit is set.
fn letter(set: bool, text: &'static str) -> &'static str
    ensures text { result.now ≡ letter_of set text.now }
    ensures short { length result.now ≤ length text.now }
{
    if set { text } else { "" }
}

/// The letters of OE and Rc.
fn overflow_marks(oe: bool, rc: bool) -> &'static str
    ensures text { result.now ≡ overflow_marks_of oe rc }
    ensures short { length result.now ≤ 2 }
{
    match (oe, rc) {
        (false, false) => "",
        (false, true) => ".",
        (true, false) => "o",
        (true, true) => "o.",
    }
}

/// The letters of LK and AA.
fn branch_marks(lk: bool, aa: bool) -> &'static str
    ensures text { result.now ≡ branch_marks_of lk aa }
    ensures short { length result.now ≤ 2 }
{
    match (lk, aa) {
        (false, false) => "",
        (false, true) => "a",
        (true, false) => "l",
        (true, true) => "la",
    }
}

/// The ending of an access to the sum of two registers.
fn indexed(u: bool) -> &'static str
    ensures text { result.now ≡ update u ++ codes "x" }
    ensures short { length result.now ≤ 2 }
{
    if u { "ux" } else { "x" }
}

fn sum_name(carry: CarryUse) -> &'static str
    ensures text { result.now ≡ codes "add" ++ carry_name carry }
    ensures short { length result.now ≤ 6 }
{
    match carry {
        CarryUse::Plain => "add",
        CarryUse::Carrying => "addc",
        CarryUse::Extended => "adde",
    }
}

fn extended_sum_name(operand: ExtendedOperand) -> &'static str
    ensures text { result.now ≡ codes "add" ++ extended_name operand }
    ensures short { length result.now ≤ 6 }
{
    match operand {
        ExtendedOperand::Zero => "addze",
        ExtendedOperand::MinusOne => "addme",
    }
}

fn difference_name(carry: CarryUse) -> &'static str
    ensures text { result.now ≡ codes "subf" ++ carry_name carry }
    ensures short { length result.now ≤ 6 }
{
    match carry {
        CarryUse::Plain => "subf",
        CarryUse::Carrying => "subfc",
        CarryUse::Extended => "subfe",
    }
}

fn extended_difference_name(operand: ExtendedOperand) -> &'static str
    ensures text { result.now ≡ codes "subf" ++ extended_name operand }
    ensures short { length result.now ≤ 6 }
{
    match operand {
        ExtendedOperand::Zero => "subfze",
        ExtendedOperand::MinusOne => "subfme",
    }
}

fn immediate_name(op: ImmediateOp) -> &'static str
    ensures text { result.now ≡ immediate_name_of op }
    ensures short { length result.now ≤ 6 }
{
    match op {
        ImmediateOp::Or => "ori",
        ImmediateOp::OrShifted => "oris",
        ImmediateOp::Xor => "xori",
        ImmediateOp::XorShifted => "xoris",
        ImmediateOp::And => "andi.",
        ImmediateOp::AndShifted => "andis.",
    }
}

fn logical_name(op: LogicalOp) -> &'static str
    ensures text { result.now ≡ logical_name_of op }
    ensures short { length result.now ≤ 6 }
{
    match op {
        LogicalOp::And => "and",
        LogicalOp::Or => "or",
        LogicalOp::Xor => "xor",
        LogicalOp::Nand => "nand",
        LogicalOp::Nor => "nor",
        LogicalOp::Equivalent => "eqv",
        LogicalOp::AndComplement => "andc",
        LogicalOp::OrComplement => "orc",
    }
}

fn unary_name(op: UnaryOp) -> &'static str
    ensures text { result.now ≡ unary_name_of op }
    ensures short { length result.now ≤ 6 }
{
    match op {
        UnaryOp::ExtendSignByte => "extsb",
        UnaryOp::ExtendSignHalf => "extsh",
        UnaryOp::CountLeadingZeros => "cntlzw",
    }
}

fn shift_name(op: ShiftOp) -> &'static str
    ensures text { result.now ≡ shift_name_of op }
    ensures short { length result.now ≤ 6 }
{
    match op {
        ShiftOp::Left => "slw",
        ShiftOp::Right => "srw",
        ShiftOp::RightAlgebraic => "sraw",
    }
}

fn rotate_name(outside: MaskUse) -> &'static str
    ensures text { result.now ≡ rotate_name_of outside }
    ensures short { length result.now ≤ 6 }
{
    match outside {
        MaskUse::Insert => "rlwimi",
        MaskUse::Clear => "rlwinm",
    }
}

fn load_name(kind: LoadKind) -> &'static str
    ensures text { result.now ≡ load_name_of kind }
    ensures short { length result.now ≤ 6 }
{
    match kind {
        LoadKind::Word => "lwz",
        LoadKind::Byte => "lbz",
        LoadKind::Half => "lhz",
        LoadKind::HalfAlgebraic => "lha",
    }
}

fn store_name(kind: StoreKind) -> &'static str
    ensures text { result.now ≡ store_name_of kind }
    ensures short { length result.now ≤ 6 }
{
    match kind {
        StoreKind::Word => "stw",
        StoreKind::Byte => "stb",
        StoreKind::Half => "sth",
    }
}

fn load_reversed_name(kind: ReversedKind) -> &'static str
    ensures text { result.now ≡ load_reversed_name_of kind }
    ensures short { length result.now ≤ 6 }
{
    match kind {
        ReversedKind::Word => "lwbrx",
        ReversedKind::Half => "lhbrx",
    }
}

fn store_reversed_name(kind: ReversedKind) -> &'static str
    ensures text { result.now ≡ store_reversed_name_of kind }
    ensures short { length result.now ≤ 6 }
{
    match kind {
        ReversedKind::Word => "stwbrx",
        ReversedKind::Half => "sthbrx",
    }
}

fn branch_name(register: BranchRegister) -> &'static str
    ensures text { result.now ≡ branch_name_of register }
    ensures short { length result.now ≤ 6 }
{
    match register {
        BranchRegister::Link => "bclr",
        BranchRegister::Count => "bcctr",
    }
}

/// The name of an instruction.
pub fn name_of(i: InstrPpc) -> Name
    ensures text { result.stem.now ++ result.ending.now ≡ name i }
    ensures short { length result.stem.now + length result.ending.now ≤ 8 }
{
    match i {
        InstrPpc::AddImmediate { shifted, .. } => named("addi", letter(shifted, "s")),
        InstrPpc::AddImmediateCarrying { rc, .. } => named("addic", letter(rc, ".")),
        InstrPpc::SubtractFromImmediateCarrying { .. } => whole("subfic"),
        InstrPpc::MultiplyLowImmediate { .. } => whole("mulli"),
        InstrPpc::CompareImmediate { signed, .. } => whole(if signed { "cmpi" } else { "cmpli" }),
        InstrPpc::TrapWordImmediate { .. } => whole("twi"),
        InstrPpc::LogicalImmediate { op, .. } => whole(immediate_name(op)),
        InstrPpc::Rotate(Rotation::RotateLeftImmediate { outside, rc, .. }) => named(
            rotate_name(outside),
            letter(rc, "."),
        ),
        InstrPpc::Rotate(Rotation::RotateLeft { rc, .. }) => named("rlwnm", letter(rc, ".")),
        InstrPpc::BranchConditional { aa, lk, .. } => named("bc", branch_marks(lk, aa)),
        InstrPpc::Branch { aa, lk, .. } => named("b", branch_marks(lk, aa)),
        InstrPpc::Load { kind, update, .. } => named(load_name(kind), letter(update, "u")),
        InstrPpc::Store { kind, update, .. } => named(store_name(kind), letter(update, "u")),
        InstrPpc::Multiple(MultipleAccess::LoadMultiple { .. }) => whole("lmw"),
        InstrPpc::Multiple(MultipleAccess::StoreMultiple { .. }) => whole("stmw"),
        InstrPpc::MoveConditionField { .. } => whole("mcrf"),
        InstrPpc::BranchConditionalToRegister { register, lk, .. } => named(
            branch_name(register),
            letter(lk, "l"),
        ),
        InstrPpc::ConditionLogical { op, .. } => named("cr", logical_name(op)),
        InstrPpc::InstructionSynchronize => whole("isync"),
        InstrPpc::Add { carry, oe, rc, .. } => named(sum_name(carry), overflow_marks(oe, rc)),
        InstrPpc::AddExtended {
            operand,
            oe,
            rc,
            ..
        } => named(extended_sum_name(operand), overflow_marks(oe, rc)),
        InstrPpc::SubtractFrom { carry, oe, rc, .. } => named(
            difference_name(carry),
            overflow_marks(oe, rc),
        ),
        InstrPpc::SubtractFromExtended {
            operand,
            oe,
            rc,
            ..
        } => named(extended_difference_name(operand), overflow_marks(oe, rc)),
        InstrPpc::Negate { oe, rc, .. } => named("neg", overflow_marks(oe, rc)),
        InstrPpc::Multiply(Multiplication::MultiplyLow { oe, rc, .. }) => named(
            "mullw",
            overflow_marks(oe, rc),
        ),
        InstrPpc::Multiply(Multiplication::MultiplyHigh { signed, rc, .. }) => named(
            if signed { "mulhw" } else { "mulhwu" },
            letter(rc, "."),
        ),
        InstrPpc::Divide { signed, oe, rc, .. } => named(
            if signed { "divw" } else { "divwu" },
            overflow_marks(oe, rc),
        ),
        InstrPpc::Logical { op, rc, .. } => named(logical_name(op), letter(rc, ".")),
        InstrPpc::Unary { op, rc, .. } => named(unary_name(op), letter(rc, ".")),
        InstrPpc::Shift { op, rc, .. } => named(shift_name(op), letter(rc, ".")),
        InstrPpc::ShiftRightAlgebraicImmediate { rc, .. } => named("srawi", letter(rc, ".")),
        InstrPpc::CompareOrTrap(Comparison::Compare { signed, .. }) => whole(if signed {
            "cmp"
        } else {
            "cmpl"
        }),
        InstrPpc::CompareOrTrap(Comparison::TrapWord { .. }) => whole("tw"),
        InstrPpc::LoadIndexed { kind, update, .. } => named(load_name(kind), indexed(update)),
        InstrPpc::StoreIndexed { kind, update, .. } => named(store_name(kind), indexed(update)),
        InstrPpc::Reversed(ReversedAccess::LoadReversed { kind, .. }) => whole(load_reversed_name(
            kind,
        )),
        InstrPpc::Reversed(ReversedAccess::StoreReversed { kind, .. }) => whole(store_reversed_name(
            kind,
        )),
        InstrPpc::StringImmediate(StringImmediateAccess::LoadStringImmediate { .. }) => whole(
            "lswi",
        ),
        InstrPpc::StringImmediate(StringImmediateAccess::StoreStringImmediate { .. }) => whole(
            "stswi",
        ),
        InstrPpc::StringIndexed(StringIndexedAccess::LoadStringIndexed { .. }) => whole("lswx"),
        InstrPpc::StringIndexed(StringIndexedAccess::StoreStringIndexed { .. }) => whole("stswx"),
        InstrPpc::MoveCondition(ConditionMove::MoveFromConditionRegister { .. }) => whole("mfcr"),
        InstrPpc::MoveCondition(ConditionMove::MoveToConditionFields { .. }) => whole("mtcrf"),
        InstrPpc::MoveXerToConditionField { .. } => whole("mcrxr"),
        InstrPpc::MoveSpecial(SpecialMove::MoveFromSpecial { .. }) => whole("mfspr"),
        InstrPpc::MoveSpecial(SpecialMove::MoveToSpecial { .. }) => whole("mtspr"),
        InstrPpc::Synchronize => whole("sync"),
    }
}
