ghost use Rattle.std.specs.Prelude.{◌≡◌, ◌+◌, ◌≤◌, ◌++◌, codes, length};
ghost use Rattle.m68_text.specs.Instructions.{name};
ghost use Rattle.m68_text.specs.Names.{bit_name as bit_name_of, branch_name as branch_name_of, branch_suffix as branch_suffix_of, condition_name as condition_name_of, immediate_name as immediate_name_of, logic_name as logic_name_of, shift_name as shift_name_of, suffix as suffix_of};

use m68_isa::{BitOp, ImmediateOp, Instr68, JumpOp, LogicOp, PlainOp, QuickOp, ShiftOp};
use mix_bits::Size;

/// The name of an instruction: its stem, the condition in it, and its suffix.
#[derive(Clone, Copy)]
pub struct Name {
    pub stem: &'static str,
    pub condition: &'static str,
    pub suffix: &'static str,
}

/// A name without a condition and a suffix.
fn plain(stem: &'static str) -> Name
    ensures stem { result.stem.now ≡ stem.now }
    ensures condition { result.condition.now ≡ codes "" }
    ensures suffix { result.suffix.now ≡ codes "" }
{
    Name {
        stem,
        condition: "",
        suffix: "",
    }
}

/// A name with a size.
fn sized(stem: &'static str, size: Size) -> Name
    ensures stem { result.stem.now ≡ stem.now }
    ensures condition { result.condition.now ≡ codes "" }
    ensures suffix { result.suffix.now ≡ suffix_of size }
    ensures short { length result.suffix.now ≤ 2 }
{
    Name {
        stem,
        condition: "",
        suffix: suffix(size),
    }
}

/// A name with a condition.
fn conditional(stem: &'static str, condition: u8) -> Name
    ensures stem { result.stem.now ≡ stem.now }
    ensures condition { result.condition.now ≡ condition_name_of condition }
    ensures short { length result.condition.now ≤ 2 }
    ensures suffix { result.suffix.now ≡ codes "" }
{
    Name {
        stem,
        condition: condition_name(condition),
        suffix: "",
    }
}

fn suffix(size: Size) -> &'static str
    ensures text { result.now ≡ suffix_of size }
    ensures short { length result.now ≤ 2 }
{
    match size {
        Size::Zero => "",
        Size::One => ".b",
        Size::Two => ".w",
        Size::Four => ".l",
    }
}

fn condition_name(condition: u8) -> &'static str
    ensures text { result.now ≡ condition_name_of condition }
    ensures short { length result.now ≤ 2 }
{
    match condition {
        0 => "t",
        1 => "f",
        2 => "hi",
        3 => "ls",
        4 => "cc",
        5 => "cs",
        6 => "ne",
        7 => "eq",
        8 => "vc",
        9 => "vs",
        10 => "pl",
        11 => "mi",
        12 => "ge",
        13 => "lt",
        14 => "gt",
        _ => "le",
    }
}

fn immediate_name(op: ImmediateOp) -> &'static str
    ensures text { result.now ≡ immediate_name_of op }
    ensures short { length result.now ≤ 4 }
{
    match op {
        ImmediateOp::Ori => "ori",
        ImmediateOp::Andi => "andi",
        ImmediateOp::Subi => "subi",
        ImmediateOp::Addi => "addi",
        ImmediateOp::Eori => "eori",
        ImmediateOp::Cmpi => "cmpi",
    }
}

/// The name with an immediate and the condition codes.
fn logic_name(op: LogicOp) -> &'static str
    ensures text { result.now ≡ logic_name_of op }
    ensures short { length result.now ≤ 4 }
{
    match op {
        LogicOp::And => "andi",
        LogicOp::Or => "ori",
        LogicOp::Eor => "eori",
    }
}

fn bit_name(op: BitOp) -> &'static str
    ensures text { result.now ≡ bit_name_of op }
    ensures short { length result.now ≤ 4 }
{
    match op {
        BitOp::Btst => "btst",
        BitOp::Bchg => "bchg",
        BitOp::Bclr => "bclr",
        BitOp::Bset => "bset",
    }
}

fn shift_name(op: ShiftOp, left: bool) -> &'static str
    ensures text { result.now ≡ shift_name_of op left }
    ensures short { length result.now ≤ 4 }
{
    match (op, left) {
        (ShiftOp::As, true) => "asl",
        (ShiftOp::As, false) => "asr",
        (ShiftOp::Ls, true) => "lsl",
        (ShiftOp::Ls, false) => "lsr",
        (ShiftOp::Rox, true) => "roxl",
        (ShiftOp::Rox, false) => "roxr",
        (ShiftOp::Ro, true) => "rol",
        (ShiftOp::Ro, false) => "ror",
    }
}

/// The suffix of a branch of one or two words.
fn branch_suffix(used: u32) -> &'static str
    ensures text { result.now ≡ branch_suffix_of used }
    ensures short { length result.now ≤ 2 }
{
    match used {
        1 => ".b",
        _ => ".w",
    }
}

/// The name of a branch with this suffix.
fn branch_name(condition: u8, suffix: &'static str) -> Name
    ensures text { result.stem.now ++ (result.condition.now ++ result.suffix.now) ≡ branch_name_of condition ++ suffix.now }
    ensures short { length result.stem.now + length result.condition.now + length result.suffix.now ≤ 3 + length suffix.now }
{
    match condition {
        0 => Name {
            stem: "bra",
            condition: "",
            suffix,
        },
        1 => Name {
            stem: "bsr",
            condition: "",
            suffix,
        },
        _ => Name {
            stem: "b",
            condition: condition_name(condition),
            suffix,
        },
    }
}

/// The name of an instruction of so many words.
pub fn name_of(i: Instr68, used: u32) -> Name
    ensures text { result.stem.now ++ (result.condition.now ++ result.suffix.now) ≡ name i used }
    ensures short { length result.stem.now + length result.condition.now + length result.suffix.now ≤ 8 }
{
    match i {
        Instr68::Immediate { op, size, .. } => sized(immediate_name(op), size),
        Instr68::ImmediateToCcr { op, .. } => plain(logic_name(op)),
        Instr68::BitByRegister { op, .. } => plain(bit_name(op)),
        Instr68::BitByNumber { op, .. } => plain(bit_name(op)),
        Instr68::Movep { size, .. } => sized("movep", size),
        Instr68::Move { size, .. } => sized("move", size),
        Instr68::Movea { size, .. } => sized("movea", size),
        Instr68::Negx { size, .. } => sized("negx", size),
        Instr68::Clr { size, .. } => sized("clr", size),
        Instr68::Neg { size, .. } => sized("neg", size),
        Instr68::Not { size, .. } => sized("not", size),
        Instr68::MoveFromSr { .. } => plain("move"),
        Instr68::MoveToCcr { .. } => plain("move"),
        Instr68::Nbcd { .. } => plain("nbcd"),
        Instr68::Swap { .. } => plain("swap"),
        Instr68::Pea { .. } => plain("pea"),
        Instr68::Ext { size, .. } => sized("ext", size),
        Instr68::ExtByte { .. } => plain("extb.l"),
        Instr68::MovemToMemory { size, .. } => sized("movem", size),
        Instr68::MovemFromMemory { size, .. } => sized("movem", size),
        Instr68::MulLong { signed, .. } => plain(if signed { "muls.l" } else { "mulu.l" }),
        Instr68::DivLong { signed, .. } => plain(if signed { "divs.l" } else { "divu.l" }),
        Instr68::Tst { size, .. } => sized("tst", size),
        Instr68::Tas { .. } => plain("tas"),
        Instr68::Trap { .. } => plain("trap"),
        Instr68::Link { .. } => plain("link"),
        Instr68::LinkLong { .. } => plain("link.l"),
        Instr68::Unlk { .. } => plain("unlk"),
        Instr68::Plain { op: PlainOp::Nop } => plain("nop"),
        Instr68::Plain { op: PlainOp::Rts } => plain("rts"),
        Instr68::Rtd { .. } => plain("rtd"),
        Instr68::Trapv => plain("trapv"),
        Instr68::Rtr => plain("rtr"),
        Instr68::Jump {
            op: JumpOp::Jsr,
            ..
        } => plain("jsr"),
        Instr68::Jump {
            op: JumpOp::Jmp,
            ..
        } => plain("jmp"),
        Instr68::Chk { .. } => plain("chk"),
        Instr68::Lea { .. } => plain("lea"),
        Instr68::Quick {
            op: QuickOp::Addq,
            size,
            ..
        } => sized("addq", size),
        Instr68::Quick {
            op: QuickOp::Subq,
            size,
            ..
        } => sized("subq", size),
        Instr68::Scc { condition, .. } => conditional("s", condition),
        Instr68::Dbcc { condition, .. } => conditional("db", condition),
        Instr68::Bcc { condition, .. } => branch_name(condition, branch_suffix(used)),
        Instr68::BccLong { condition, .. } => branch_name(condition, ".l"),
        Instr68::Moveq { .. } => plain("moveq"),
        Instr68::Or { size, .. } => sized("or", size),
        Instr68::Div { signed, .. } => plain(if signed { "divs" } else { "divu" }),
        Instr68::Sbcd { .. } => plain("sbcd"),
        Instr68::Sub { size, .. } => sized("sub", size),
        Instr68::Suba { size, .. } => sized("suba", size),
        Instr68::Subx { size, .. } => sized("subx", size),
        Instr68::Cmp { size, .. } => sized("cmp", size),
        Instr68::Cmpa { size, .. } => sized("cmpa", size),
        Instr68::Eor { size, .. } => sized("eor", size),
        Instr68::Cmpm { size, .. } => sized("cmpm", size),
        Instr68::And { size, .. } => sized("and", size),
        Instr68::Mul { signed, .. } => plain(if signed { "muls" } else { "mulu" }),
        Instr68::Abcd { .. } => plain("abcd"),
        Instr68::Exg { .. } => plain("exg"),
        Instr68::Add { size, .. } => sized("add", size),
        Instr68::Adda { size, .. } => sized("adda", size),
        Instr68::Addx { size, .. } => sized("addx", size),
        Instr68::Shift { op, left, size, .. } => sized(shift_name(op, left), size),
        Instr68::ShiftMemory { op, left, .. } => plain(shift_name(op, left)),
    }
}
