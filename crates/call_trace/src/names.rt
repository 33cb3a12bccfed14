// The words by which the trace names sets of instructions and faults.
ghost use Rattle.std.specs.Prelude.{◌≡◌, ◌≤◌, length};
ghost use Rattle.call_trace.specs.Names.{fault_name as name_of_fault, set_name as name_of_set, set_names as names_of_sets};

use mix_bits::{FaultKind, Isa};
use switch_frame::Kind;

/// The word for a set of instructions.
pub fn set_name(set: Isa) -> &'static str
    ensures name { result.now ≡ name_of_set set }
    ensures length { length result.now ≡ 3 }
{
    match set {
        Isa::M68 => "68k",
        Isa::Ppc => "ppc",
    }
}

/// The set of the caller and that of the callee.
pub fn set_names(kind: Kind) -> &'static str
    ensures names { result.now ≡ names_of_sets kind }
    ensures length { length result.now ≡ 7 }
{
    match kind {
        Kind::M68ToPpc => "68k ppc",
        Kind::PpcToM68 => "ppc 68k",
        Kind::PpcToPpc => "ppc ppc",
        Kind::M68ToM68 => "68k 68k",
    }
}

/// The word by which a trace's last line and a sample's line name a fault, of at most 12 letters.
pub fn fault_name(kind: FaultKind) -> &'static str
    ensures name { result.now ≡ name_of_fault kind }
    ensures short { length result.now ≤ 12 }
{
    match kind {
        FaultKind::Illegal => "illegal",
        FaultKind::Privileged => "privileged",
        FaultKind::Odd => "odd",
        FaultKind::Outside => "outside",
        FaultKind::GateStore => "gatestore",
        FaultKind::FrameStore => "framestore",
        FaultKind::GateFetch => "gatefetch",
        FaultKind::Vector => "vector",
        FaultKind::BadInstr => "badinstr",
        FaultKind::Trap => "trap",
        FaultKind::NoTrap => "notrap",
        FaultKind::BadDesc => "baddesc",
        FaultKind::Info => "badinfo",
        FaultKind::Mismatch => "mismatch",
        FaultKind::NoRecord => "norecord",
        FaultKind::FramesFull => "framesfull",
        FaultKind::StackOutside => "stackoutside",
        FaultKind::StackCrossed => "stackcrossed",
        FaultKind::StackFull => "stackfull",
        FaultKind::Unmatched => "unmatched",
    }
}
