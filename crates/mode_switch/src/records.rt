// What both sets ask of a routine descriptor.
ghost use Rattle.std.specs.Prelude.{◌≡◌, ◌&&◌, not, unwrap_or};
ghost use Rattle.mix_bits.specs.Faults.{fault_at};
ghost use Rattle.mix_bits.specs.declared.fault.FaultKind.TheVariants.{NoRecord};
ghost use Rattle.proc_info.specs.Codes.{is_dispatched};
ghost use Rattle.routine_desc.specs.Layout.{has_flag};
ghost use Rattle.mode_switch.specs.Views.{crossing, wanted_of};
ghost use Rattle.mode_switch.specs.Wanted.{bad_desc as bad_desc_lem, call_of_record, target_of as target_of_lem};
ghost use Rattle.mode_switch.specs.Wanted.Want.{Refuses};

use crate::{Call, Target, Wanted};
use mix_bits::{Fault, FaultKind, Isa};
use proc_info::Conv;
use routine_desc::{BadDesc, Rec, RoutineFlags, Signed};
use switch_frame::Kind;

/// The fault of a descriptor at an address.
pub fn bad_desc(pc: u32, at: u32, bad: BadDesc) -> Fault
    ensures { result ≡ bad_desc_lem pc at bad }
{
    Fault {
        kind: FaultKind::BadDesc,
        pc,
        detail: at,
        also: bad.code(),
    }
}

/// No record was chosen.
#[cold]
pub fn no_record(pc: u32, selector: Option<u32>) -> Wanted
    ensures { wanted_of result ≡ Refuses (fault_at pc NoRecord (unwrap_or selector 0)) }
{
    Wanted::Refuses(Fault::at(pc, FaultKind::NoRecord, selector.unwrap_or(0)))
}

/// The target of a record.
#[inline(always)]
pub fn target_of(rec: &Rec) -> Target
    ensures { result ≡ target_of_lem rec.now }
{
    match (rec.isa, rec.cfm) {
        (Isa::M68, false) => Target::Code(rec.target),
        (Isa::M68, true) => Target::Vector(rec.target),
        (Isa::Ppc, _) => Target::Vector(rec.target),
    }
}

/// The call of a record by code of a set.
#[inline(always)]
pub fn call_of(caller: Isa, rec: &Rec, signed: &Signed, selector: Option<u32>) -> Call
    ensures { crossing result ≡ call_of_record caller rec.now selector }
{
    let sig = signed.of(rec.info);
    Call {
        kind: Kind::of(caller, rec.isa),
        info: rec.info,
        sig,
        selector,
        passes: passes(sig.conv, rec.flags),
        target: target_of(rec),
    }
}

/// Whether a callee of this convention gets its selector by these flags.
fn passes(conv: Conv, flags: u32) -> bool
    ensures { result ≡ (is_dispatched conv && not (has_flag flags 8)) }
{
    conv.is_dispatched() && !RoutineFlags::DONT_PASS_SELECTOR.is_in(flags)
}
