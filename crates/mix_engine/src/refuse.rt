// Faults of calls and returns. Nothing has changed where one of them stands in the cell.
ghost use Rattle.std.specs.Prelude.{◌≡◌};
ghost use Rattle.mix_bits.specs.declared.fault.FaultKind.TheVariants.{Unmatched};
ghost use Rattle.big_memory.specs.Faults.{fault_of};
ghost use Rattle.switch_frame.specs.Records.{isa_of};
ghost use Rattle.toolbox.specs.Effects.{Around};
ghost use Rattle.mixed_machine.specs.Enter.{full_fault};
ghost use Rattle.mixed_machine.specs.Machine.{IsWhole, flat};
ghost use Rattle.mixed_machine.specs.Next.Next.{Faults};
ghost use Rattle.switch_frame.specs.Files.{pc_of, sp_of};

use crate::laws::body_laws;
use big_memory::Access;
use mix_bits::{Fault, FaultKind};
use mixed_machine::{Body, Did};
use switch_frame::{Active, Full, MOST_FRAMES};

/// An access that was refused.
#[cold]
#[inline(never)]
pub fn refuse(active: &Active, access: Access, fault: &mut Fault) -> Did
    ensures did { result ≡ Did.Fault }
    ensures cell { fault.new ≡ fault_of (pc_of active.now) access }
{
    *fault = access.fault(active.pc());
    Did::Fault
}

/// A gate reached with another stack pointer, or in another set, than the one expected.
#[cold]
#[inline(never)]
pub fn unmatched(active: &Active, expected: u32, fault: &mut Fault) -> Did
    ensures did { result ≡ Did.Fault }
    ensures cell { fault.new ≡ record { kind = Unmatched; pc = pc_of active.now; detail = sp_of active.now; also = expected } }
{
    stop(active, FaultKind::Unmatched, active.sp(), expected, fault)
}

/// No room for a frame.
#[cold]
#[inline(never)]
pub fn refuse_full(body: &Body, active: &Active, full: Full, fault: &mut Fault) -> Did
    requires { IsWhole body.now (isa_of active.now) }
    ensures did { result ≡ Did.Fault }
    ensures cell { (around : Around) → full_fault (flat body.now active.now around) full ≡ Faults fault.new }
{
    body_laws();
    let floor = body.ram.floor();
    match full {
        Full::Frames => stop(active, FaultKind::FramesFull, MOST_FRAMES, 0, fault),
        Full::Outside(at) => stop(active, FaultKind::StackOutside, at, floor, fault),
        Full::Crossed(lo) => stop(active, FaultKind::StackCrossed, active.sp(), lo, fault),
        Full::Stack(at) => stop(active, FaultKind::StackFull, at, floor, fault),
    }
}

/// A fault at pc that tells two numbers.
fn stop(active: &Active, kind: FaultKind, detail: u32, also: u32, fault: &mut Fault) -> Did
    ensures did { result ≡ Did.Fault }
    ensures cell { fault.new ≡ record { kind = kind; pc = pc_of active.now; detail = detail; also = also } }
{
    *fault = Fault {
        kind,
        pc: active.pc(),
        detail,
        also,
    };
    Did::Fault
}
