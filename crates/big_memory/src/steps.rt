ghost use Rattle.std.specs.Prelude.{◌≡◌};
ghost use Rattle.mix_bits.specs.Faults.{fault_at};
ghost use Rattle.big_memory.specs.Faults.{fault_of};
ghost use Rattle.big_memory.specs.Memory.{Memory};
ghost use Rattle.big_memory.specs.StepsClauses.{Does};
ghost use Rattle.big_memory.specs.Steps.After.{Leaves, Stops};

use super::refusals::Access;
use mix_bits::{Fault, FaultKind};

/// What a step of one instruction set did. Beside it stands a cell for a fault.
#[derive(Clone, Copy, PartialEq)]
pub enum Did {
    /// The step is done; the cell means nothing.
    Next,
    /// The host is to go on, with the number in the cell's detail; nothing has changed.
    Leave,
    /// The fault in the cell; nothing has changed.
    Stop,
}

/// Stops the step of the instruction at `pc` by a fault that tells one number. `R` is the set's registers.
#[cold]
#[inline(never)]
pub fn stop<R>(fault: &mut Fault, kind: FaultKind, pc: u32, detail: u32) -> Did
    ensures { (r : R) (m : Memory) → Does (Stops (fault_at pc kind detail)) result fault.new r r m m }
{
    *fault = Fault::at(pc, kind, detail);
    Did::Stop
}

/// Stops the step of the instruction at `pc`, which memory refused an access.
#[cold]
#[inline(never)]
pub fn refuse<R>(fault: &mut Fault, pc: u32, access: Access) -> Did
    ensures { (r : R) (m : Memory) → Does (Stops (fault_of pc access)) result fault.new r r m m }
{
    *fault = access.fault(pc);
    Did::Stop
}

/// Leaves the set's code by a number.
#[cold]
#[inline(never)]
pub fn leave<R>(fault: &mut Fault, number: u32) -> Did
    ensures does { (r : R) (m : Memory) → Does (Leaves number) result fault.new r r m m }
    ensures cell { fault.new ≡ record fault.old { detail = number } }
{
    fault.detail = number;
    Did::Leave
}
