// Why a call on memory is refused.
ghost use Rattle.std.specs.Prelude.{◌≡◌};
ghost use Rattle.big_memory.specs.Faults.{fault_of};

use mix_bits::{Fault, FaultKind};

/// An access that memory refuses, each with its first byte's address.
#[derive(Clone, Copy, Debug, PartialEq, Eq)]
pub enum Access {
    /// A byte of it lies outside memory.
    Outside(u32),
    /// A byte of it lies in the gate page, which no store changes.
    Gate(u32),
    /// A byte of it lies in a guarded unit.
    Frame(u32),
}

impl Access {
    /// The fault of the instruction at `pc`, which was refused this access.
    pub fn fault(self, pc: u32) -> Fault
        ensures { result ≡ fault_of pc self }
    {
        let (kind, detail) = match self {
            Access::Outside(a) => (FaultKind::Outside, a),
            Access::Gate(a) => (FaultKind::GateStore, a),
            Access::Frame(a) => (FaultKind::FrameStore, a),
        };
        Fault::at(pc, kind, detail)
    }
}
