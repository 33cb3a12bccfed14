use mix_bits::Isa;
use mix_engine::Stop;

/// Where a walk ends, beside the places at which every walk does.
#[derive(Clone, Copy, Debug, PartialEq, Eq)]
pub enum Until {
    /// Nowhere else.
    Stopped,
    /// Where code of this instruction set is active.
    Active(Isa),
}

/// Why a walk ended.
#[derive(Clone, Copy, Debug, PartialEq, Eq)]
pub enum Halt {
    /// The code goes on at an address that is set to stop at.
    Breakpoint,
    /// Bytes of the watched range at this address changed.
    Watched(u32),
    /// Code of the wanted set is active.
    Arrived,
    /// As many steps were done as were allowed.
    Spent,
    /// No step is in front of it.
    Beginning,
    /// The step in front ends the program, or something outside failed at it.
    End(Stop),
    /// A device did not answer again as it had answered before.
    Strayed,
}
