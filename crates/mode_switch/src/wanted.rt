// What code wants when it switches modes.
use mix_bits::Fault;
use proc_info::Sig;
use switch_frame::Kind;

/// What the target of a routine stands for.
#[derive(Clone, Copy, Debug, PartialEq, Eq)]
pub enum Target {
    /// The address of 68K code.
    Code(u32),
    /// The address of a vector of two longs: the code, and its TOC (PowerPC) or its A5 (CFM-68K).
    Vector(u32),
}

impl Target {
    ghost use Rattle.std.specs.Prelude.{◌≡◌};
    ghost use Rattle.mode_switch.specs.Wanted.{address_of};

    /// The address of the code, or of the vector.
    pub fn address(self) -> u32
        ensures { result ≡ address_of self }
    {
        match self {
            Target::Code(address) => address,
            Target::Vector(address) => address,
        }
    }
}

/// A call that suspends its caller.
#[derive(Clone, Copy)]
pub struct Call {
    pub kind: Kind,
    /// The procInfo of the call.
    pub info: u32,
    /// Its signature.
    pub sig: Sig,
    /// The selector of a dispatched call, cut to its size.
    pub selector: Option<u32>,
    /// Whether the callee gets the selector.
    pub passes: bool,
    pub target: Target,
}

/// What code wants.
#[derive(Clone, Copy)]
pub enum Wanted {
    /// A call.
    Calls(Call),
    /// To go on elsewhere in its own set: 68K code that chose a record of 68K code without a vector.
    Jumps(u32),
    /// What it can't have.
    Refuses(Fault),
}
