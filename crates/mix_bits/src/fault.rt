ghost use Rattle.std.specs.Prelude.{◌≡◌};
ghost use Rattle.mix_bits.specs.Faults.{fault_at};

/// Why a step of the machine can't be done.
#[derive(Clone, Copy, Debug, PartialEq, Eq)]
pub enum FaultKind {
    /// A 68K word that is no instruction of the 68000, and none of those taken from the 68020.
    Illegal,
    /// A 68K instruction of the supervisor.
    Privileged,
    /// A pc that is odd in 68K code, or no multiple of 4 in PowerPC code.
    Odd,
    /// An access that leaves RAM.
    Outside,
    /// A store into the gate page.
    GateStore,
    /// A store into a live switch frame.
    FrameStore,
    /// An instruction fetched from the gate page, where no gate is.
    GateFetch,
    /// A 68K exception by its vector's number.
    Vector,
    /// A PowerPC word that is no instruction of the host.
    BadInstr,
    /// A PowerPC trap instruction whose condition holds.
    Trap,
    /// A line A word that is no trap of the host.
    NoTrap,
    /// A routine descriptor that can't be used.
    BadDesc,
    /// A procInfo word without a signature.
    Info,
    /// A procInfo word that is not the chosen routine record's.
    Mismatch,
    /// No routine record with this selector.
    NoRecord,
    /// As many switch frames as there may be.
    FramesFull,
    /// A stack pointer outside the stack.
    StackOutside,
    /// A stack pointer above the innermost switch frame.
    StackCrossed,
    /// A callee's stack pointer below the stack.
    StackFull,
    /// A gate reached with another stack pointer or set than the one expected there.
    Unmatched,
}

/// A step that can't be done: why, where, and two words that tell more.
#[derive(Clone, Copy, Debug, PartialEq, Eq)]
pub struct Fault {
    pub kind: FaultKind,
    /// The address of the instruction.
    pub pc: u32,
    /// An address, a word, a number or a stack pointer, by the kind.
    pub detail: u32,
    /// A second such number, or 0.
    pub also: u32,
}

impl Fault {
    /// A fault of the instruction at `pc` that tells one number.
    #[inline(always)]
    pub fn at(pc: u32, kind: FaultKind, detail: u32) -> Fault
        ensures { result ≡ fault_at pc kind detail }
    {
        Fault {
            kind,
            pc,
            detail,
            also: 0,
        }
    }
}
