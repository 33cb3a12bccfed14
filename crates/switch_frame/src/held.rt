use crate::{Active, Kind};

/// A caller that is suspended while its callee runs.
#[derive(Clone, Copy, Debug, PartialEq, Eq)]
pub struct Held {
    pub kind: Kind,
    /// The whole register file, with the pc behind the call.
    pub caller: Active,
    /// The procInfo of the call.
    pub info: u32,
    /// The selector of a dispatched call, else 0.
    pub selector: u32,
    /// The callee's code, or the vector of PowerPC and CFM-68K code.
    pub target: u32,
    /// Where the frame begins.
    pub lo: u32,
    /// Where the frame ends.
    pub hi: u32,
    /// The stack pointer at which the callee is expected to return.
    pub want_sp: u32,
    /// How many frames are live with this one.
    pub depth: u32,
}
