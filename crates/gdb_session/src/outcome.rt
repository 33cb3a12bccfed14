use crate::Halt;

/// What came of a packet.
#[derive(Clone, Copy, Debug, PartialEq, Eq)]
pub enum Outcome {
    /// It was answered.
    Answered,
    /// The machine walked.
    Walked(Halt),
    /// A point was to be set, and whether there was room for it.
    Placed(bool),
    /// A command was done, and whether the machine went elsewhere by it.
    Obeyed(bool),
    /// The talk is at its end.
    Ended,
}
