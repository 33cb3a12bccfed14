use gdb_answers::Answer as Said;
use gdb_requests::Point;
use mix_bits::Isa;

/// Where a walk is to end, if nothing stops it earlier.
#[derive(Clone, Copy, Debug, PartialEq, Eq)]
pub enum Goal {
    /// Nowhere else.
    Stop,
    /// Behind one step.
    Step,
    /// Where a step is done and code of this set is active.
    StepOf(Isa),
}

/// A walk of the machine, forward or back.
#[derive(Clone, Copy, Debug, PartialEq, Eq)]
pub struct Walk {
    pub is_back: bool,
    pub goal: Goal,
}

/// What is done at a request.
#[derive(Clone, Copy)]
pub enum Deed {
    /// This is answered.
    Answer(Said),
    /// The machine walks, and the answer tells how it stopped.
    Walk(Walk),
    /// A point is set: from an address, so many bytes.
    Insert(Point, u32, u32),
    /// A point is taken away.
    Remove(Point, u32, u32),
    /// A command of the user's is done.
    Command,
    /// `OK` is answered, and the talk ends.
    Leave,
    /// The talk ends with no answer.
    End,
}
