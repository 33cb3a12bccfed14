/// Why a line is refused.
#[derive(Clone, Copy, Debug, PartialEq, Eq)]
pub enum Reason {
    /// The address in front is not the line's.
    Address,
    /// The name is that of no instruction of the set.
    Name,
    /// No instruction has this text at the line's address.
    Operands,
}

/// A line that is refused: its number, counted from 1, and why.
#[derive(Clone, Copy, Debug, PartialEq, Eq)]
pub struct Refused {
    pub line: u32,
    pub reason: Reason,
}
