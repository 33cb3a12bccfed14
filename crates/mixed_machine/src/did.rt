/// What one step of a machine in memory did. The fault, where there is one, stands in a cell beside it.
#[derive(Clone, Copy, PartialEq)]
pub enum Did {
    /// The step is done, by the same code.
    Next,
    /// The step is done: a caller is suspended, and its callee starts.
    Call,
    /// The step is done: the innermost caller goes on.
    Return,
    /// The step is done: the program ended with this code.
    Exit(u32),
    /// The step can't be done, for the fault in the cell.
    Fault,
    /// The input failed, and the step is not done.
    ReadFault,
    /// The output failed, and the step is not done.
    OutFault,
    /// The step is done, and the trace failed at its line.
    TraceFault,
}
