use mix_bits::Fault;

/// How a run stops.
#[derive(Clone, Copy, Debug, PartialEq, Eq)]
pub enum Stop {
    /// The program ended with this code.
    Exit(u32),
    /// The next step can't be done.
    Fault(Fault),
    /// All steps that were allowed are done.
    Limit,
    /// The input failed at the next step.
    ReadFault,
    /// The output failed at what the next step puts.
    OutFault,
    /// The trace failed at the line of the last step, which is done.
    TraceFault,
}
