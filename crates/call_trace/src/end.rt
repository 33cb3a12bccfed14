use mix_bits::Isa;

/// How a run ended.
#[derive(Clone, Copy, Debug, PartialEq, Eq)]
pub enum End {
    /// The program ended with this code.
    Exit(u32),
    /// Code of this set came to a step that can't be done.
    Fault(Isa, mix_bits::Fault),
    /// All steps that were allowed are done.
    Limit,
}
