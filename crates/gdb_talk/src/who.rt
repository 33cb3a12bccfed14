use mix_bits::Isa;

/// Whom an id means.
#[derive(Clone, Copy, Debug, PartialEq, Eq)]
pub enum Who {
    /// Whoever there is.
    Anyone,
    /// The process of a set.
    One(Isa),
    /// No process that gdb is attached to.
    Nobody,
}
