/// Where a decoder stands in the stream.
#[derive(Clone, Copy, Debug, PartialEq, Eq)]
pub enum Stage {
    /// Between packets.
    Outside,
    /// In a packet's data.
    Inside,
    /// Behind `}` in a packet's data.
    Escaped,
    /// Behind `#`.
    Sealed,
    /// Behind the first digit of the sum, which this is.
    Half(u8),
}
