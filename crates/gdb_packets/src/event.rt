/// What a byte of a stream completes.
#[derive(Clone, Copy, Debug, PartialEq, Eq)]
pub enum Event {
    /// A packet whose sum is right.
    Packet,
    /// `+`: the other side has the last packet.
    Acknowledged,
    /// `-`: the other side wants the last packet again.
    Refused,
    /// Byte 3 outside of packets: what runs is asked to stop.
    Interrupt,
    /// A packet whose sum is wrong.
    BadSum,
    /// A packet with more data than there is room for.
    TooLong,
}
