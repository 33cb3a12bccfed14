use call_trace::End;

/// What the run of a sample did.
#[derive(Clone, Copy, Debug, PartialEq, Eq)]
pub struct Sampled {
    /// How many steps made a switch frame.
    pub calls: u32,
    /// How many steps gave one up.
    pub returns: u32,
    /// How many steps were done; an exit is one, and a fault is none.
    pub steps: u32,
    pub end: End,
}
