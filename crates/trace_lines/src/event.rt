use call_trace::End;
use dev_rack::Answer;
use mix_bits::Size;
use switch_frame::Kind;

/// What a line of a trace tells.
#[derive(Clone, Copy)]
pub enum Event {
    /// A call from one set into another.
    Called(Crossing),
    /// A return, with a result of this size.
    Returned(Size, u32),
    /// An ask: the slot, the word and what came of it.
    Asked(u32, u32, Answer),
    /// The end of the run.
    Ended(End),
}

/// A call that crosses.
#[derive(Clone, Copy)]
pub struct Crossing {
    pub kind: Kind,
    pub target: u32,
    /// The procInfo word, which has a signature.
    pub info: u32,
    /// The selector of a dispatched call, else 0.
    pub selector: u32,
    /// How many arguments there are.
    pub count: u8,
    /// The arguments, and 0 past the last one.
    pub args: [u32; 13],
}
