use host_heap::Block;
use switch_frame::Active;

/// What a step did to the switch frames, with the range of the frame.
#[derive(Clone, Copy)]
pub enum FrameChange {
    Stays,
    Made { lo: u32, hi: u32 },
    GivenUp { lo: u32, hi: u32 },
}

/// What a step did to the blocks of the heap.
#[derive(Clone, Copy)]
pub enum BlockChange {
    Stays,
    Made(Block),
    Freed(Block),
}

/// What is kept of a step beside the bytes that it changed.
#[derive(Clone, Copy)]
pub struct Head {
    /// The registers before it.
    pub file: Active,
    /// Where the innermost frame began before it.
    pub top: u32,
    pub frame: FrameChange,
    pub block: BlockChange,
    /// How many runs of bytes it changed.
    pub runs: u32,
    /// How many bytes these runs have.
    pub olds: u32,
}

/// The same without the registers.
#[derive(Clone, Copy)]
pub struct Effect {
    pub top: u32,
    pub frame: FrameChange,
    pub block: BlockChange,
    pub runs: u32,
    pub olds: u32,
}

/// Where a run of changed bytes lies.
#[derive(Clone, Copy)]
pub struct Span {
    pub at: u32,
    pub count: u32,
}
