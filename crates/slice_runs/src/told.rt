// What a call says of the buffers.

/// How many bytes a call put to the front of each buffer, and how many steps it did of a run.
#[repr(C)]
#[derive(Clone, Copy, Debug, PartialEq, Eq, Default)]
pub struct Told {
    pub out: usize,
    pub trace: usize,
    pub kept: usize,
    /// An exit is a step that is done, and a fault is none; 0 where nothing was run.
    pub steps: u32,
}
