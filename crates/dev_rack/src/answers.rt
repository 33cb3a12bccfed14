// What comes of an ask, and what is noted of it.

/// What comes of an ask.
#[derive(Clone, Copy, Debug, PartialEq, Eq)]
pub enum Answer {
    /// The device's answer.
    Word(u32),
    /// The device was asked, and failed.
    Failed,
    /// The slot holds no device.
    Empty,
    /// The slot holds a device, and the journal has no room for one more ask.
    Full,
}

/// An entry of the journal: a device that was asked, and its answer, or none where it failed.
#[derive(Clone, Copy, Debug, PartialEq, Eq)]
pub struct Asked {
    pub slot: u32,
    pub word: u32,
    pub answer: Option<u32>,
}
