// Where the longs of a frame stand, in bytes behind its beginning, where the long of the next outer frame stands.

/// The number of the call's kind.
pub const KIND: u32 = 4;

/// The procInfo word.
pub const INFO: u32 = 8;

/// Where the frame ends.
pub const END: u32 = 20;

/// How many frames are live with this one.
pub const DEPTH: u32 = 28;

/// The caller's register file.
pub const FILE: u32 = 32;
