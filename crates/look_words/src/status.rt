//! The statuses, those of mixedrun.

/// All was done.
pub const SUCCESS: u8 = 0;
/// The words were refused.
pub const BAD_WORDS: u8 = 2;
/// A line or a file was refused.
pub const REFUSED: u8 = 3;
/// A file could not be had.
pub const NO_FILE: u8 = 4;
/// The input of a run failed.
pub const INPUT_FAILED: u8 = 5;
/// The output failed.
pub const OUTPUT_FAILED: u8 = 6;
/// The trace of a run failed.
pub const TRACE_FAILED: u8 = 7;
/// There was no memory.
pub const NO_MEMORY: u8 = 9;
