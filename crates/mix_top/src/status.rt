/// The program ended with code 0; or a listing or an assembled text was put, a script came to its end, or a sample ended
/// with an exit.
pub const SUCCESS: u8 = 0;

/// The program ended with another code.
pub const OTHER_CODE: u8 = 1;

/// The words are no command.
pub const BAD_WORDS: u8 = 2;

/// A file is above the limit or breaks a load rule, an image is refused, or a line of a text or of a script is.
pub const NOT_LOADED: u8 = 3;

/// The shelf failed at a file.
pub const NOT_FETCHED: u8 = 4;

/// The input failed.
pub const INPUT_FAILED: u8 = 5;

/// The output failed.
pub const OUTPUT_FAILED: u8 = 6;

/// The trace failed.
pub const TRACE_FAILED: u8 = 7;

/// The keeper failed.
pub const NOT_KEPT: u8 = 8;

/// There was no memory.
pub const NO_MEMORY: u8 = 9;

/// The program faulted.
pub const FAULTED: u8 = 10;

/// All steps were done.
pub const LIMIT_REACHED: u8 = 11;
