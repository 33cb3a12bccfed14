/// One of the files of a program.
#[derive(Clone, Copy, Debug, PartialEq, Eq)]
pub enum File {
    /// A flat image.
    Flat,
    /// A resource fork of 68K code.
    Rsrc,
    /// A container of PowerPC code.
    Pef,
}

/// How many bytes a file has at most.
pub const MOST_BYTES: u32 = 16_777_216;

/// How many bytes the image of a kept machine has at most.
pub const IMAGE_BYTES: u32 = 17_825_792;
