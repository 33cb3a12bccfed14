ghost use Rattle.std.specs.Prelude.{◌≡◌};
ghost use Rattle.mix_image.specs.declared.error.ImageError.TheVariants.{NoMemory as WantOfMemory};

use mix_bits::NoMemory;
use std::alloc::AllocError;

/// Why bytes are not an image, in the order of the tests, but for want of memory.
#[derive(Clone, Copy, Debug, PartialEq, Eq)]
pub enum ImageError {
    /// There was no memory for the machine.
    NoMemory,
    /// The length of the bytes, which end within a field.
    Short(u32),
    /// The first eight bytes are not the text `MIXIMG01`.
    Magic,
    /// The number of KiB of RAM, which is not 128 to 16384.
    Ram(u32),
    /// The number of the main program's instruction set, which is neither 0 nor 1.
    Main(u32),
    /// The stack pointer at the start, which is not that of the main program's set.
    StartSp(u32),
    /// The heap's bounds are none.
    Heap,
    /// The number of blocks, if it is above 4096, or else that of the block that cannot stand behind those before it.
    Block(u32),
    /// The number of the active instruction set, which is neither 0 nor 1.
    Active(u32),
    /// The long of the condition codes, which has more than five bits.
    Ccr(u32),
    /// The number of the page that begins with another byte than 0 or 1, or is spelled though it is all zeros.
    Page(u32),
    /// The place of the first byte behind the last field.
    Extra(u32),
    /// The address of the first long of the gate page that is not as the page has it.
    Gate(u32),
    /// Where the innermost frame begins that is not right there, 0 where there is none and another set than the main program's
    /// is active.
    Frame(u32),
}

impl From<NoMemory> for ImageError {
    ghost from_gives = { λ _ e. e ≡ WantOfMemory };

    fn from(_: NoMemory) -> Self {
        ImageError::NoMemory
    }
}

impl From<AllocError> for ImageError {
    ghost from_gives = { λ _ e. e ≡ WantOfMemory };

    fn from(_: AllocError) -> Self {
        ImageError::NoMemory
    }
}
