// Why an image is refused, in a sentence.
use look_text::{Piece, line_of};
use mix_bits::NoMemory;
use mix_image::ImageError;
use std::alloc::Global;

/// How many blocks the heap has at most.
const MOST_BLOCKS: u32 = 4096;

/// What stands where a reason has no number.
const NOTHING: Piece = Piece::Text("");

/// Why a file is no image of a machine.
pub fn image_text(alloc: Global, name: &str, error: ImageError) -> Result<Vec<u8>, NoMemory> {
    let (front, number, behind) = reason(error);
    line_of(
        alloc,
        &[
            Piece::Text(name),
            Piece::Text(front),
            number,
            Piece::Text(behind),
        ],
    )
}

/// What is said behind the name of the file: a number, and what stands around it.
fn reason(error: ImageError) -> (&'static str, Piece<'static>, &'static str) {
    match error {
        ImageError::NoMemory => (" takes more memory than there is", NOTHING, ""),
        ImageError::Short(at) => (" ends at ", Piece::Number(at), ", within a field"),
        ImageError::Magic => (" does not begin with MIXIMG01", NOTHING, ""),
        ImageError::Ram(kib) => (": RAM has ", Piece::Number(kib), " KiB, not 128 to 16384"),
        ImageError::Main(set) => (": the main set is ", Piece::Number(set), ", not 0 or 1"),
        ImageError::StartSp(sp) => (
            ": the stack pointer at the start, $",
            Piece::Long(sp),
            ", is not the main set's",
        ),
        ImageError::Heap => (": the bounds of the heap are none", NOTHING, ""),
        ImageError::Block(number) => block_reason(number),
        ImageError::Active(set) => (": the active set is ", Piece::Number(set), ", not 0 or 1"),
        ImageError::Ccr(bits) => (
            ": the condition codes $",
            Piece::Long(bits),
            " have more than five bits",
        ),
        ImageError::Page(page) => (
            ": page ",
            Piece::Number(page),
            " is not spelled as it has to be",
        ),
        ImageError::Extra(at) => (
            " has bytes behind its last field, from ",
            Piece::Number(at),
            " on",
        ),
        ImageError::Gate(at) => (": the gate page is wrong at $", Piece::Long(at), ""),
        ImageError::Frame(0) => (
            ": no frame is live, and the active set is not the main one",
            NOTHING,
            "",
        ),
        ImageError::Frame(at) => (": the frame at $", Piece::Long(at), " is wrong"),
    }
}

/// The same of the blocks of the heap: the number is their count where it is above the most that there may be, and else that of
/// a block.
fn block_reason(number: u32) -> (&'static str, Piece<'static>, &'static str) {
    if number > MOST_BLOCKS {
        (
            ": it has ",
            Piece::Number(number),
            " blocks, more than 4096",
        )
    } else {
        (": block ", Piece::Number(number), " has no place")
    }
}
