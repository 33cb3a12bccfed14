// Where something stands in the files of a program.
use look_text::{Piece, add_line};
use mix_bits::NoMemory;

/// A piece of a program's files.
#[derive(Clone, Copy)]
pub enum Part {
    Flat,
    /// The CODE resource with this id.
    Code(u16),
    /// The section with this number.
    Section(u32),
}

/// A byte of a piece.
#[derive(Clone, Copy)]
pub struct Place {
    pub part: Part,
    pub offset: u32,
}

/// Appends `PART + OFFSET`.
pub fn add_place(text: &mut Vec<u8>, place: Place) -> Result<(), NoMemory> {
    let (name, number) = match place.part {
        Part::Flat => ("the flat file", Piece::Text("")),
        Part::Code(id) => ("CODE ", Piece::Number(u32::from(id))),
        Part::Section(k) => ("section ", Piece::Number(k)),
    };
    add_line(
        text,
        &[
            Piece::Text(name),
            number,
            Piece::Text(" + "),
            Piece::Long(place.offset),
        ],
    )
}
