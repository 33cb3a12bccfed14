// Lines of pieces.
ghost use Rattle.std.specs.Prelude.{◌≡◌, ◌++◌, IfOk, OnOk, map};
ghost use Rattle.look_text.specs.Pieces.{address_text, joined, piece_text};

use super::pieces::{add, add_bytes, add_dec, add_hex};
use super::place::{add_place, add_ppc_word};
use args_m68::Place;
use mix_bits::NoMemory;
use std::alloc::Global;

/// A piece of a line.
#[derive(Clone, Copy)]
pub enum Piece<'a> {
    Text(&'a str),
    Bytes(&'a [u8]),
    /// A number in decimal.
    Number(u32),
    /// Two, four or eight hexadecimal digits: the lowest of a number.
    Byte(u32),
    Word(u32),
    Long(u32),
    /// Eight hexadecimal digits, or that the address has more.
    Address(u64),
    /// A place in 68K code.
    Place(Place),
    /// The place of a word of a PowerPC call, counted from 0.
    PpcWord(u8),
}

/// The text of pieces.
pub fn line_of(alloc: Global, pieces: &[Piece]) -> Result<Vec<u8>, NoMemory>
    ensures { IfOk result (λ text. text.items ≡ joined (map piece_text pieces.now)) }
{
    let mut text = Vec::new(alloc);
    add_line(&mut text, pieces)?;
    Ok(text)
}

/// Appends pieces, one behind the other.
pub fn add_line(text: &mut Vec<u8>, pieces: &[Piece]) -> Result<(), NoMemory>
    ensures { OnOk result (text.new.items ≡ text.old.items ++ joined (map piece_text pieces.now)) }
{
    match pieces {
        [] => Ok(()),
        [first, rest @ ..] => {
            add_piece(text, *first)?;
            add_line(text, rest)
        }
    }
}

fn add_piece(text: &mut Vec<u8>, piece: Piece) -> Result<(), NoMemory>
    ensures { OnOk result (text.new.items ≡ text.old.items ++ piece_text piece.entry) }
{
    match piece {
        Piece::Text(piece) => add(text, piece),
        Piece::Bytes(piece) => add_bytes(text, piece),
        Piece::Number(v) => add_dec(text, v),
        Piece::Byte(v) => add_hex(text, v, 2),
        Piece::Word(v) => add_hex(text, v, 4),
        Piece::Long(v) => add_hex(text, v, 8),
        Piece::Address(address) => add_address(text, address),
        Piece::Place(place) => add_place(text, place),
        Piece::PpcWord(word) => add_ppc_word(text, word),
    }
}

#[tactic(auto, unfolding(crate::specs::Pieces::address_text))]
fn add_address(text: &mut Vec<u8>, address: u64) -> Result<(), NoMemory>
    ensures { OnOk result (text.new.items ≡ text.old.items ++ address_text address) }
{
    if address < 0x1_0000_0000 {
        add_hex(text, address as u32, 8)
    } else {
        add(text, "above FFFFFFFF")
    }
}
