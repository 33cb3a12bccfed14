ghost use Rattle.std.specs.Prelude.{◌≡◌, ◌↔◌, ℕ, true, false};
ghost use Rattle.std.specs.Str.{bytes_eq};
ghost use Rattle.mix_bits.specs.Names.{name_of};
ghost use Rattle.ppc_text.specs.Listed.{is_name};
ghost use Rattle.asm_ppc.specs.Assembly.{Gives};
ghost use Rattle.asm_ppc.specs.KnownLines.{GivesSome};
ghost use Rattle.asm_ppc.specs.inner.Answering.{assembled, checked as checked_of, text_as};
ghost use Rattle.asm_ppc.specs.declared.assembler.AsmError.TheVariants.{Name as NameError, Operands as OperandsError};

use super::layout::{Layout, spell};
use super::numbers::read;
use super::table::find;
use mix_bits::{Line, split_name};
use ppc_text::{text_long, text_ppc};

/// Why a line gives no word.
#[derive(Clone, Copy, PartialEq)]
pub enum AsmError {
    /// Its name, the bytes before its first space, is that of no text.
    Name,
    /// No word has this text at this address.
    Operands,
}

/// The word of a line that stands at an address: the word whose text there is the line, or the word that `.long`
/// names.
pub fn assemble_ppc(line: &[u8], at: u32) -> Result<u32, AsmError>
    ensures word { (w : ℕ) → (result ≡ Ok w) ↔ Gives line.now at w }
    ensures name { (result ≡ Err NameError) ↔ (is_name (name_of line.now) ≡ false) }
    ensures operands { (result ≡ Err OperandsError) ↔ ((is_name (name_of line.now) ≡ true) × ((w : ℕ) → Gives line.now at w → ⊥)) }
{
    assemble_line(line, at)
}

/// The word of a line that is known to give one: what `assemble_ppc` answers, with no look at its own text.
pub fn known_ppc(line: &[u8], at: u32) -> u32
    requires { GivesSome line.now at }
    ensures { Gives line.now at result }
{
    let (name, rest) = split_name(line);
    match find(name) {
        None => 0,
        Some(spelling) => spell(spelling, read(rest), at),
    }
}

/// What a word's text at an address assembles to there: the word.
pub fn reassembled(word: u32, at: u32) -> Result<u32, AsmError>
    ensures { result ≡ Ok word }
{
    let mut text = Line::new();
    text_ppc(word, at, &mut text);
    assemble_ppc(text.bytes(), at)
}

/// The answer by the table.
fn assemble_line(line: &[u8], at: u32) -> Result<u32, AsmError>
    ensures { result ≡ assembled line.now at }
{
    let (name, rest) = split_name(line);
    match find(name) {
        None => Err(AsmError::Name),
        Some(spelling) => checked(spelling.layout, spell(spelling, read(rest), at), at, line),
    }
}

/// The word, if its text is the line.
fn checked(layout: Layout, word: u32, at: u32, line: &[u8]) -> Result<u32, AsmError>
    ensures { result ≡ checked_of layout word at line.now }
{
    if prints(layout, word, at, line) {
        Ok(word)
    } else {
        Err(AsmError::Operands)
    }
}

/// Whether the line is the word's text.
fn prints(layout: Layout, word: u32, at: u32, line: &[u8]) -> bool
    ensures { result ≡ bytes_eq (text_as layout word at) line.now }
{
    let mut text = Line::new();
    match layout {
        Layout::Long => text_long(word, &mut text),
        _ => text_ppc(word, at, &mut text),
    }
    text.bytes() == line
}
