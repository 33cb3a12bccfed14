ghost use Rattle.std.specs.Prelude.{◌≡◌, ◌≢◌, ◌↔◌, ℕ, List, take, slice_index, true, false, Ok, Err, IfOk};
ghost use Rattle.mix_bits.specs.Names.{name_of};
ghost use Rattle.mix_bits.specs.laws.Names.{rest_of};
ghost use Rattle.m68_isa.specs.declared.instructions.Decoded68.TheVariants.{Short};
ghost use Rattle.m68_isa.specs.Decode.{decoded};
ghost use Rattle.m68_text.specs.Listed.{is_name};
ghost use Rattle.asm_m68.specs.Code.{IsPadded, kept};
ghost use Rattle.asm_m68.specs.laws.Operands.{read_all};
ghost use Rattle.asm_m68.specs.laws.Spelling.{spelled};
ghost use Rattle.asm_m68.specs.Assembly.{Gives, data_text};
ghost use Rattle.asm_m68.specs.KnownLines.{GivesSome};
ghost use Rattle.asm_m68.specs.AssemblyClauses.{IsFew, answer};
ghost use Rattle.asm_m68.specs.laws.Assembly.{count_of};
ghost use Rattle.asm_m68.specs.inner.Answering.{assembled, checked, has_text as has_text_of, prints as prints_of};
ghost use Rattle.asm_m68.specs.declared.assembler.AsmError.TheVariants.{Name as NameError, Operands as OperandsError};

use super::code::Code68;
use super::form::Form;
use super::operands::read_operands;
use super::spelling::spell;
use super::table::form_of;
use m68_isa::{Decoded68, decode68};
use m68_text::text68;
use mix_bits::{Line, split_name};

/// Why a line gives no words.
#[derive(Clone, Copy, PartialEq)]
pub enum AsmError {
    /// Its name, the bytes before its first space, is that of no text.
    Name,
    /// No words have this text at this address.
    Operands,
}

/// The words of a line that stands at an address: those of the instruction whose text there is the line, or the
/// word that `dc.w` names.
pub fn assemble68(line: &[u8], at: u32) -> Result<Code68, AsmError>
    ensures words { (ws : List ℕ) → (answer result ≡ Ok ws) ↔ Gives line.now at ws }
    ensures name { (result ≡ Err NameError) ↔ (is_name (name_of line.now) ≡ false) }
    ensures operands { (result ≡ Err OperandsError) ↔ ((is_name (name_of line.now) ≡ true) × ((ws : List ℕ) → Gives line.now at ws → ⊥)) }
    ensures few { IfOk result IsFew }
    ensures padded { IfOk result IsPadded }
{
    assemble_line(line, at)
}

/// The words of a line that is known to give some: what `assemble68` answers, with no look at their own text.
pub fn known68(line: &[u8], at: u32) -> Code68
    requires { GivesSome line.now at }
    ensures words { Gives line.now at (kept result) }
    ensures few { IsFew result }
    ensures padded { IsPadded result }
{
    let (name, rest) = split_name(line);
    match form_of(name) {
        None => Code68::empty(),
        Some(form) => spell(form, at, read_operands(rest)),
    }
}

/// What the text of the instruction that begins with these words assembles to at its address: the instruction's
/// words. A word that is no instruction of a program in user mode stands alone.
pub fn reassembled68(words: &[u16], at: u32) -> Result<Code68, AsmError>
    requires { decoded words.now ≢ Short }
    ensures { answer result ≡ Ok (take (count_of (decoded words.now)) words.now) }
{
    let mut text = Line::new();
    text68(&decode68(words), words, at, &mut text);
    assemble68(text.bytes(), at)
}

/// The answer by the table.
fn assemble_line(line: &[u8], at: u32) -> Result<Code68, AsmError>
    ensures value { answer result ≡ assembled line.now at }
    ensures few { IfOk result IsFew }
    ensures padded { IfOk result IsPadded }
{
    let (name, rest) = split_name(line);
    match form_of(name) {
        None => Err(AsmError::Name),
        Some(form) => assemble_as(form, at, rest, line),
    }
}

/// The words of a form and the operands in this text, if their own text is the line.
fn assemble_as(form: Form, at: u32, rest: &[u8], line: &[u8]) -> Result<Code68, AsmError>
    ensures value { answer result ≡ checked form (spelled form at (read_all rest.now)) at line.now }
    ensures few { IfOk result IsFew }
    ensures padded { IfOk result IsPadded }
{
    let code = spell(form, at, read_operands(rest));
    if prints(form, &code.words[..code.count as usize], at, line) {
        Ok(code)
    } else {
        Err(AsmError::Operands)
    }
}

/// Whether the line is the words' text.
fn prints(form: Form, words: &[u16], at: u32, line: &[u8]) -> bool
    ensures { result ≡ prints_of form words.now at line.now }
{
    match form {
        Form::Data => data_line(first_of(words)).bytes() == line,
        _ => has_text(words, at, line),
    }
}

/// The first word, 0 where there is none.
fn first_of(words: &[u16]) -> u32
    ensures { result ≡ slice_index words.now 0 }
{
    if words.is_empty() {
        0
    } else {
        u32::from(words[0])
    }
}

/// The text of a word that is no instruction.
fn data_line(word: u32) -> Line
    ensures { result ≡ data_text word }
{
    let mut text = Line::new();
    text.add("dc.w $");
    text.add_hex(word, 4);
    text
}

/// Whether the words are one instruction, whose text is the line.
fn has_text(words: &[u16], at: u32, line: &[u8]) -> bool
    ensures { result ≡ has_text_of words.now at line.now }
{
    let d = decode68(words);
    match d {
        Decoded68::Op(_, used) => {
            if used as usize == words.len() {
                let mut text = Line::new();
                text68(&d, words, at, &mut text);
                text.bytes() == line
            } else {
                false
            }
        }
        _ => false,
    }
}
