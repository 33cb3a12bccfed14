ghost use Rattle.std.specs.Prelude.{◌≡◌, ◌<◌, length, slice_index};
ghost use Rattle.m68_isa.specs.inner.Fields.{HasFound};
ghost use Rattle.m68_isa.specs.Fields.{HasDecoded, HasWords};
ghost use Rattle.m68_isa.specs.inner.Extended.{IsExtendedFound};
ghost use Rattle.m68_isa.specs.Extended.{IsExtendedDecoded};
ghost use Rattle.m68_isa.specs.Decode.{ended, decoded};
ghost use Rattle.m68_isa.specs.Operations.{read as read_lem};
ghost use Rattle.m68_isa.specs.First.{first_of};
ghost use Rattle.m68_isa.specs.laws.Fits.{Fits};

use super::found::Found;
use super::instructions::Decoded68;
use super::made::made;
use super::op::Op68;
use super::read::op_of;

/// The answer where `count` words are given.
fn ended(found: Found, count: usize) -> Decoded68
    requires in_range { HasFound found }
    requires signed { IsExtendedFound found }
    ensures value { result ≡ ended found count }
    ensures fields { HasDecoded result }
    ensures words { HasWords result count }
    ensures extended { IsExtendedDecoded result }
{
    match found {
        Found::Made {
            instruction,
            used,
            good,
        } => {
            if count < used as usize {
                Decoded68::Short
            } else if good {
                Decoded68::Op(instruction, used)
            } else {
                Decoded68::Illegal
            }
        }
        Found::Privileged => Decoded68::Privileged,
        Found::Illegal => Decoded68::Illegal,
    }
}

/// What the words of an operation are; `word` is the first one.
fn read(op: Op68, word: u32, words: &[u16]) -> Decoded68
    requires some { 0 < length words.now }
    requires first { word ≡ slice_index words.now 0 }
    requires fits { Fits op word }
    ensures value { result ≡ read_lem op (first_of word) words.now }
    ensures fields { HasDecoded result }
    ensures words { HasWords result (length words.now) }
    ensures extended { IsExtendedDecoded result }
{
    match op {
        Op68::LineA => Decoded68::LineA(words[0]),
        Op68::LineF => Decoded68::LineF,
        _ => ended(made(op, word, words), words.len()),
    }
}

/// The instruction that `words` begin with, by the first word's row in the manual's table
/// (M68000 Family Programmer's Reference Manual, section 8).
/// Short goes before Illegal: a bad index word is refused where all words of the row are given.
/// Privileged, LineA, LineF and a first word without a row need no further word.
pub fn decode68(words: &[u16]) -> Decoded68
    ensures value { result ≡ decoded words.now }
    ensures fields { HasDecoded result }
    ensures words { HasWords result (length words.now) }
    ensures extended { IsExtendedDecoded result }
{
    if words.is_empty() {
        Decoded68::Short
    } else {
        let word = u32::from(words[0]);
        read(op_of(word), word, words)
    }
}
