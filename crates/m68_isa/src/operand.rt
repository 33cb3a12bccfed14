ghost use Rattle.std.specs.Prelude.{◌≡◌, ◌+◌, ◌<◌, ◌≤◌, ◌^◌, slice_index};
ghost use Rattle.m68_isa.specs.Operands.{extended_word, long_at, index_of, is_index, scale_of, immediate_words, immediate_at, operand_at, special_at, plain};
ghost use Rattle.mix_bits.specs.Sizes.{modulus};
ghost use Rattle.m68_isa.specs.Fields.{HasRegisters, IsScale};
ghost use Rattle.m68_isa.specs.Extended.{IsWord, IsByte, IsExtendedEa};

use super::ea::{Ea, Index};
use mix_bits::{Size, digit, sext};

/// An operand read from an instruction's words.
#[derive(Clone, Copy)]
pub struct Operand {
    pub ea: Ea,
    /// The number of the word behind its extension words.
    pub next: u32,
    /// Whether its index word, if it has one, is of the brief format.
    pub good: bool,
}

/// The word with this number, 0 behind the last one.
pub fn word_at(words: &[u16], at: u32) -> u32
    ensures value { result ≡ slice_index words.now at }
    ensures below { result < 2 ^ 16 }
{
    let at = at as usize;
    if at < words.len() {
        u32::from(words[at])
    } else {
        0
    }
}

/// The word with this number, sign extended.
#[tactic(auto, using(crate::proofs::Extensions::word_twice))]
pub fn extended_word(words: &[u16], at: u32) -> u32
    ensures value { result ≡ extended_word words.now at }
    ensures extended { IsWord result }
{
    sext(word_at(words, at), Size::Two)
}

/// The long that begins with this word.
pub fn long_at(words: &[u16], at: u32) -> u32
    requires { at < 50 }
    ensures { result ≡ long_at words.now at }
{
    word_at(words, at) * 0x1_0000 + word_at(words, at + 1)
}

/// What the index is multiplied by.
fn scale_of(word: u32) -> u32
    ensures value { result ≡ scale_of word }
    ensures four { IsScale result }
{
    match digit(word, 9, 2) {
        0 => 1,
        1 => 2,
        2 => 4,
        _ => 8,
    }
}

/// The index word's fields.
#[tactic(auto, using(crate::proofs::Extensions::byte_twice))]
fn index_of(word: u32) -> Index
    requires { word < 2 ^ 16 }
    ensures value { result ≡ index_of word }
    ensures register { result.reg < 8 }
    ensures scale { IsScale result.scale }
    ensures extended { IsByte result.disp }
{
    Index {
        reg: digit(word, 12, 3) as u8,
        address: digit(word, 15, 1) == 1,
        long: digit(word, 11, 1) == 1,
        scale: scale_of(word),
        disp: sext(word, Size::One),
    }
}

/// Whether a word is an index word of the brief format: bit 8 is zero.
fn is_index(word: u32) -> bool
    ensures { result ≡ is_index word }
{
    digit(word, 8, 1) == 0
}

/// How many words an immediate has.
#[inline(always)]
pub fn immediate_words(size: Size) -> u32
    ensures value { result ≡ immediate_words size }
    ensures most { result ≤ 2 }
{
    match size {
        Size::Zero => 0,
        Size::One => 1,
        Size::Two => 1,
        Size::Four => 2,
    }
}

/// The immediate that begins with this word; a byte is the low one of its word.
pub fn immediate_at(words: &[u16], at: u32, size: Size) -> u32
    requires { at < 50 }
    ensures value { result ≡ immediate_at words.now at size }
    ensures below { result < modulus size }
{
    match size {
        Size::Zero => 0,
        Size::One => word_at(words, at) % 0x100,
        Size::Two => word_at(words, at),
        Size::Four => long_at(words, at),
    }
}

/// The operand of a mode and register, whose extension words begin with word `at`.
pub fn operand_at(words: &[u16], at: u32, size: Size, mode: u8, register: u8) -> Operand
    requires { at < 50 }
    ensures value { result ≡ operand_at words.now at size mode register }
    ensures behind { at ≤ result.next }
    ensures near { result.next ≤ at + 2 }
    ensures registers { register < 8 → HasRegisters result.ea }
    ensures extended { IsExtendedEa result.ea }
{
    match mode {
        0 => plain(Ea::Dn(register), at),
        1 => plain(Ea::An(register), at),
        2 => plain(Ea::Ind(register), at),
        3 => plain(Ea::Post(register), at),
        4 => plain(Ea::Pre(register), at),
        5 => plain(Ea::Disp(register, extended_word(words, at)), at + 1),
        6 => {
            let word = word_at(words, at);
            Operand {
                ea: Ea::Indexed(register, index_of(word)),
                next: at + 1,
                good: is_index(word),
            }
        }
        _ => special_at(words, at, size, register),
    }
}

/// The operand of mode 7.
fn special_at(words: &[u16], at: u32, size: Size, register: u8) -> Operand
    requires { at < 50 }
    ensures value { result ≡ special_at words.now at size register }
    ensures behind { at ≤ result.next }
    ensures near { result.next ≤ at + 2 }
    ensures registers { HasRegisters result.ea }
    ensures extended { IsExtendedEa result.ea }
{
    match register {
        0 => plain(Ea::AbsWord(extended_word(words, at)), at + 1),
        1 => plain(Ea::AbsLong(long_at(words, at)), at + 2),
        2 => plain(Ea::PcDisp(2 * at, extended_word(words, at)), at + 1),
        3 => {
            let word = word_at(words, at);
            Operand {
                ea: Ea::PcIndexed(2 * at, index_of(word)),
                next: at + 1,
                good: is_index(word),
            }
        }
        _ => plain(
            Ea::Imm(immediate_at(words, at, size)),
            at + immediate_words(size),
        ),
    }
}

/// An operand without an index word.
fn plain(ea: Ea, next: u32) -> Operand
    ensures { result ≡ plain ea next }
{
    Operand {
        ea,
        next,
        good: true,
    }
}
