ghost use Rattle.std.specs.Prelude.{◌≡◌, ℕ, ◌+◌, ◌-◌, ◌*◌, ◌<◌, ◌≤◌, ◌^◌, List, length, drop, take, slice_index, IsTrue, false};
ghost use Rattle.byteorder.specs.Endian.{big_number};
ghost use Rattle.mix_bits.specs.Sizes.{sign_extended};
ghost use Rattle.mix_bits.specs.declared.size.Size.TheVariants.{Two};
ghost use Rattle.mix_bits.specs.declared.size.Size.{Size};
ghost use Rattle.m68_isa.specs.Operands.{extended_word as extended_word_of, immediate_at as immediate_at_of, index_of as index_of_word, is_index as is_index_word, long_at as long_at_of, operand_at, special_at};
ghost use Rattle.m68_ea.specs.Words.{words_at, words_from};

use big_memory::{Ram, memory_laws};
use byteorder::{BigEndian, ByteOrder};
use m68_isa::{Index, byte_of, immediate_words};
use mix_bits::{Size, onward};

/// The word with this number of the instruction at `pc`, whose first word is 0. Behind the first one that
/// doesn't lie in memory each is 0.
#[inline(always)]
pub fn word_at(ram: &Ram, pc: u32, at: u32) -> u32
    requires { at < 5 }
    ensures value { result ≡ slice_index (words_at ram.now pc) at }
    ensures below { result < 2 ^ 16 }
{
    memory_laws();
    ram.meets_invariant();
    match ram.span(pc, 2 * at + 2) {
        Ok(words) => last_word(words),
        Err(_) => 0,
    }
}

/// Reads words from `a` on, as far as they lie in memory and there is place for them, and tells how many.
#[tactic(auto, unfolding(crate::specs::Words::words_from))]
pub fn read_words(ram: &Ram, a: u32, words: &mut [u16]) -> usize
    ensures count { result ≤ length words.old }
    ensures length { length words.new ≡ length words.old }
    ensures words { take result words.new ≡ words_from (length words.old) ram.now a }
    ensures rest { drop result words.new ≡ drop result words.old }
{
    if words.is_empty() {
        return 0;
    }
    match ram.load_word(a) {
        Ok(word) => {
            words[0] = word as u16;
            1 + read_words(ram, onward(a, 2), &mut words[1..])
        }
        Err(_) => 0,
    }
}

/// Whether five words lie in memory at `pc`, which is as many as an instruction can have.
#[inline(always)]
pub fn has_five(ram: &Ram, pc: u32) -> bool
    ensures five { IsTrue result → 5 ≤ length (words_at ram.now pc) }
    ensures fewer { result ≡ false → length (words_at ram.now pc) < 5 }
{
    ram.meets_invariant();
    ram.has(pc, 10)
}

/// The last word of some bytes.
#[inline(always)]
fn last_word(bytes: &[u8]) -> u32
    requires { 2 ≤ length bytes.now }
    ensures value { result ≡ big_number 2 (drop (length bytes.now - 2) bytes.now) }
    ensures below { result < 2 ^ 16 }
{
    u32::from(BigEndian::read_u16(&bytes[bytes.len() - 2..]))
}

/// The word with this number, its sign repeated above it.
#[inline(always)]
pub fn extended_word(ram: &Ram, pc: u32, at: u32) -> u32
    requires { at < 5 }
    ensures { result ≡ extended_word_of (words_at ram.now pc) at }
{
    extended_low(word_at(ram, pc, at))
}

/// The low word of a long, its sign repeated above it.
#[inline(always)]
pub fn extended_low(value: u32) -> u32
    ensures { result ≡ sign_extended value Two }
{
    let low = (value % 0x1_0000) as u16;
    i32::from(low.cast_signed()).cast_unsigned()
}

/// The long that begins with this word.
#[inline(always)]
pub fn long_at(ram: &Ram, pc: u32, at: u32) -> u32
    requires { at < 4 }
    ensures { result ≡ long_at_of (words_at ram.now pc) at }
{
    memory_laws();
    ram.meets_invariant();
    match ram.span(pc, 2 * at + 4) {
        Ok(words) => last_word(&words[..words.len() - 2]) * 0x1_0000 + last_word(words),
        Err(_) => word_at(ram, pc, at) * 0x1_0000 + word_at(ram, pc, at + 1),
    }
}

/// The immediate value that begins with this word; a byte is the low one of its word.
#[inline(always)]
pub fn immediate_at(ram: &Ram, pc: u32, at: u32, size: Size) -> u32
    requires { at < 4 }
    ensures { result ≡ immediate_at_of (words_at ram.now pc) at size }
{
    match size {
        Size::Zero => 0,
        Size::One => word_at(ram, pc, at) % 0x100,
        Size::Two => word_at(ram, pc, at),
        Size::Four => long_at(ram, pc, at),
    }
}

/// Whether a word is an index word of the brief format.
#[inline(always)]
pub fn is_index(word: u32) -> bool
    ensures { result ≡ is_index_word word }
{
    word / 0x100 % 2 == 0
}

/// The fields of an index word.
#[inline(always)]
pub fn index_of(word: u32) -> Index
    requires { word < 2 ^ 16 }
    ensures value { result ≡ index_of_word word }
    ensures register { result.reg < 8 }
{
    Index {
        reg: (word / 0x1000 % 8) as u8,
        address: word / 0x8000 % 2 == 1,
        long: word / 0x800 % 2 == 1,
        scale: 1 << (word / 0x200 % 4),
        disp: byte_of(word),
    }
}

/// Whether the index word of a second operand, if it has one, is of the brief format. The first operand's
/// words begin with word 1 of the instruction, and the second one's stand behind them.
#[inline(always)]
pub fn is_second_good(
    ram: &Ram,
    pc: u32,
    size: Size,
    first: (u32, usize),
    second: (u32, usize),
) -> bool
    ensures { let ws = words_at ram.now pc in
        result ≡ (operand_at ws (operand_at ws 1 size first.0 first.1).next size second.0 second.1).good }
{
    match second.0 {
        0 => true,
        1 => true,
        2 => true,
        3 => true,
        4 => true,
        5 => true,
        _ => is_good(
            ram,
            pc,
            1 + extension_words(size, first.0, first.1),
            second.0,
            second.1,
        ),
    }
}

/// Whether an operand's index word, if it has one, is of the brief format. Its extension words begin with
/// word `at`.
#[inline(always)]
fn is_good(ram: &Ram, pc: u32, at: u32, mode: u32, lower: usize) -> bool
    requires { at < 5 }
    ensures { (s : Size) → result ≡ (operand_at (words_at ram.now pc) at s mode lower).good }
{
    match mode {
        0 => true,
        1 => true,
        2 => true,
        3 => true,
        4 => true,
        5 => true,
        6 => is_index(word_at(ram, pc, at)),
        _ => is_special_good(ram, pc, at, lower),
    }
}

/// The same of an operand of mode 7.
#[inline(always)]
fn is_special_good(ram: &Ram, pc: u32, at: u32, lower: usize) -> bool
    requires { at < 5 }
    ensures { (s : Size) → result ≡ (special_at (words_at ram.now pc) at s lower).good }
{
    match lower {
        0 => true,
        1 => true,
        2 => true,
        3 => is_index(word_at(ram, pc, at)),
        _ => true,
    }
}

/// How many extension words an operand has.
#[inline(always)]
fn extension_words(size: Size, mode: u32, lower: usize) -> u32
    ensures count { (ws : List ℕ) (at : ℕ) → (operand_at ws at size mode lower).next ≡ at + result }
    ensures most { result < 3 }
{
    match mode {
        0 => 0,
        1 => 0,
        2 => 0,
        3 => 0,
        4 => 0,
        5 => 1,
        6 => 1,
        _ => special_words(size, lower),
    }
}

/// How many extension words an operand of mode 7 has.
#[inline(always)]
fn special_words(size: Size, lower: usize) -> u32
    ensures count { (ws : List ℕ) (at : ℕ) → (special_at ws at size lower).next ≡ at + result }
    ensures most { result < 3 }
{
    match lower {
        0 => 1,
        1 => 2,
        2 => 1,
        3 => 1,
        _ => immediate_words(size),
    }
}
