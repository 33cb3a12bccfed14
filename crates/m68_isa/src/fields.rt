ghost use Rattle.std.specs.Prelude.{◌≡◌, ◌≢◌, ◌⊎◌, ◌<◌, ◌*◌, ◌+◌, ◌%◌, ◌==◌, nat_lt, true, false};
ghost use Rattle.mix_bits.specs.Sizes.{sign_extended};
ghost use Rattle.m68_isa.specs.First.{first_of, size_of, long_or_word, low_byte, condition_of, one_to_eight};
ghost use Rattle.m68_isa.specs.Immediates.{logic_op, bit_op};
ghost use Rattle.m68_isa.specs.Moves.{move_mode};
ghost use Rattle.m68_isa.specs.Arithmetic.{exchange};
ghost use Rattle.m68_isa.specs.Shifts.{shift_op, shift_count};
ghost use Rattle.m68_isa.specs.Fields.{HasCount};
ghost use Rattle.m68_isa.specs.Extended.{IsByte, IsWord};

use super::instructions::{BitOp, Exchange, LogicOp, ShiftCount, ShiftOp};
use mix_bits::Size;

/// Bits 15 to 12.
#[inline(always)]
pub fn line_of(word: u32) -> u32
    ensures is { result ≡ (first_of word).line }
    ensures below { result < 16 }
{
    word / 0x1000 % 16
}

/// Bits 11 to 9, mostly a register.
#[inline(always)]
pub fn upper_of(word: u32) -> usize
    ensures is { result ≡ (first_of word).upper }
    ensures below { result < 8 }
{
    (word / 0x200 % 8) as usize
}

/// Bit 8, mostly a direction.
#[inline(always)]
pub fn bit8_of(word: u32) -> u32
    ensures is { result ≡ (first_of word).bit8 }
    ensures below { result < 2 }
{
    word / 0x100 % 2
}

/// Bits 7 and 6, mostly a size.
#[inline(always)]
pub fn size_bits_of(word: u32) -> u32
    ensures is { result ≡ (first_of word).size }
    ensures below { result < 4 }
{
    word / 0x40 % 4
}

/// Bits 5 to 3, mostly a mode.
#[inline(always)]
pub fn mode_of(word: u32) -> u32
    ensures is { result ≡ (first_of word).mode }
    ensures below { result < 8 }
{
    word / 8 % 8
}

/// Bits 2 to 0, mostly a register.
#[inline(always)]
pub fn lower_of(word: u32) -> usize
    ensures is { result ≡ (first_of word).lower }
    ensures below { result < 8 }
{
    (word % 8) as usize
}

/// The mode of a move's destination, in bits 8 to 6.
#[inline(always)]
pub fn move_mode_of(word: u32) -> u32
    ensures is { result ≡ move_mode (first_of word) }
    ensures below { result < 8 }
{
    word / 0x40 % 8
}

/// The size of bits 7 and 6: byte, word or long.
#[inline(always)]
pub fn size_of(word: u32) -> Size
    ensures is { result ≡ size_of (first_of word).size }
    ensures some { result ≢ Size.Zero }
{
    match size_bits_of(word) {
        0 => Size::One,
        1 => Size::Two,
        _ => Size::Four,
    }
}

/// Whether the size of bits 7 and 6 is the long, the one that programs use most: one test of the word.
#[inline(always)]
pub fn is_long(word: u32) -> bool
    ensures long { result ≡ true → size_of (first_of word).size ≡ Size.Four }
    ensures short { result ≡ false → (first_of word).size < 2 }
{
    match size_bits_of(word) {
        0 => false,
        1 => false,
        _ => true,
    }
}

/// The size of bit 8: word or long.
#[inline(always)]
pub fn long_or_word_of(word: u32) -> Size
    ensures is { result ≡ long_or_word (first_of word).bit8 }
    ensures some { result ≢ Size.Zero }
{
    if bit8_of(word) == 0 {
        Size::Two
    } else {
        Size::Four
    }
}

/// The size of bit 6 in movem and movep, and to which one ext extends: word or long.
#[inline(always)]
pub fn transfer_size_of(word: u32) -> Size
    ensures is { result ≡ long_or_word ((first_of word).size % 2) }
    ensures some { result ≢ Size.Zero }
{
    if size_bits_of(word) % 2 == 0 {
        Size::Two
    } else {
        Size::Four
    }
}

/// Bits 11 to 8, a condition.
#[inline(always)]
pub fn condition_of(word: u32) -> u32
    ensures is { result ≡ condition_of (first_of word) }
    ensures below { result < 16 }
{
    word / 0x100 % 16
}

/// Bits 7 to 0, sign extended: the displacement of a branch or of an index word, the value of moveq.
#[inline(always)]
#[tactic(auto, using(crate::proofs::Extensions::byte_twice, crate::proofs::Extensions::byte_as_word))]
pub fn byte_of(word: u32) -> u32
    ensures is { result ≡ sign_extended (low_byte (first_of word)) Size.One }
    ensures low { result ≡ sign_extended word Size.One }
    ensures byte { IsByte result }
    ensures also { IsWord result }
{
    let byte = (word % 0x100) as u8;
    i32::from(byte.cast_signed()).cast_unsigned()
}

/// Bits 7 to 0.
#[inline(always)]
pub fn low_byte_of(word: u32) -> u32
    ensures { result ≡ low_byte (first_of word) }
{
    word % 0x100
}

/// Whether the displacement of a branch is the byte in bits 7 to 0 itself: 0 stands for a word behind, and 255
/// for a long.
#[inline(always)]
pub fn has_byte_displacement(word: u32) -> bool
    ensures near { result ≡ true → (low_byte (first_of word) ≢ 0) × (low_byte (first_of word) ≢ 255) }
    ensures far { result ≡ false → (low_byte (first_of word) ≡ 0) ⊎ (low_byte (first_of word) ≡ 255) }
{
    (low_byte_of(word) + 1) % 0x100 > 1
}

/// The number of addq, subq and of a shift, from 1 to 8, where the field's 0 stands for 8.
#[inline(always)]
pub fn quick_of(word: u32) -> u32
    ensures is { result ≡ one_to_eight (first_of word).upper }
    ensures from { 0 < result }
    ensures to { result < 9 }
{
    (word / 0x200 + 7) % 8 + 1
}

/// The number of a trap, in bits 3 to 0.
#[inline(always)]
pub fn trap_of(word: u32) -> u32
    requires { (first_of word).mode < 2 }
    ensures is { result ≡ (first_of word).mode * 8 + (first_of word).lower }
    ensures below { result < 16 }
{
    word % 16
}

/// Whether the direction of bit 8 is the left, in shifts.
#[inline(always)]
pub fn is_left(word: u32) -> bool
    ensures { result ≡ ((first_of word).bit8 == 1) }
{
    bit8_of(word) == 1
}

/// Whether abcd, sbcd, addx and subx work on memory.
#[inline(always)]
pub fn is_in_memory(word: u32) -> bool
    ensures { result ≡ ((first_of word).mode == 1) }
{
    mode_of(word) == 1
}

/// Whether movep goes from the register to memory.
#[inline(always)]
pub fn is_to_memory(word: u32) -> bool
    ensures { result ≡ nat_lt 1 (first_of word).size }
{
    size_bits_of(word) > 1
}

/// The bitwise operation of an immediate to CCR.
#[inline(always)]
pub fn logic_op_of(word: u32) -> LogicOp
    ensures { result ≡ logic_op (first_of word).upper }
{
    match upper_of(word) {
        0 => LogicOp::Or,
        1 => LogicOp::And,
        _ => LogicOp::Eor,
    }
}

/// The operation on a bit, in bits 7 and 6.
#[inline(always)]
pub fn bit_op_of(word: u32) -> BitOp
    ensures { result ≡ bit_op (first_of word).size }
{
    match size_bits_of(word) {
        0 => BitOp::Btst,
        1 => BitOp::Bchg,
        2 => BitOp::Bclr,
        _ => BitOp::Bset,
    }
}

/// Which registers exg exchanges.
#[inline(always)]
pub fn exchange_of(word: u32) -> Exchange
    ensures { result ≡ exchange (first_of word) }
{
    if size_bits_of(word) == 2 {
        Exchange::DataAddress
    } else if mode_of(word) == 1 {
        Exchange::Address
    } else {
        Exchange::Data
    }
}

/// The kind of the two bits of a shift.
#[inline(always)]
fn shift_op_of(bits: u32) -> ShiftOp
    ensures { result ≡ shift_op bits }
{
    match bits {
        0 => ShiftOp::As,
        1 => ShiftOp::Ls,
        2 => ShiftOp::Rox,
        _ => ShiftOp::Ro,
    }
}

/// The kind of a register's shift, in bits 4 and 3.
#[inline(always)]
pub fn register_shift_of(word: u32) -> ShiftOp
    ensures { result ≡ shift_op ((first_of word).mode % 4) }
{
    shift_op_of(mode_of(word) % 4)
}

/// The kind of a shift in memory, in bits 10 and 9.
#[inline(always)]
pub fn memory_shift_of(word: u32) -> ShiftOp
    ensures { result ≡ shift_op (first_of word).upper }
{
    shift_op_of(word / 0x200 % 8)
}

/// The count of a register's shift: a number from 1 to 8, or the register that has it.
#[inline(always)]
pub fn shift_count_of(word: u32) -> ShiftCount
    ensures is { result ≡ shift_count (first_of word) }
    ensures count { HasCount result }
{
    if mode_of(word) < 4 {
        ShiftCount::Number(quick_of(word) as u8)
    } else {
        ShiftCount::Register(upper_of(word) as u8)
    }
}
