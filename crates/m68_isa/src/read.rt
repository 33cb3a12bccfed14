ghost use Rattle.std.specs.Prelude.{◌≡◌, ◌<◌};
ghost use Rattle.m68_isa.specs.First.{condition_of as condition_of_first, first_of, low_byte};
ghost use Rattle.m68_isa.specs.Operations.{operation};
ghost use Rattle.m68_isa.specs.laws.Fits.{Fits};

use super::arithmetic::{line_8, line_9, line_b, line_c, line_d};
use super::fields::{
    bit8_of, condition_of, has_byte_displacement, line_of, low_byte_of, mode_of, upper_of,
};
use super::immediates::line_0;
use super::miscellaneous::line_4;
use super::moves::{line_1, line_2, line_3};
use super::op::Op68;
use super::places::{is_alterable_sized, is_data_alterable, is_memory_alterable, is_odd, is_sized};

/// The operation of a first word: that of its row in the manual's table, or why it has none.
#[inline(always)]
pub fn op_of(word: u32) -> Op68
    ensures value { result ≡ operation (first_of word) }
    ensures fits { Fits result word }
{
    match line_of(word) {
        0 => line_0(word),
        1 => line_1(word),
        2 => line_2(word),
        3 => line_3(word),
        4 => line_4(word),
        5 => line_5(word),
        6 => line_6(word),
        7 => line_7(word),
        8 => line_8(word),
        9 => line_9(word),
        10 => Op68::LineA,
        11 => line_b(word),
        12 => line_c(word),
        13 => line_d(word),
        14 => line_e(word),
        _ => Op68::LineF,
    }
}

/// Words 0101: quick numbers and conditions.
fn line_5(word: u32) -> Op68
    requires { (first_of word).line ≡ 5 }
    ensures value { result ≡ operation (first_of word) }
    ensures fits { Fits result word }
{
    if !is_sized(word) {
        if is_data_alterable(word) {
            Op68::Scc
        } else if mode_of(word) == 1 {
            Op68::Dbcc
        } else {
            Op68::Illegal
        }
    } else if !is_alterable_sized(word) {
        Op68::Illegal
    } else if !is_odd(word) {
        Op68::Addq
    } else {
        Op68::Subq
    }
}

/// Words 0110: branches.
fn line_6(word: u32) -> Op68
    requires { (first_of word).line ≡ 6 }
    ensures value { result ≡ operation (first_of word) }
    ensures fits { Fits result word }
{
    let condition = condition_of(word);
    if condition > 1 {
        conditional(word)
    } else if condition == 0 {
        always(word)
    } else {
        calling(word)
    }
}

/// Words 0110 0000: bra.
fn always(word: u32) -> Op68
    requires line { (first_of word).line ≡ 6 }
    requires condition { condition_of_first (first_of word) ≡ 0 }
    ensures value { result ≡ operation (first_of word) }
    ensures fits { Fits result word }
{
    if has_byte_displacement(word) {
        Op68::BraByte
    } else if low_byte_of(word) == 0 {
        Op68::BraWord
    } else {
        branch_by_long(word)
    }
}

/// Words 0110 0001: bsr.
fn calling(word: u32) -> Op68
    requires line { (first_of word).line ≡ 6 }
    requires condition { condition_of_first (first_of word) ≡ 1 }
    ensures value { result ≡ operation (first_of word) }
    ensures fits { Fits result word }
{
    if has_byte_displacement(word) {
        Op68::BsrByte
    } else if low_byte_of(word) == 0 {
        Op68::BsrWord
    } else {
        branch_by_long(word)
    }
}

/// Words 0110 but those: bcc.
fn conditional(word: u32) -> Op68
    requires line { (first_of word).line ≡ 6 }
    requires condition { 1 < condition_of_first (first_of word) }
    ensures value { result ≡ operation (first_of word) }
    ensures fits { Fits result word }
{
    if has_byte_displacement(word) {
        Op68::BccByte
    } else if low_byte_of(word) == 0 {
        Op68::BccWord
    } else {
        branch_by_long(word)
    }
}

/// A branch with its displacement in the long behind, which is rare.
#[cold]
#[inline(never)]
fn branch_by_long(word: u32) -> Op68
    requires line { (first_of word).line ≡ 6 }
    requires mark { low_byte (first_of word) ≡ 255 }
    ensures value { result ≡ operation (first_of word) }
    ensures fits { Fits result word }
{
    match condition_of(word) {
        0 => Op68::BraLong,
        1 => Op68::BsrLong,
        _ => Op68::BccLong,
    }
}

/// Words 0111: moveq.
fn line_7(word: u32) -> Op68
    requires { (first_of word).line ≡ 7 }
    ensures value { result ≡ operation (first_of word) }
    ensures fits { Fits result word }
{
    if bit8_of(word) == 0 {
        Op68::Moveq
    } else {
        Op68::Illegal
    }
}

/// Words 1110: shifts.
fn line_e(word: u32) -> Op68
    requires { (first_of word).line ≡ 14 }
    ensures value { result ≡ operation (first_of word) }
    ensures fits { Fits result word }
{
    if is_sized(word) {
        Op68::Shift
    } else if upper_of(word) < 4 && is_memory_alterable(word) {
        Op68::ShiftMemory
    } else {
        Op68::Illegal
    }
}
