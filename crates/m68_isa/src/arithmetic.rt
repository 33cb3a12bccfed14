ghost use Rattle.std.specs.Prelude.{◌≡◌};
ghost use Rattle.m68_isa.specs.First.{first_of};
ghost use Rattle.m68_isa.specs.Arithmetic.{is_exchange};
ghost use Rattle.m68_isa.specs.Operations.{operation};
ghost use Rattle.m68_isa.specs.laws.Fits.{Fits};

use super::fields::{mode_of, size_bits_of};
use super::op::Op68;
use super::places::{
    is_any, is_any_sized, is_data, is_data_alterable, is_memory_alterable, is_odd, is_sized,
};

/// Words 1000: or, division, sbcd.
pub fn line_8(word: u32) -> Op68
    requires { (first_of word).line ≡ 8 }
    ensures value { result ≡ operation (first_of word) }
    ensures fits { Fits result word }
{
    let odd = is_odd(word);
    if !is_sized(word) {
        if !is_data(word) {
            Op68::Illegal
        } else if odd {
            Op68::Divs
        } else {
            Op68::Divu
        }
    } else if !odd {
        if is_data(word) {
            Op68::OrToRegister
        } else {
            Op68::Illegal
        }
    } else if is_memory_alterable(word) {
        Op68::OrToMemory
    } else if size_bits_of(word) == 0 && mode_of(word) < 2 {
        Op68::Sbcd
    } else {
        Op68::Illegal
    }
}

/// Words 1001: subtraction.
pub fn line_9(word: u32) -> Op68
    requires { (first_of word).line ≡ 9 }
    ensures value { result ≡ operation (first_of word) }
    ensures fits { Fits result word }
{
    if !is_sized(word) {
        if is_any(word) {
            Op68::Suba
        } else {
            Op68::Illegal
        }
    } else if !is_odd(word) {
        if is_any_sized(word) {
            Op68::SubToRegister
        } else {
            Op68::Illegal
        }
    } else if is_memory_alterable(word) {
        Op68::SubToMemory
    } else if mode_of(word) < 2 {
        Op68::Subx
    } else {
        Op68::Illegal
    }
}

/// Words 1011: comparison, eor.
pub fn line_b(word: u32) -> Op68
    requires { (first_of word).line ≡ 11 }
    ensures value { result ≡ operation (first_of word) }
    ensures fits { Fits result word }
{
    if !is_sized(word) {
        if is_any(word) {
            Op68::Cmpa
        } else {
            Op68::Illegal
        }
    } else if !is_odd(word) {
        if is_any_sized(word) {
            Op68::Cmp
        } else {
            Op68::Illegal
        }
    } else if is_data_alterable(word) {
        Op68::Eor
    } else if mode_of(word) == 1 {
        Op68::Cmpm
    } else {
        Op68::Illegal
    }
}

/// Words 1100: and, multiplication, abcd, exg.
pub fn line_c(word: u32) -> Op68
    requires { (first_of word).line ≡ 12 }
    ensures value { result ≡ operation (first_of word) }
    ensures fits { Fits result word }
{
    let odd = is_odd(word);
    if !is_sized(word) {
        if !is_data(word) {
            Op68::Illegal
        } else if odd {
            Op68::Muls
        } else {
            Op68::Mulu
        }
    } else if !odd {
        if is_data(word) {
            Op68::AndToRegister
        } else {
            Op68::Illegal
        }
    } else if is_memory_alterable(word) {
        Op68::AndToMemory
    } else if size_bits_of(word) == 0 && mode_of(word) < 2 {
        Op68::Abcd
    } else if is_exchange(word) {
        Op68::Exg
    } else {
        Op68::Illegal
    }
}

/// Whether a word 1100 is one of exg: bits 8 to 3 are 101000, 101001 or 110001.
fn is_exchange(word: u32) -> bool
    ensures { result ≡ is_exchange (first_of word) }
{
    let form = word / 8 % 64;
    form == 0b10_1000 || form == 0b10_1001 || form == 0b11_0001
}

/// Words 1101: addition.
pub fn line_d(word: u32) -> Op68
    requires { (first_of word).line ≡ 13 }
    ensures value { result ≡ operation (first_of word) }
    ensures fits { Fits result word }
{
    if !is_sized(word) {
        if is_any(word) {
            Op68::Adda
        } else {
            Op68::Illegal
        }
    } else if !is_odd(word) {
        if is_any_sized(word) {
            Op68::AddToRegister
        } else {
            Op68::Illegal
        }
    } else if is_memory_alterable(word) {
        Op68::AddToMemory
    } else if mode_of(word) < 2 {
        Op68::Addx
    } else {
        Op68::Illegal
    }
}
