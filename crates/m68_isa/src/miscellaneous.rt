ghost use Rattle.std.specs.Prelude.{◌≡◌, ◌≢◌, ◌<◌};
ghost use Rattle.m68_isa.specs.First.{first_of};
ghost use Rattle.m68_isa.specs.Operations.{operation};
ghost use Rattle.m68_isa.specs.laws.Fits.{Fits};

use super::fields::{bit8_of, lower_of, mode_of, size_bits_of, upper_of};
use super::op::Op68;
use super::places::{
    is_control, is_control_alterable, is_control_or_post, is_data, is_data_alterable, is_sized,
};

/// Words 0100.
#[inline(always)]
pub fn line_4(word: u32) -> Op68
    requires { (first_of word).line ≡ 4 }
    ensures value { result ≡ operation (first_of word) }
    ensures fits { Fits result word }
{
    if bit8_of(word) == 1 {
        checks_and_addresses(word)
    } else {
        match upper_of(word) {
            4 => registers_and_bytes(word),
            5 => tests(word),
            6 => loads(word),
            7 => if size_bits_of(word) == 1 {
                control(word)
            } else {
                jumps(word)
            },
            _ => one_operand(word),
        }
    }
}

/// Words 0100 0xx0.
fn one_operand(word: u32) -> Op68
    requires line { (first_of word).line ≡ 4 }
    requires even { (first_of word).bit8 ≡ 0 }
    requires upper { (first_of word).upper < 4 }
    ensures value { result ≡ operation (first_of word) }
    ensures fits { Fits result word }
{
    if size_bits_of(word) == 3 {
        return status(word);
    }
    if !is_data_alterable(word) {
        return Op68::Illegal;
    }
    match upper_of(word) {
        0 => Op68::Negx,
        1 => Op68::Clr,
        2 => Op68::Neg,
        _ => Op68::Not,
    }
}

/// Words 0100 0xx0 11: moves from and to the status register.
fn status(word: u32) -> Op68
    requires line { (first_of word).line ≡ 4 }
    requires even { (first_of word).bit8 ≡ 0 }
    requires upper { (first_of word).upper < 4 }
    requires size { (first_of word).size ≡ 3 }
    ensures value { result ≡ operation (first_of word) }
    ensures fits { Fits result word }
{
    match upper_of(word) {
        0 => if is_data_alterable(word) {
            Op68::MoveFromSr
        } else {
            Op68::Illegal
        },
        2 => if is_data(word) {
            Op68::MoveToCcr
        } else {
            Op68::Illegal
        },
        3 => if is_data(word) {
            Op68::Privileged
        } else {
            Op68::Illegal
        },
        _ => Op68::Illegal,
    }
}

/// Words 0100 1000.
fn registers_and_bytes(word: u32) -> Op68
    requires line { (first_of word).line ≡ 4 }
    requires even { (first_of word).bit8 ≡ 0 }
    requires upper { (first_of word).upper ≡ 4 }
    ensures value { result ≡ operation (first_of word) }
    ensures fits { Fits result word }
{
    match size_bits_of(word) {
        0 => {
            if is_data_alterable(word) {
                Op68::Nbcd
            } else if mode_of(word) == 1 {
                Op68::LinkLong
            } else {
                Op68::Illegal
            }
        }
        1 => {
            if mode_of(word) == 0 {
                Op68::Swap
            } else if is_control(word) {
                Op68::Pea
            } else {
                Op68::Illegal
            }
        }
        _ => extensions_and_saves(word),
    }
}

/// Words 0100 1000 1.
fn extensions_and_saves(word: u32) -> Op68
    requires line { (first_of word).line ≡ 4 }
    requires even { (first_of word).bit8 ≡ 0 }
    requires upper { (first_of word).upper ≡ 4 }
    requires size { 1 < (first_of word).size }
    ensures value { result ≡ operation (first_of word) }
    ensures fits { Fits result word }
{
    if mode_of(word) == 0 {
        Op68::Ext
    } else if is_control_alterable(word) || mode_of(word) == 4 {
        Op68::MovemToMemory
    } else {
        Op68::Illegal
    }
}

/// Words 0100 1010.
fn tests(word: u32) -> Op68
    requires line { (first_of word).line ≡ 4 }
    requires even { (first_of word).bit8 ≡ 0 }
    requires upper { (first_of word).upper ≡ 5 }
    ensures value { result ≡ operation (first_of word) }
    ensures fits { Fits result word }
{
    if !is_data_alterable(word) {
        Op68::Illegal
    } else if is_sized(word) {
        Op68::Tst
    } else {
        Op68::Tas
    }
}

/// Words 0100 1100.
fn loads(word: u32) -> Op68
    requires line { (first_of word).line ≡ 4 }
    requires even { (first_of word).bit8 ≡ 0 }
    requires upper { (first_of word).upper ≡ 6 }
    ensures value { result ≡ operation (first_of word) }
    ensures fits { Fits result word }
{
    match size_bits_of(word) {
        0 => if is_data(word) {
            Op68::MulLong
        } else {
            Op68::Illegal
        },
        1 => if is_data(word) {
            Op68::DivLong
        } else {
            Op68::Illegal
        },
        _ => restores(word),
    }
}

/// Words 0100 1100 1.
fn restores(word: u32) -> Op68
    requires line { (first_of word).line ≡ 4 }
    requires even { (first_of word).bit8 ≡ 0 }
    requires upper { (first_of word).upper ≡ 6 }
    requires size { 1 < (first_of word).size }
    ensures value { result ≡ operation (first_of word) }
    ensures fits { Fits result word }
{
    if is_control_or_post(word) {
        Op68::MovemFromMemory
    } else {
        Op68::Illegal
    }
}

/// Words 0100 1110 01.
fn control(word: u32) -> Op68
    requires line { (first_of word).line ≡ 4 }
    requires even { (first_of word).bit8 ≡ 0 }
    requires upper { (first_of word).upper ≡ 7 }
    requires size { (first_of word).size ≡ 1 }
    ensures value { result ≡ operation (first_of word) }
    ensures fits { Fits result word }
{
    match mode_of(word) {
        0 => Op68::Trap,
        1 => Op68::Trap,
        2 => Op68::Link,
        3 => Op68::Unlk,
        4 => Op68::Privileged,
        5 => Op68::Privileged,
        6 => returns(word),
        _ => Op68::Illegal,
    }
}

/// Words 0100 1110 0111 0.
fn returns(word: u32) -> Op68
    requires line { (first_of word).line ≡ 4 }
    requires even { (first_of word).bit8 ≡ 0 }
    requires upper { (first_of word).upper ≡ 7 }
    requires size { (first_of word).size ≡ 1 }
    requires mode { (first_of word).mode ≡ 6 }
    ensures value { result ≡ operation (first_of word) }
    ensures fits { Fits result word }
{
    match lower_of(word) {
        0 => Op68::Privileged,
        1 => Op68::Nop,
        2 => Op68::Privileged,
        3 => Op68::Privileged,
        4 => Op68::Rtd,
        5 => Op68::Rts,
        6 => Op68::Trapv,
        _ => Op68::Rtr,
    }
}

/// Words 0100 1110 but 01.
fn jumps(word: u32) -> Op68
    requires line { (first_of word).line ≡ 4 }
    requires even { (first_of word).bit8 ≡ 0 }
    requires upper { (first_of word).upper ≡ 7 }
    requires size { (first_of word).size ≢ 1 }
    ensures value { result ≡ operation (first_of word) }
    ensures fits { Fits result word }
{
    if !is_control(word) {
        return Op68::Illegal;
    }
    match size_bits_of(word) {
        2 => Op68::Jsr,
        3 => Op68::Jmp,
        _ => Op68::Illegal,
    }
}

/// Words 0100 xxx1.
fn checks_and_addresses(word: u32) -> Op68
    requires line { (first_of word).line ≡ 4 }
    requires odd { (first_of word).bit8 ≡ 1 }
    ensures value { result ≡ operation (first_of word) }
    ensures fits { Fits result word }
{
    match size_bits_of(word) {
        2 => if is_data(word) {
            Op68::Chk
        } else {
            Op68::Illegal
        },
        3 => {
            if is_control(word) {
                Op68::Lea
            } else if upper_of(word) == 4 && mode_of(word) == 0 {
                Op68::ExtByte
            } else {
                Op68::Illegal
            }
        }
        _ => Op68::Illegal,
    }
}
