ghost use Rattle.std.specs.Prelude.{◌≡◌};
ghost use Rattle.m68_isa.specs.First.{first_of};
ghost use Rattle.m68_isa.specs.Operations.{operation};
ghost use Rattle.m68_isa.specs.laws.Fits.{Fits};

use super::fields::move_mode_of;
use super::op::Op68;
use super::places::{is_any, is_byte_source, is_destination};

/// Words 0001: move of a byte, which no address register has.
pub fn line_1(word: u32) -> Op68
    requires { (first_of word).line ≡ 1 }
    ensures value { result ≡ operation (first_of word) }
    ensures fits { Fits result word }
{
    if is_byte_source(word) && is_destination(word) {
        Op68::MoveByte
    } else {
        Op68::Illegal
    }
}

/// Words 0010: move of a long.
pub fn line_2(word: u32) -> Op68
    requires { (first_of word).line ≡ 2 }
    ensures value { result ≡ operation (first_of word) }
    ensures fits { Fits result word }
{
    if !is_any(word) {
        Op68::Illegal
    } else if is_destination(word) {
        Op68::MoveLong
    } else if move_mode_of(word) == 1 {
        Op68::MoveaLong
    } else {
        Op68::Illegal
    }
}

/// Words 0011: move of a word.
pub fn line_3(word: u32) -> Op68
    requires { (first_of word).line ≡ 3 }
    ensures value { result ≡ operation (first_of word) }
    ensures fits { Fits result word }
{
    if !is_any(word) {
        Op68::Illegal
    } else if is_destination(word) {
        Op68::MoveWord
    } else if move_mode_of(word) == 1 {
        Op68::MoveaWord
    } else {
        Op68::Illegal
    }
}
