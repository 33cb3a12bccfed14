ghost use Rattle.std.specs.Prelude.{◌≡◌, true, false, ◌&&◌, nat_lt};
ghost use Rattle.m68_isa.specs.First.{first_of};
ghost use Rattle.m68_isa.specs.Immediates.{has_logic};
ghost use Rattle.m68_isa.specs.Classes.{in_class};
ghost use Rattle.m68_isa.specs.Classes.Class.{DataAlterable};
ghost use Rattle.m68_isa.specs.Operations.{operation};
ghost use Rattle.m68_isa.specs.laws.Fits.{Fits};

use super::fields::{bit8_of, mode_of, size_bits_of, upper_of};
use super::op::Op68;
use super::places::{is_bit_place, is_data_alterable_sized, is_immediate};

/// Words 0000: immediates, bits, movep.
#[inline(always)]
pub fn line_0(word: u32) -> Op68
    requires { (first_of word).line ≡ 0 }
    ensures value { result ≡ operation (first_of word) }
    ensures fits { Fits result word }
{
    if bit8_of(word) == 0 {
        immediates(word)
    } else if is_bit_place(word) {
        Op68::BitByRegister
    } else if mode_of(word) == 1 {
        Op68::Movep
    } else {
        Op68::Illegal
    }
}

/// Words 0000 xxx0.
#[inline(always)]
fn immediates(word: u32) -> Op68
    requires line { (first_of word).line ≡ 0 }
    requires even { (first_of word).bit8 ≡ 0 }
    ensures value { result ≡ operation (first_of word) }
    ensures fits { Fits result word }
{
    let sized = is_data_alterable_sized(word);
    match upper_of(word) {
        0 => if sized { Op68::Ori } else { status(word) },
        1 => if sized { Op68::Andi } else { status(word) },
        2 => if sized { Op68::Subi } else { Op68::Illegal },
        3 => if sized { Op68::Addi } else { Op68::Illegal },
        4 => {
            if is_bit_place(word) && !is_immediate(word) {
                Op68::BitByNumber
            } else {
                Op68::Illegal
            }
        }
        5 => if sized { Op68::Eori } else { status(word) },
        6 => if sized { Op68::Cmpi } else { Op68::Illegal },
        _ => Op68::Illegal,
    }
}

/// ori, andi and eori to CCR and to SR.
fn status(word: u32) -> Op68
    requires line { (first_of word).line ≡ 0 }
    requires even { (first_of word).bit8 ≡ 0 }
    requires logic { has_logic (first_of word).upper ≡ true }
    requires other { (nat_lt (first_of word).size 3 && in_class DataAlterable (first_of word).mode (first_of word).lower) ≡ false }
    ensures value { result ≡ operation (first_of word) }
    ensures fits { Fits result word }
{
    if !is_immediate(word) {
        return Op68::Illegal;
    }
    match size_bits_of(word) {
        0 => Op68::LogicToCcr,
        1 => Op68::Privileged,
        _ => Op68::Illegal,
    }
}
