// Products.
ghost use Rattle.std.specs.Prelude.{◌≡◌, ◌*ℤ◌, false, FitsSigned};
ghost use Rattle.std.specs.Int.{w64};
ghost use Rattle.mix_bits.specs.Sizes.{signed_of};
ghost use Rattle.m68_alu.specs.Products.{flags_of_bits, long_multiplied, long_product, low_bits, multiplied, product as product_lem};

use super::sizes::{leaves, result_flags, signed};
use super::sums::Out;
use m68_isa::Ccr;
use mix_bits::{Size, trunc};

/// The two halves of a result of 64 bits, or a quotient and its remainder, and the condition codes.
#[derive(Clone, Copy, Debug, PartialEq, Eq)]
pub struct Wide {
    /// The low half, or the quotient.
    pub low: u32,
    /// The high half, or the remainder.
    pub high: u32,
    pub ccr: Ccr,
}

/// MULS.W and MULU.W: the long product of two words, with its flags.
pub fn mul(signed: bool, a: u32, b: u32, old: Ccr) -> Out
    ensures { result ≡ multiplied signed a b old }
{
    let value = word_product(signed, a, b);
    Out {
        value,
        ccr: result_flags(Size::Four, value, old),
    }
}

/// The product of two words.
fn word_product(signed: bool, a: u32, b: u32) -> u32
    ensures { result ≡ low_bits 32 (product_lem signed 16 a b) }
{
    if signed {
        signed_product(Size::Two, a, b)
            .rem_euclid(0x1_0000_0000)
            .unsigned_abs() as u32
    } else {
        trunc(a, Size::Two) * trunc(b, Size::Two)
    }
}

/// MULS.L and MULU.L: the product of two longs in two halves. Where it is to be wide, the flags tell of all its
/// 64 bits, and V is clear; else they tell of the low half, and V of a product that leaves it.
pub fn mul_long(signed: bool, wide: bool, a: u32, b: u32, old: Ccr) -> Wide
    ensures { result ≡ long_multiplied signed wide a b old }
{
    if signed {
        let product = signed_product(Size::Four, a, b);
        halves(
            product.cast_unsigned(),
            wide,
            leaves(Size::Four, product),
            old,
        )
    } else {
        let product = u64::from(a) * u64::from(b);
        halves(product, wide, product >= 0x1_0000_0000, old)
    }
}

/// The two halves of a product, and its flags.
fn halves(product: u64, wide: bool, leaves: bool, old: Ccr) -> Wide
    ensures { result ≡ long_product wide leaves product old }
{
    let low = (product % 0x1_0000_0000) as u32;
    let ccr = if wide {
        wide_flags(product, old)
    } else {
        Ccr {
            v: leaves,
            ..result_flags(Size::Four, low, old)
        }
    };
    Wide {
        low,
        high: (product / 0x1_0000_0000) as u32,
        ccr,
    }
}

/// The condition codes of 64 bits: N and Z by all of them, V and C cleared, X as it was.
fn wide_flags(value: u64, old: Ccr) -> Ccr
    ensures { result ≡ flags_of_bits 64 value false old }
{
    Ccr {
        x: old.x,
        n: value >= 0x8000_0000_0000_0000,
        z: value == 0,
        v: false,
        c: false,
    }
}

/// The product of two signed values.
fn signed_product(s: Size, a: u32, b: u32) -> i64
    ensures value { result ≡ signed_of a s *ℤ signed_of b s }
    ensures fits { FitsSigned w64 result }
{
    signed(s, a) * signed(s, b)
}
