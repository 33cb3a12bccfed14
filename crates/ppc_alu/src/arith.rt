// Sums and products.
ghost use Rattle.std.specs.Prelude.{◌≡◌, ◌≤ℤ◌, ◌+ℤ◌, pos, neg_ℤ, FitsSigned};
ghost use Rattle.std.specs.Int.{from_bool, w64};
ghost use Rattle.ppc_alu.specs.Outcomes.{added, high_product, multiplied, signed_sum};
ghost use Rattle.ppc_alu.specs.Words.{leaves_word};

use super::signed::{is_out, number};

/// A value with its carry CA and its overflow OV.
#[derive(Clone, Copy, Debug, PartialEq, Eq)]
pub struct Arith {
    pub value: u32,
    pub ca: bool,
    pub ov: bool,
}

/// The sum of two words and a carry. A difference is the sum with the complement of a word and a
/// carry.
pub fn add3(a: u32, b: u32, carry: bool) -> Arith
    ensures { result ≡ added a b carry }
{
    let sum = u64::from(a) + u64::from(b) + u64::from(carry);
    Arith {
        value: (sum % 0x1_0000_0000) as u32,
        ca: sum >= 0x1_0000_0000,
        ov: sum_overflows(a, b, carry),
    }
}

/// Whether the sum of two signed words and a carry is no word.
fn sum_overflows(a: u32, b: u32, carry: bool) -> bool
    ensures { result ≡ leaves_word (signed_sum a b carry) }
{
    is_out(total(number(a), number(b), carry))
}

/// The sum of two signed words and a carry.
fn total(a: i64, b: i64, carry: bool) -> i64
    requires a_low { neg_ℤ (pos 2147483648) ≤ℤ a }
    requires a_high { a ≤ℤ pos 2147483647 }
    requires b_low { neg_ℤ (pos 2147483648) ≤ℤ b }
    requires b_high { b ≤ℤ pos 2147483647 }
    ensures value { result ≡ (a +ℤ b) +ℤ pos (from_bool carry) }
    ensures fits { FitsSigned w64 result }
{
    a + b + i64::from(carry)
}

/// The low word of a product; OV tells that the signed product is no word.
pub fn mul_low(a: u32, b: u32) -> Arith
    ensures { result ≡ multiplied a b }
{
    Arith {
        value: a.wrapping_mul(b),
        ca: false,
        ov: is_out(number(a) * number(b)),
    }
}

/// The high word of a product of signed or unsigned words.
pub fn mul_high(signed: bool, a: u32, b: u32) -> u32
    ensures { result ≡ high_product signed a b }
{
    if signed {
        ((number(a) * number(b)).cast_unsigned() >> 32) as u32
    } else {
        ((u64::from(a) * u64::from(b)) >> 32) as u32
    }
}
