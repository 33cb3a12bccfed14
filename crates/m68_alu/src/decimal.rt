// Decimal arithmetic of two digits in a byte.
ghost use Rattle.std.specs.Prelude.{◌≡◌, ◌<◌, ◌≤◌, ◌≤ℤ◌, ◌-ℤ◌, pos, neg_ℤ, FitsSigned};
ghost use Rattle.std.specs.Int.{w32};
ghost use Rattle.m68_alu.specs.Decimal.{decimal_added, decimal_difference, decimal_out as decimal_out_lem, decimal_subtracted, high_digit as high_digit_lem, low_difference as low_difference_lem, low_sum as low_sum_lem};

use super::sums::Out;
use m68_isa::Ccr;

/// ABCD.
pub fn abcd(dst: u32, src: u32, old: Ccr) -> Out
    ensures value { result ≡ decimal_added dst src old }
    ensures below { result.value < 256 }
{
    let total = high_digit(dst) + high_digit(src) + low_sum(dst, src, old.x);
    if total > 0x9F {
        decimal_out((total + 0x60) % 256, true, old)
    } else {
        decimal_out(total % 256, false, old)
    }
}

/// SBCD.
pub fn sbcd(dst: u32, src: u32, old: Ccr) -> Out
    ensures value { result ≡ decimal_subtracted dst src old }
    ensures below { result.value < 256 }
{
    let total = difference(dst, src, old.x);
    if total < 0 {
        decimal_out((total - 0x60).rem_euclid(256).unsigned_abs(), true, old)
    } else {
        decimal_out(total.rem_euclid(256).unsigned_abs(), false, old)
    }
}

/// The high digit of a byte, where it stands.
fn high_digit(v: u32) -> u32
    ensures value { result ≡ high_digit_lem v }
    ensures high { result ≤ 240 }
{
    v % 256 / 16 * 16
}

/// The sum of the low digits, brought back to a digit and a carry.
fn low_sum(d: u32, s: u32, x: bool) -> u32
    ensures value { result ≡ low_sum_lem d s x }
    ensures high { result ≤ 37 }
{
    let sum = d % 16 + s % 16 + u32::from(x);
    if sum > 9 { sum + 6 } else { sum }
}

/// The difference of the bytes, its low digit brought back.
fn difference(d: u32, s: u32, x: bool) -> i32
    ensures value { result ≡ decimal_difference d s x }
    ensures low { neg_ℤ (pos 300) ≤ℤ result }
    ensures high { result ≤ℤ pos 300 }
    ensures fits { FitsSigned w32 result }
{
    high_difference(d, s) + low_difference(d, s, x)
}

/// The difference of the high digits, where they stand.
fn high_difference(d: u32, s: u32) -> i32
    ensures value { result ≡ pos (high_digit_lem d) -ℤ pos (high_digit_lem s) }
    ensures low { neg_ℤ (pos 240) ≤ℤ result }
    ensures high { result ≤ℤ pos 240 }
    ensures fits { FitsSigned w32 result }
{
    high_digit(d).cast_signed() - high_digit(s).cast_signed()
}

/// The difference of the low digits, brought back to a digit and a borrow.
fn low_difference(d: u32, s: u32, x: bool) -> i32
    ensures value { result ≡ low_difference_lem d s x }
    ensures low { neg_ℤ (pos 22) ≤ℤ result }
    ensures high { result ≤ℤ pos 15 }
    ensures fits { FitsSigned w32 result }
{
    let low = (d % 16).cast_signed() - (s % 16 + u32::from(x)).cast_signed();
    if low < 0 { low - 6 } else { low }
}

/// A result with X and C as the carry, and Z only cleared.
fn decimal_out(value: u32, carry: bool, old: Ccr) -> Out
    ensures { result ≡ decimal_out_lem value carry old }
{
    Out {
        value,
        ccr: Ccr {
            x: carry,
            n: false,
            z: old.z && value == 0,
            v: false,
            c: carry,
        },
    }
}
