// Sums and differences.
ghost use Rattle.std.specs.Prelude.{◌≡◌, ◌≢◌, ◌<◌, ◌%◌, ◌^◌, nat_le, int_lt, ◌||◌, ◌≤ℤ◌, pos, neg_ℤ, false, FitsSigned};
ghost use Rattle.std.specs.Int.{w64, cast_unsigned};
ghost use Rattle.mix_bits.specs.Sizes.{modulus as modulus_lem, signed_of};
ghost use Rattle.mix_bits.specs.declared.size.Size.TheVariants.{Zero};
ghost use Rattle.mix_bits.specs.Signs.{leaves as leaves_lem};
ghost use Rattle.m68_alu.specs.Sums.{compared, difference as difference_lem, difference_of, difference_value as difference_value_lem, difference_with_x, signed_difference, signed_total, sum as sum_lem, sum_of, sum_value as sum_value_lem, sum_with_x, total as total_lem, with_old_zero};

use super::sizes::{is_negative, leaves, modulus, signed};
use m68_isa::Ccr;
use mix_bits::{Size, trunc};

/// A value and the condition codes after it.
#[derive(Clone, Copy, Debug, PartialEq, Eq)]
pub struct Out {
    pub value: u32,
    pub ccr: Ccr,
}

/// ADD.
#[inline]
pub fn add(s: Size, dst: u32, src: u32, old: Ccr) -> Out
    requires { s ≢ Zero }
    ensures value { result ≡ sum_lem s dst src }
    ensures below { result.value < modulus_lem s }
{
    let _ = old;
    sum(s, trunc(dst, s), trunc(src, s), false)
}

/// ADDX: with X, and Z is only cleared.
#[inline]
pub fn addx(s: Size, dst: u32, src: u32, old: Ccr) -> Out
    requires { s ≢ Zero }
    ensures value { result ≡ sum_with_x s old dst src }
    ensures below { result.value < modulus_lem s }
{
    keep_zero(sum(s, trunc(dst, s), trunc(src, s), old.x), old)
}

/// SUB.
#[inline]
pub fn sub(s: Size, dst: u32, src: u32, old: Ccr) -> Out
    requires { s ≢ Zero }
    ensures value { result ≡ difference_lem s dst src }
    ensures below { result.value < modulus_lem s }
{
    let _ = old;
    difference(s, trunc(dst, s), trunc(src, s), false)
}

/// SUBX: with X, and Z is only cleared.
#[inline]
pub fn subx(s: Size, dst: u32, src: u32, old: Ccr) -> Out
    requires { s ≢ Zero }
    ensures value { result ≡ difference_with_x s old dst src }
    ensures below { result.value < modulus_lem s }
{
    keep_zero(difference(s, trunc(dst, s), trunc(src, s), old.x), old)
}

/// CMP: a difference that leaves X as it was.
#[inline]
pub fn cmp(s: Size, dst: u32, src: u32, old: Ccr) -> Out
    requires { s ≢ Zero }
    ensures value { result ≡ compared s old dst src }
    ensures below { result.value < modulus_lem s }
{
    let out = difference(s, trunc(dst, s), trunc(src, s), false);
    Out {
        value: out.value,
        ccr: Ccr {
            x: old.x,
            ..out.ccr
        },
    }
}

/// The result with Z only cleared.
fn keep_zero(out: Out, old: Ccr) -> Out
    ensures value { result ≡ with_old_zero out old }
    ensures same { result.value ≡ out.value }
{
    Out {
        value: out.value,
        ccr: Ccr {
            z: old.z && out.ccr.z,
            ..out.ccr
        },
    }
}

/// The sum of two values of a size and a carry.
fn sum(s: Size, d: u32, r: u32, carry: bool) -> Out
    requires some { s ≢ Zero }
    requires d { d < modulus_lem s }
    requires r { r < modulus_lem s }
    ensures value { result ≡ sum_of s d r carry }
    ensures below { result.value < modulus_lem s }
{
    let value = sum_value(s, d, r, carry);
    let out = carries(s, d, r, carry, value);
    Out {
        value,
        ccr: Ccr {
            x: out,
            n: is_negative(s, value),
            z: value == 0,
            v: sum_overflows(s, d, r, carry),
            c: out,
        },
    }
}

/// Whether a sum, cut to the size, has left it: then it is less than its first part.
#[inline(always)]
fn carries(s: Size, d: u32, r: u32, carry: bool, value: u32) -> bool
    requires d { d < modulus_lem s }
    requires r { r < modulus_lem s }
    requires value { value ≡ sum_value_lem s d r carry }
    ensures { result ≡ nat_le (modulus_lem s) (total_lem d r carry) }
{
    value < d || carry && value == d
}

/// The difference of two values of a size and a borrow.
fn difference(s: Size, d: u32, r: u32, borrow: bool) -> Out
    requires some { s ≢ Zero }
    requires d { d < modulus_lem s }
    requires r { r < modulus_lem s }
    ensures value { result ≡ difference_of s d r borrow }
    ensures below { result.value < modulus_lem s }
{
    let value = difference_value(s, d, r, borrow);
    let out = u64::from(d) < u64::from(r) + u64::from(borrow);
    Out {
        value,
        ccr: Ccr {
            x: out,
            n: is_negative(s, value),
            z: value == 0,
            v: difference_overflows(s, d, r, borrow),
            c: out,
        },
    }
}

/// The sum of two values of a size and a carry, cut to the size.
fn sum_value(s: Size, d: u32, r: u32, carry: bool) -> u32
    requires d { d < modulus_lem s }
    requires r { r < modulus_lem s }
    ensures { result ≡ sum_value_lem s d r carry }
{
    let value = d.wrapping_add(r).wrapping_add(u32::from(carry));
    match s {
        Size::Zero => 0,
        Size::One => value & 0xFF,
        Size::Two => value & 0xFFFF,
        Size::Four => value,
    }
}

/// The difference of two values of a size and a borrow, cut to the size.
fn difference_value(s: Size, d: u32, r: u32, borrow: bool) -> u32
    requires d { d < modulus_lem s }
    requires r { r < modulus_lem s }
    ensures { result ≡ difference_value_lem s d r borrow }
{
    let value = d.wrapping_sub(r).wrapping_sub(u32::from(borrow));
    match s {
        Size::Zero => 0,
        Size::One => value & 0xFF,
        Size::Two => value & 0xFFFF,
        Size::Four => value,
    }
}

/// Whether the sum of two signed values and a carry is no value of the size.
fn sum_overflows(s: Size, d: u32, r: u32, carry: bool) -> bool
    requires { s ≢ Zero }
    ensures { result ≡ leaves_lem s (signed_total (signed_of d s) (signed_of r s) carry) }
{
    if carry {
        leaves(s, total(signed(s, d), signed(s, r), carry))
    } else {
        plain_overflows(s, d, r)
    }
}

/// The same of two values alone: their sum is not what its low bytes are.
#[tactic(auto, using(crate::proofs::Lows::low_leaves))]
fn plain_overflows(s: Size, d: u32, r: u32) -> bool
    requires { s ≢ Zero }
    ensures { result ≡ leaves_lem s (signed_total (signed_of d s) (signed_of r s) false) }
{
    let number = total(signed(s, d), signed(s, r), false);
    differ(number, signed(s, low_of(number)))
}

/// Whether two numbers are not the same.
#[inline(always)]
fn differ(a: i64, b: i64) -> bool
    requires a { FitsSigned w64 a }
    requires b { FitsSigned w64 b }
    ensures { result ≡ (int_lt a b || int_lt b a) }
{
    a < b || b < a
}

/// The low long of a number.
#[inline(always)]
fn low_of(number: i64) -> u32
    requires { FitsSigned w64 number }
    ensures { result ≡ cast_unsigned w64 number % 2 ^ 32 }
{
    (number.cast_unsigned() % 0x1_0000_0000) as u32
}

/// The same of a difference: what is left and the source are the destination, as a sum.
#[tactic(auto, using(crate::proofs::Takings::taken_back))]
fn difference_overflows(s: Size, d: u32, r: u32, borrow: bool) -> bool
    requires some { s ≢ Zero }
    requires d { d < modulus_lem s }
    requires r { r < modulus_lem s }
    ensures { result ≡ leaves_lem s (signed_difference (signed_of d s) (signed_of r s) borrow) }
{
    sum_overflows(s, difference_value(s, d, r, borrow), r, borrow)
}

fn total(d: i64, r: i64, carry: bool) -> i64
    requires d_low { neg_ℤ (pos 2147483648) ≤ℤ d }
    requires d_high { d ≤ℤ pos 2147483647 }
    requires r_low { neg_ℤ (pos 2147483648) ≤ℤ r }
    requires r_high { r ≤ℤ pos 2147483647 }
    ensures value { result ≡ signed_total d r carry }
    ensures low { neg_ℤ (pos 4294967296) ≤ℤ result }
    ensures high { result ≤ℤ pos 4294967296 }
    ensures fits { FitsSigned w64 result }
{
    d + (r + i64::from(carry))
}
