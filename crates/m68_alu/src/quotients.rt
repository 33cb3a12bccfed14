// Quotients.
ghost use Rattle.std.specs.Prelude.{◌≡◌, ◌≢◌, ◌<◌, ◌^◌, ◌≤ℤ◌, pos, neg_ℤ, int_div, int_rem, true, false, FitsSigned, None};
ghost use Rattle.std.specs.Int.{w64};
ghost use Rattle.mix_bits.specs.Sizes.{signed_of, truncated};
ghost use Rattle.mix_bits.specs.declared.size.Size.TheVariants.{Two, Four};
ghost use Rattle.m68_alu.specs.Products.{both, divided, integer, long_divided, long_quotient, low_bits, overflowed, packed as packed_lem, paired as paired_lem, quotient_in};

use super::products::Wide;
use super::sizes::{leaves, result_flags, signed};
use super::sums::Out;
use m68_isa::Ccr;
use mix_bits::{Size, trunc};

/// What a division by a word gives.
#[derive(Clone, Copy, Debug, PartialEq, Eq)]
pub enum Quotient {
    /// The divisor is 0.
    ByZero,
    /// The quotient is no word; these are the condition codes.
    Overflow(Ccr),
    /// The quotient in the low word, the remainder in the high one.
    Done(Out),
}

/// What a division by a long gives.
#[derive(Clone, Copy, Debug, PartialEq, Eq)]
pub enum LongQuotient {
    /// The divisor is 0.
    ByZero,
    /// The quotient is no long; these are the condition codes.
    Overflow(Ccr),
    /// The quotient low, the remainder high.
    Done(Wide),
}

/// DIVS.W and DIVU.W: the long `a` by the word `b`.
pub fn div(signed: bool, a: u32, b: u32, old: Ccr) -> Quotient
    ensures { result ≡ divided signed a b old }
{
    if trunc(b, Size::Two) == 0 {
        Quotient::ByZero
    } else if signed {
        signed_quotient(a, b, old)
    } else {
        unsigned_quotient(a, trunc(b, Size::Two), old)
    }
}

/// The quotient of unsigned numbers.
fn unsigned_quotient(a: u32, b: u32, old: Ccr) -> Quotient
    requires some { b ≢ 0 }
    requires word { b < 2 ^ 16 }
    ensures { result ≡ quotient_in false 16 (pos a) (pos b) (Quotient.Overflow (overflowed old)) (packed_lem old) }
{
    let quotient = a / b;
    if quotient >= 0x1_0000 {
        Quotient::Overflow(overflow_flags(old))
    } else {
        pack(quotient, a % b, old)
    }
}

/// The quotient of signed numbers.
fn signed_quotient(a: u32, b: u32, old: Ccr) -> Quotient
    requires { truncated b Two ≢ 0 }
    ensures { result ≡ quotient_in true 16 (signed_of a Four) (signed_of b Two) (Quotient.Overflow (overflowed old)) (packed_lem old) }
{
    let dividend = signed(Size::Four, a);
    let divisor = divisor(Size::Two, b);
    let quotient = divide(dividend, divisor);
    if leaves(Size::Two, quotient) {
        Quotient::Overflow(overflow_flags(old))
    } else {
        pack(word(quotient), word(rest(dividend, divisor)), old)
    }
}

/// DIVS.L and DIVU.L: 64 bits, given as two longs, by a long.
pub fn div_long(signed: bool, high: u32, low: u32, by: u32, old: Ccr) -> LongQuotient
    ensures { result ≡ long_divided signed high low by old }
{
    if by == 0 {
        return LongQuotient::ByZero;
    }
    let dividend = u64::from(high) * 0x1_0000_0000 + u64::from(low);
    let quotient = if signed {
        signed_long_quotient(dividend, by)
    } else {
        unsigned_long_quotient(dividend, by)
    };
    match quotient {
        None => LongQuotient::Overflow(overflow_flags(old)),
        Some((quotient, remainder)) => pair(quotient, remainder, old),
    }
}

/// The quotient and the remainder of 64 bits by a long, without signs, or nothing where the quotient is no long.
#[inline(always)]
pub fn unsigned_long_quotient(dividend: u64, by: u32) -> Option<(u32, u32)>
    requires { by ≢ 0 }
    ensures { result ≡ long_quotient false dividend by }
{
    let divisor = u64::from(by);
    let quotient = dividend / divisor;
    if quotient >= 0x1_0000_0000 {
        None
    } else {
        Some((quotient as u32, (dividend % divisor) as u32))
    }
}

/// The same with signs.
#[inline(always)]
pub fn signed_long_quotient(dividend: u64, by: u32) -> Option<(u32, u32)>
    requires { by ≢ 0 }
    ensures { result ≡ long_quotient true dividend by }
{
    quotient_of_signed(signed_dividend(dividend), by)
}

/// The same of a signed number. The least one gives no long by any divisor.
#[inline(always)]
fn quotient_of_signed(a: i64, b: u32) -> Option<(u32, u32)>
    requires { b ≢ 0 }
    ensures { result ≡ quotient_in true 32 a (signed_of b Four) None both }
{
    if a == i64::MIN {
        return None;
    }
    let divisor = divisor(Size::Four, b);
    let quotient = divide(a, divisor);
    if leaves(Size::Four, quotient) {
        None
    } else {
        Some((long(quotient), long(rest(a, divisor))))
    }
}

/// The signed number that 64 bits are.
fn signed_dividend(dividend: u64) -> i64
    ensures value { result ≡ integer true 64 dividend }
    ensures fits { FitsSigned w64 result }
{
    dividend.cast_signed()
}

/// A divisor that is not 0.
fn divisor(s: Size, b: u32) -> i64
    requires { truncated b s ≢ 0 }
    ensures value { result ≡ signed_of b s }
    ensures some { result ≢ pos 0 }
    ensures fits { FitsSigned w64 result }
{
    signed(s, b)
}

/// The quotient, rounded toward zero.
fn divide(x: i64, y: i64) -> i64
    requires low { neg_ℤ (pos 9223372036854775807) ≤ℤ x }
    requires some { y ≢ pos 0 }
    ensures value { result ≡ int_div x y }
    ensures fits { FitsSigned w64 result }
{
    x / y
}

/// The remainder, with the dividend's sign.
fn rest(x: i64, y: i64) -> i64
    requires low { neg_ℤ (pos 9223372036854775807) ≤ℤ x }
    requires some { y ≢ pos 0 }
    ensures value { result ≡ int_rem x y }
    ensures fits { FitsSigned w64 result }
{
    x % y
}

/// The low word of a number.
fn word(z: i64) -> u32
    ensures value { result ≡ low_bits 16 z }
    ensures below { result < 2 ^ 16 }
{
    z.rem_euclid(0x1_0000).unsigned_abs() as u32
}

/// The low long of a number.
fn long(z: i64) -> u32
    ensures { result ≡ low_bits 32 z }
{
    z.rem_euclid(0x1_0000_0000).unsigned_abs() as u32
}

/// A quotient and a remainder in one long, with the flags of the quotient.
fn pack(quotient: u32, remainder: u32, old: Ccr) -> Quotient
    requires quotient { quotient < 2 ^ 16 }
    requires remainder { remainder < 2 ^ 16 }
    ensures { result ≡ packed_lem old quotient remainder }
{
    Quotient::Done(Out {
        value: remainder * 0x1_0000 + quotient,
        ccr: result_flags(Size::Two, quotient, old),
    })
}

/// A quotient and a remainder of a long each, with the flags of the quotient.
fn pair(quotient: u32, remainder: u32, old: Ccr) -> LongQuotient
    ensures { result ≡ paired_lem old quotient remainder }
{
    LongQuotient::Done(Wide {
        low: quotient,
        high: remainder,
        ccr: result_flags(Size::Four, quotient, old),
    })
}

/// The condition codes where the quotient leaves its size.
fn overflow_flags(old: Ccr) -> Ccr
    ensures { result ≡ overflowed old }
{
    Ccr {
        v: true,
        c: false,
        ..old
    }
}
