// The numbers of a size.
ghost use Rattle.std.specs.Prelude.{◌≡◌, ◌≢◌, ◌<◌, ◌≤◌, ◌*◌, ◌^◌, ◌≤ℤ◌, pos, neg_ℤ, FitsSigned};
ghost use Rattle.std.specs.Int.{w64};
ghost use Rattle.mix_bits.specs.Sizes.{bytes_of, modulus as modulus_lem, signed_of};
ghost use Rattle.mix_bits.specs.declared.size.Size.TheVariants.{Zero};
ghost use Rattle.mix_bits.specs.Signs.{half as half_lem, is_negative as is_negative_lem, leaves as leaves_lem};
ghost use Rattle.m68_alu.specs.Sizes.{result_flags as result_flags_lem};

use m68_isa::Ccr;
use mix_bits::Size;

/// How many values there are of this size.
pub fn modulus(s: Size) -> u64
    ensures value { result ≡ modulus_lem s }
    ensures low { 1 ≤ result }
    ensures high { result ≤ 2 ^ 32 }
{
    match s {
        Size::Zero => 1,
        Size::One => 0x100,
        Size::Two => 0x1_0000,
        Size::Four => 0x1_0000_0000,
    }
}

/// How many bits a value of this size has.
pub fn bits(s: Size) -> u32
    ensures value { result ≡ 8 * bytes_of s }
    ensures most { result ≤ 32 }
    ensures some { s ≢ Zero → 0 < result }
    ensures values { 2 ^ result ≡ modulus_lem s }
{
    match s {
        Size::Zero => 0,
        Size::One => 8,
        Size::Two => 16,
        Size::Four => 32,
    }
}

/// The number from which on a value of the size is negative.
pub fn half(s: Size) -> u32
    ensures value { result ≡ half_lem s }
    ensures high { result ≤ 2 ^ 31 }
    ensures whole { s ≢ Zero → modulus_lem s ≡ 2 * result }
{
    match s {
        Size::Zero => 1,
        Size::One => 0x80,
        Size::Two => 0x8000,
        Size::Four => 0x8000_0000,
    }
}

/// Whether a value of the size is negative.
pub fn is_negative(s: Size, value: u32) -> bool
    ensures { result ≡ is_negative_lem s value }
{
    value >= half(s)
}

/// The signed number that a value of the size is.
pub fn signed(s: Size, value: u32) -> i64
    ensures value { result ≡ signed_of value s }
    ensures low { neg_ℤ (pos 2147483648) ≤ℤ result }
    ensures high { result ≤ℤ pos 2147483647 }
    ensures fits { FitsSigned w64 result }
{
    match s {
        Size::Zero => 0,
        Size::One => i64::from(((value % 0x100) as u8).cast_signed()),
        Size::Two => i64::from(((value % 0x1_0000) as u16).cast_signed()),
        Size::Four => i64::from(value.cast_signed()),
    }
}

/// Whether a number is no signed number of the size.
pub fn leaves(s: Size, number: i64) -> bool
    ensures { result ≡ leaves_lem s number }
{
    let half = i64::from(half(s));
    number < -half || number >= half
}

/// Sets the condition codes of a value that is moved, and leaves X where it stands.
#[inline(always)]
pub fn set_result_flags(ccr: &mut Ccr, s: Size, value: u32)
    ensures { ccr.new ≡ result_flags_lem s value ccr.old }
{
    ccr.n = is_negative(s, value);
    ccr.z = value == 0;
    ccr.v = false;
    ccr.c = false;
}

/// The condition codes of a value that is moved: N and Z by the value, V and C cleared, X as it was.
#[inline]
pub fn result_flags(s: Size, value: u32, old: Ccr) -> Ccr
    ensures { result ≡ result_flags_lem s value old }
{
    Ccr {
        x: old.x,
        n: is_negative(s, value),
        z: value == 0,
        v: false,
        c: false,
    }
}
