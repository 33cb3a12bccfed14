// Shifts and rotates, each at once.
ghost use Rattle.std.specs.Prelude.{◌≡◌, ◌≢◌, ◌<◌, ◌+◌, ◌*◌, ◌^◌, ◌==◌, ◌-◌, ◌≤◌, ◌/◌, ◌%◌, ◌&&◌, not, nat_le, nat_lt, if◌then◌else◌, true, false};
ghost use Rattle.std.specs.Int.{from_bool};
ghost use Rattle.mix_bits.specs.Sizes.{modulus as modulus_lem, truncated};
ghost use Rattle.mix_bits.specs.declared.size.Size.TheVariants.{Zero};
ghost use Rattle.mix_bits.specs.Signs.{half as half_lem};
ghost use Rattle.m68_alu.specs.Shifts.{ended, shifted};

use super::sizes::{bits, half, is_negative, modulus};
use super::sums::Out;
use m68_isa::{Ccr, ShiftOp};
use mix_bits::{Size, power, trunc};

/// A value on its way: the bit that went out last, X, and whether the sign changed.
#[derive(Clone, Copy)]
pub struct Shifting {
    pub value: u32,
    pub out: bool,
    pub x: bool,
    pub changed: bool,
}

/// `count` single shifts to the left or to the right.
pub fn shift(op: ShiftOp, left: bool, s: Size, v: u32, count: u32, old: Ccr) -> Out
    requires size { s ≢ Zero }
    requires count { count < 64 }
    ensures value { result ≡ shifted op left s v count old }
    ensures below { result.value < modulus_lem s }
{
    match op {
        ShiftOp::Ls if left => zeros_left(s, v, count, old),
        ShiftOp::Ls => zeros_right(s, v, count, old),
        ShiftOp::As if left => sign_left(s, v, count, old),
        ShiftOp::As => sign_right(s, v, count, old),
        ShiftOp::Rox if left => through_left(s, v, count, old),
        ShiftOp::Rox => through_right(s, v, count, old),
        ShiftOp::Ro if left => round_left(s, v, count, old),
        ShiftOp::Ro => round_right(s, v, count, old),
    }
}

/// `count` shifts to the right that zeros follow, at once.
#[inline]
fn zeros_right(s: Size, v: u32, count: u32, old: Ccr) -> Out
    requires size { s ≢ Zero }
    requires count { count < 64 }
    ensures value { result ≡ shifted ShiftOp.Ls false s v count old }
    ensures below { result.value < modulus_lem s }
{
    let from = u64::from(trunc(v, s));
    let out = (2 * from >> count) % 2 == 1;
    let state = Shifting {
        value: (from >> count) as u32,
        out,
        x: extend_behind(count, out, old.x),
        changed: false,
    };
    end(s, state)
}

/// `count` shifts to the right that the sign follows, at once.
#[inline]
fn sign_right(s: Size, v: u32, count: u32, old: Ccr) -> Out
    requires size { s ≢ Zero }
    requires count { count < 64 }
    ensures value { result ≡ shifted ShiftOp.As false s v count old }
    ensures below { result.value < modulus_lem s }
{
    let from = trunc(v, s);
    if is_negative(s, from) {
        negative_right(s, v, count, old)
    } else {
        zeros_right(s, v, count, old)
    }
}

/// The same of a negative value, whose ones complement zeros follow.
#[inline]
fn negative_right(s: Size, v: u32, count: u32, old: Ccr) -> Out
    requires size { s ≢ Zero }
    requires negative { half_lem s ≤ truncated v s }
    requires count { count < 64 }
    ensures value { result ≡ shifted ShiftOp.As false s v count old }
    ensures below { result.value < modulus_lem s }
{
    let zeros = complement(s, v);
    let out = complement_out(zeros, count);
    let state = Shifting {
        value: (modulus(s) - 1 - (zeros >> count)) as u32,
        out,
        x: extend_behind(count, out, old.x),
        changed: false,
    };
    end(s, state)
}

/// The bit that goes out last of a negative value, by its ones complement.
#[inline]
fn complement_out(zeros: u64, count: u32) -> bool
    requires zeros { zeros < 2 ^ 32 }
    requires count { count < 64 }
    ensures { result ≡ (not (count == 0) && (2 * zeros / 2 ^ count % 2 == 0)) }
{
    count != 0 && (2 * zeros >> count) % 2 == 0
}

/// The ones complement of the low bytes of a value.
#[inline]
fn complement(s: Size, v: u32) -> u64
    ensures value { result ≡ modulus_lem s - 1 - truncated v s }
    ensures below { result < modulus_lem s }
    ensures long { result < 2 ^ 32 }
{
    modulus(s) - 1 - u64::from(trunc(v, s))
}

/// `count` shifts to the left that zeros follow, at once.
#[inline]
fn zeros_left(s: Size, v: u32, count: u32, old: Ccr) -> Out
    requires size { s ≢ Zero }
    requires count { count < 64 }
    ensures value { result ≡ shifted ShiftOp.Ls true s v count old }
    ensures below { result.value < modulus_lem s }
{
    let wide = moved_far(trunc(v, s), count);
    let out = wide / modulus(s) % 2 == 1;
    let state = Shifting {
        value: (wide % modulus(s)) as u32,
        out,
        x: extend_behind(count, out, old.x),
        changed: false,
    };
    end(s, state)
}

/// X behind so many shifts, of which the last one put a bit out.
#[inline]
fn extend_behind(count: u32, out: bool, old: bool) -> bool
    ensures { result ≡ (if count == 0 then old else out) }
{
    if count == 0 { old } else { out }
}

/// `count` arithmetic shifts to the left, at once.
#[inline]
fn sign_left(s: Size, v: u32, count: u32, old: Ccr) -> Out
    requires size { s ≢ Zero }
    requires count { count < 64 }
    ensures value { result ≡ shifted ShiftOp.As true s v count old }
    ensures below { result.value < modulus_lem s }
{
    let from = trunc(v, s);
    let out = zeros_left(s, v, count, old);
    let changed = if is_negative(s, from) {
        has_left((modulus(s) - u64::from(from)) as u32, count, half(s))
    } else {
        has_left(from, count, half(s) - 1)
    };
    Out {
        value: out.value,
        ccr: Ccr {
            v: changed,
            ..out.ccr
        },
    }
}

/// Whether a value that is moved to the left gets greater than the greatest one of a size.
#[inline]
fn has_left(v: u32, count: u32, most: u32) -> bool
    requires { count < 64 }
    ensures { result ≡ nat_lt most (v * 2 ^ count) }
{
    if count > 32 {
        v > 0
    } else {
        u64::from(v) * power(count) > u64::from(most)
    }
}

/// A value moved to the left in a number of twice the bits, 0 where all its bits have left a long.
#[inline]
fn moved_far(v: u32, count: u32) -> u64
    requires { count < 64 }
    ensures near { count < 33 → result ≡ v * 2 ^ count }
    ensures far { 32 < count → result ≡ 0 }
{
    if count > 32 {
        0
    } else {
        u64::from(v) * power(count)
    }
}

/// `count` rotations to the left, at once.
#[inline]
fn round_left(s: Size, v: u32, count: u32, old: Ccr) -> Out
    requires size { s ≢ Zero }
    requires count { count < 64 }
    ensures value { result ≡ shifted ShiftOp.Ro true s v count old }
    ensures below { result.value < modulus_lem s }
{
    let width = bits(s);
    let value = rotated(width, u64::from(trunc(v, s)), count % width) as u32;
    let state = Shifting {
        value,
        out: out_behind(count, value % 2 == 1),
        x: old.x,
        changed: false,
    };
    end(s, state)
}

/// `count` rotations to the right, at once.
#[inline]
fn round_right(s: Size, v: u32, count: u32, old: Ccr) -> Out
    requires size { s ≢ Zero }
    requires count { count < 64 }
    ensures value { result ≡ shifted ShiftOp.Ro false s v count old }
    ensures below { result.value < modulus_lem s }
{
    let width = bits(s);
    let value = rotated(width, u64::from(trunc(v, s)), width - count % width) as u32;
    let state = Shifting {
        value,
        out: out_behind(count, is_negative(s, value)),
        x: old.x,
        changed: false,
    };
    end(s, state)
}

/// `count` rotations to the left through X, at once.
#[inline]
fn through_left(s: Size, v: u32, count: u32, old: Ccr) -> Out
    requires size { s ≢ Zero }
    requires count { count < 64 }
    ensures value { result ≡ shifted ShiftOp.Rox true s v count old }
    ensures below { result.value < modulus_lem s }
{
    let width = bits(s) + 1;
    end_through(s, rotated(width, with_extend(s, v, old.x), count % width))
}

/// `count` rotations to the right through X, at once.
#[inline]
fn through_right(s: Size, v: u32, count: u32, old: Ccr) -> Out
    requires size { s ≢ Zero }
    requires count { count < 64 }
    ensures value { result ≡ shifted ShiftOp.Rox false s v count old }
    ensures below { result.value < modulus_lem s }
{
    let width = bits(s) + 1;
    end_through(
        s,
        rotated(width, with_extend(s, v, old.x), width - count % width),
    )
}

/// The low bytes of a value, with X as one bit more above them.
#[inline]
fn with_extend(s: Size, v: u32, x: bool) -> u64
    ensures is { result ≡ from_bool x * modulus_lem s + truncated v s }
    ensures below { result < 2 * modulus_lem s }
{
    u64::from(x) * modulus(s) + u64::from(trunc(v, s))
}

/// The result of a rotation through X, with X above the value.
#[inline]
fn end_through(s: Size, all: u64) -> Out
    ensures value { result ≡ ended s (record { value = all % modulus_lem s; out = nat_le (modulus_lem s) all; x = nat_le (modulus_lem s) all; changed = false }) }
    ensures below { result.value < modulus_lem s }
{
    let x = all >= modulus(s);
    let state = Shifting {
        value: (all % modulus(s)) as u32,
        out: x,
        x,
        changed: false,
    };
    end(s, state)
}

/// A number of `width` bits, rotated to the left by `turns` bits.
#[inline]
fn rotated(width: u32, v: u64, turns: u32) -> u64
    requires width { width ≤ 33 }
    requires turns { turns ≤ width }
    requires fits { v < 2 ^ width }
    ensures is { result ≡ v % 2 ^ (width - turns) * 2 ^ turns + v / 2 ^ (width - turns) }
    ensures below { result < 2 ^ width }
{
    let below = numbers(width - turns);
    v % below * numbers(turns) + v / below
}

/// How many numbers of so many bits there are.
#[inline(always)]
fn numbers(bits: u32) -> u64
    requires { bits ≤ 33 }
    ensures { result ≡ 2 ^ bits }
{
    1u64 << bits
}

/// The bit behind so many rotations, which is 0 where there was none.
#[inline]
fn out_behind(count: u32, bit: bool) -> bool
    ensures { result ≡ (not (count == 0) && bit) }
{
    count != 0 && bit
}

/// The result after the last shift.
fn end(s: Size, state: Shifting) -> Out
    ensures { result ≡ ended s state }
{
    Out {
        value: state.value,
        ccr: Ccr {
            x: state.x,
            n: is_negative(s, state.value),
            z: state.value == 0,
            v: state.changed,
            c: state.out,
        },
    }
}
