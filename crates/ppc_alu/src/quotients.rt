// Quotients.
ghost use Rattle.std.specs.Prelude.{◌≡◌, true, false, int_div, FitsSigned};
ghost use Rattle.std.specs.Int.{CanDivide, cast_unsigned, w32};
ghost use Rattle.ppc_alu.specs.Outcomes.{divided, has_no_quotient as has_no_quotient_lem};
ghost use Rattle.ppc_alu.specs.Words.{signed};

use super::arith::Arith;

/// The quotient of signed or unsigned words, rounded toward zero. Where there is none, the value is 0
/// and OV tells it.
pub fn divide(signed: bool, a: u32, b: u32) -> Arith
    ensures { result ≡ divided signed a b }
{
    if has_no_quotient(signed, a, b) {
        Arith {
            value: 0,
            ca: false,
            ov: true,
        }
    } else {
        Arith {
            value: if signed { signed_quotient(a, b) } else { a / b },
            ca: false,
            ov: false,
        }
    }
}

/// Whether the divisor is 0 or the signed quotient is no word.
fn has_no_quotient(signed: bool, a: u32, b: u32) -> bool
    ensures { result ≡ has_no_quotient_lem signed a b }
{
    b == 0 || (signed && a == 0x8000_0000 && b == 0xFFFF_FFFF)
}

/// The quotient of signed words.
fn signed_quotient(a: u32, b: u32) -> u32
    requires { has_no_quotient_lem true a b ≡ false }
    ensures { result ≡ cast_unsigned w32 (int_div (signed a) (signed b)) }
{
    truncated(a.cast_signed(), b.cast_signed()).cast_unsigned()
}

/// The quotient, rounded toward zero.
fn truncated(x: i32, y: i32) -> i32
    requires { CanDivide w32 x y }
    ensures value { result ≡ int_div x y }
    ensures fits { FitsSigned w32 result }
{
    x / y
}
