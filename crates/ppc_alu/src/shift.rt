// Arithmetic shifts.
ghost use Rattle.std.specs.Prelude.{◌≡◌};
ghost use Rattle.ppc_alu.specs.Outcomes.{shifted};

use super::arith::Arith;
use super::signed::is_negative;

/// `v` shifted right by `n` as a signed number; all bits are shifted out where `n` is 32 or more. CA
/// tells that `v` is negative and a one was shifted out.
pub fn shift_right(v: u32, n: u32) -> Arith
    ensures { result ≡ shifted v n }
{
    if n < 32 {
        Arith {
            value: (v.cast_signed() >> n).cast_unsigned(),
            ca: is_negative(v) && v % (1 << n) != 0,
            ov: false,
        }
    } else if is_negative(v) {
        Arith {
            value: u32::MAX,
            ca: true,
            ov: false,
        }
    } else {
        Arith {
            value: 0,
            ca: false,
            ov: false,
        }
    }
}
