// The condition register's bits and fields, and traps.
ghost use Rattle.std.specs.Prelude.{◌≡◌, ◌<◌};
ghost use Rattle.ppc_integer.specs.Traps.{traps_on};
ghost use Rattle.ppc_integer.specs.Condition.{bit_of, field_of, with_bit, with_field};

use mix_bits::{digit, power, with_digit};
use ppc_alu::is_less;

/// A bit of the condition register, bit 0 most significant.
pub fn cr_bit(cr: u32, bit: u32) -> bool
    requires { bit < 32 }
    ensures { result ≡ bit_of cr bit }
{
    digit(cr, 31 - bit, 1) == 1
}

/// A field of the condition register, field 0 most significant.
pub fn cr_field(cr: u32, field: u32) -> u32
    requires { field < 8 }
    ensures value { result ≡ field_of cr field }
    ensures below { result < 16 }
{
    digit(cr, 28 - 4 * field, 4)
}

/// The condition register with a bit replaced.
pub fn with_cr_bit(cr: u32, bit: u32, on: bool) -> u32
    requires { bit < 32 }
    ensures { result ≡ with_bit cr bit on }
{
    with_digit(cr, 31 - bit, 1, u32::from(on))
}

/// The condition register with a field replaced.
#[inline(always)]
pub fn with_cr_field(cr: u32, field: u32, bits: u32) -> u32
    requires field { field < 8 }
    requires bits { bits < 16 }
    ensures { result ≡ with_field cr field bits }
{
    let place = power(28 - 4 * field);
    let without = u64::from(cr) - u64::from(cr_field(cr, field)) * place;
    (without + u64::from(bits) * place) as u32
}

/// The condition register with its first field replaced.
#[inline(always)]
pub fn with_cr0(cr: u32, bits: u32) -> u32
    requires { bits < 16 }
    ensures { result ≡ with_field cr 0 bits }
{
    bits * 0x1000_0000 + cr % 0x1000_0000
}

/// Whether a trap instruction traps: one of the conditions that TO picks holds.
pub fn traps(to: u32, a: u32, b: u32) -> bool
    ensures { result ≡ traps_on to a b }
{
    to / 16 % 2 == 1 && is_less(true, a, b)
        || to / 8 % 2 == 1 && is_less(true, b, a)
        || to / 4 % 2 == 1 && a == b
        || to / 2 % 2 == 1 && is_less(false, a, b)
        || to % 2 == 1 && is_less(false, b, a)
}
