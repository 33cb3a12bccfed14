ghost use Rattle.std.specs.Prelude.{◌≡◌, ◌<◌};
ghost use Rattle.m68_isa.specs.Conditions.{is_not_less, holds};
ghost use Rattle.m68_isa.specs.laws.Conditions.{AreOpposite};

use super::registers::Ccr;

/// Whether a condition, from 0 to 15, holds of the condition codes
/// (M68000 Family Programmer's Reference Manual, table 3-19).
#[inline]
pub fn holds(condition: u32, ccr: &Ccr) -> bool
    requires { condition < 16 }
    ensures { result ≡ holds condition ccr.now }
{
    match condition {
        0 => true,
        1 => false,
        2 => !ccr.c && !ccr.z,
        3 => ccr.c || ccr.z,
        4 => !ccr.c,
        5 => ccr.c,
        6 => !ccr.z,
        7 => ccr.z,
        8 => !ccr.v,
        9 => ccr.v,
        10 => !ccr.n,
        11 => ccr.n,
        12 => is_not_less(ccr),
        13 => !is_not_less(ccr),
        14 => is_not_less(ccr) && !ccr.z,
        _ => !is_not_less(ccr) || ccr.z,
    }
}

/// Whether N and V are the same.
#[inline(always)]
fn is_not_less(ccr: &Ccr) -> bool
    ensures { result ≡ is_not_less ccr.now }
{
    if ccr.n { ccr.v } else { !ccr.v }
}

/// That a condition with its last bit turned is its opposite. The clause is its point.
pub fn condition_law()
    ensures { AreOpposite }
{}
