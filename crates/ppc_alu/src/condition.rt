// Comparisons, and what is done with two bits of the condition register.
ghost use Rattle.std.specs.Prelude.{◌≡◌, ◌<◌};
ghost use Rattle.ppc_alu.specs.ConditionBits.{combined, compared, is_less as is_less_lem};

/// An operation on two bits of the condition register.
#[derive(Clone, Copy)]
pub enum CrOp {
    And,
    Or,
    Xor,
    Nand,
    Nor,
    /// Equivalent: whether both are the same.
    Eqv,
    /// The first, and not the second.
    Andc,
    /// The first, or not the second.
    Orc,
}

/// The four bits LT, GT, EQ and SO of a comparison, LT most significant.
#[inline(always)]
pub fn compare(signed: bool, a: u32, b: u32, so: bool) -> u32
    ensures is { result ≡ compared signed a b so }
    ensures below { result < 16 }
{
    let order = if is_less(signed, a, b) {
        8
    } else if a == b {
        2
    } else {
        4
    };
    order + u32::from(so)
}

/// Whether a word is below another one, as signed or unsigned numbers.
pub fn is_less(signed: bool, a: u32, b: u32) -> bool
    ensures { result ≡ is_less_lem signed a b }
{
    if signed {
        a.cast_signed() < b.cast_signed()
    } else {
        a < b
    }
}

/// Two bits of the condition register combined.
pub fn cr_logic(op: CrOp, a: bool, b: bool) -> bool
    ensures { result ≡ combined op a b }
{
    match op {
        CrOp::And => a && b,
        CrOp::Or => a || b,
        CrOp::Xor => a != b,
        CrOp::Nand => !(a && b),
        CrOp::Nor => !(a || b),
        CrOp::Eqv => a == b,
        CrOp::Andc => a && !b,
        CrOp::Orc => a || !b,
    }
}
