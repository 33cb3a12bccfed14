// Logical shifts.
ghost use Rattle.std.specs.Prelude.{◌≡◌, ◌<◌};
ghost use Rattle.ppc_integer.specs.Rotate.{shifted_left, shifted_right};

/// `v` shifted left by `n` places; all bits are shifted out where `n` is 32 or more.
#[inline(always)]
pub fn shift_left(v: u32, n: u32) -> u32
    requires { n < 64 }
    ensures { result ≡ shifted_left v n }
{
    ((u64::from(v) << n) % 0x1_0000_0000) as u32
}

/// `v` shifted right by `n` places, with zeros from above.
#[inline(always)]
pub fn shift_right_logical(v: u32, n: u32) -> u32
    requires { n < 64 }
    ensures { result ≡ shifted_right v n }
{
    (u64::from(v) >> n) as u32
}
