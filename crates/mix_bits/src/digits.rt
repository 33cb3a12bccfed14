ghost use Rattle.std.specs.Prelude.{◌≡◌, ◌+◌, ◌^◌, ◌<◌, ◌≤◌};
ghost use Rattle.mix_bits.specs.Digits.{digit_of, digit_replaced};

/// The power `2 ^ n`.
#[inline(always)]
pub fn power(n: u32) -> u64
    requires { n ≤ 32 }
    ensures { result ≡ 2 ^ n }
{
    1u64 << n
}

/// The `width` bits of `v` from bit `at` on, counted from the least significant bit.
#[inline(always)]
pub fn digit(v: u32, at: u32, width: u32) -> u32
    requires { at + width ≤ 32 }
    ensures { result ≡ digit_of v at width }
{
    (u64::from(v) / power(at) % power(width)) as u32
}

/// `v` with the `width` bits from bit `at` on replaced by `d`.
#[tactic(auto, using(crate::proofs::Powers::replaced_fits))]
pub fn with_digit(v: u32, at: u32, width: u32, d: u32) -> u32
    requires within { at + width ≤ 32 }
    requires fits { d < 2 ^ width }
    ensures { result ≡ digit_replaced v at width d }
{
    let above = u64::from(v) / power(at + width) * power(width);
    let below = u64::from(v) % power(at);
    ((above + u64::from(d)) * power(at) + below) as u32
}
