ghost use Rattle.std.specs.Prelude.{◌≡◌};
ghost use Rattle.mix_bits.specs.Addresses.{onward as onward_of, backward as backward_of, aligned as aligned_of};

/// The address `n` bytes after `a`; sums of addresses wrap.
#[inline(always)]
pub fn onward(a: u32, n: u32) -> u32
    ensures { result ≡ onward_of a n }
{
    a.wrapping_add(n)
}

/// The address `n` bytes before `a`; differences of addresses wrap.
#[inline(always)]
pub fn backward(a: u32, n: u32) -> u32
    ensures { result ≡ backward_of a n }
{
    a.wrapping_sub(n)
}

/// The address without its two low bits.
#[inline(always)]
pub fn aligned(a: u32) -> u32
    ensures { result ≡ aligned_of a }
{
    a / 4 * 4
}
