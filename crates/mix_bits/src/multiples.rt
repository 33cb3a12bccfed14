ghost use Rattle.std.specs.Prelude.{◌≡◌, ◌+◌, ◌%◌, ◌^◌, ◌<◌, ◌≤◌};
ghost use Rattle.mix_bits.specs.Multiples.{rounded_up};

/// The least multiple of `multiple` from `n` on.
#[inline(always)]
pub fn round_up(n: u64, multiple: u64) -> u64
    requires positive { 0 < multiple }
    requires room { n + multiple ≤ 2 ^ 64 }
    ensures is { result ≡ rounded_up multiple n }
    ensures least { n ≤ result }
    ensures most { result < n + multiple }
    ensures whole { result % multiple ≡ 0 }
{
    (n + (multiple - 1)) / multiple * multiple
}
