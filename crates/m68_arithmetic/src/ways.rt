ghost use Rattle.std.specs.Prelude.{◌≡◌};
ghost use Rattle.m68_arithmetic.specs.inner.Parts.{away as away_of};

use mix_bits::{backward, onward};

/// Which way an address goes.
#[derive(Clone, Copy)]
pub enum Way {
    Onward,
    Backward,
}

/// The address `n` bytes away; sums and differences of addresses wrap.
#[inline(always)]
pub fn away(way: Way, a: u32, n: u32) -> u32
    ensures { result ≡ away_of way a n }
{
    match way {
        Way::Onward => onward(a, n),
        Way::Backward => backward(a, n),
    }
}
