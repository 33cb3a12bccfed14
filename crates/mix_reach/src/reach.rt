ghost use Rattle.std.specs.Prelude.{◌≡◌};
ghost use Rattle.mix_reach.specs.laws.Ranges.{filling as filling_of, nothing as nothing_of, plain as plain_of, range as range_of};
ghost use Rattle.mix_reach.specs.Ranges.{stored_at as stored_at_of};

/// A range of bytes outside of which none changes, from the address of the first up to the one behind the last. It may
/// reach beyond memory.
#[derive(Clone, Copy)]
pub struct Reach {
    pub low: usize,
    pub high: usize,
}

/// Where a step stores that makes or gives up no frame.
#[derive(Clone, Copy)]
pub struct Stores {
    /// Where, if it makes no block.
    pub reach: Reach,
    /// In how many bytes of a block that it makes, from its first one on.
    pub filled: u32,
}

/// What is told of where a step stores.
#[derive(Clone, Copy)]
pub enum Told {
    /// Nowhere, and in no block that it makes.
    Nowhere,
    /// There, and in no block that it makes.
    There(Reach),
    /// That has to be looked at further.
    Unknown,
}

/// In a range.
#[inline(always)]
pub fn plain(reach: Reach) -> Stores
    ensures { result ≡ plain_of reach }
{
    Stores { reach, filled: 0 }
}

/// Where a step stores that stores nowhere.
#[inline(always)]
pub fn no_stores() -> Stores
    ensures { result ≡ plain_of nothing_of }
{
    plain(nothing())
}

/// Where a step stores, if anywhere.
#[inline(always)]
pub(crate) fn stored_at(reach: Option<Reach>) -> Stores
    ensures { result ≡ stored_at_of reach }
{
    match reach {
        Some(reach) => plain(reach),
        None => no_stores(),
    }
}

/// In a block that is made.
pub(crate) fn filling(filled: u32) -> Stores
    ensures { result ≡ filling_of filled }
{
    Stores {
        reach: nothing(),
        filled,
    }
}

/// The `n` bytes at an address.
#[inline(always)]
pub(crate) fn range(at: u32, n: u32) -> Reach
    ensures { result ≡ range_of at n }
{
    let low = at as usize;
    Reach {
        low,
        high: low + n as usize,
    }
}

/// No byte.
#[inline(always)]
pub(crate) fn nothing() -> Reach
    ensures { result ≡ nothing_of }
{
    Reach { low: 0, high: 0 }
}
