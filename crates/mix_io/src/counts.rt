// Counts that stand still at their last value, and the numbers of the calls that are to fail.
ghost use Rattle.std.specs.Prelude.{◌≡◌};
ghost use Rattle.mix_io.specs.Calls.{CallNumbers, counted};
ghost use Rattle.mix_io.specs.NumberedCalls.{fails_next, after_call, calls_from_one};

use std::marker::Model;

/// A count with one more fault.
pub fn count_fault(count: u64) -> u64
    ensures { result ≡ counted count }
{
    count.saturating_add(1)
}

/// Which calls of an object in memory fail: they are numbered from 1.
#[derive(Drop)]
pub struct Calls {
    fails: Vec<u32>,
    next: u64,
}

impl Model for Calls {
    ghost Value = { CallNumbers };

    ghost view = { λ calls. record { fails = calls.fails.items; next = calls.next } };
}

impl Calls {
    pub fn new(fails: Vec<u32>) -> Calls
        ensures { result ≡ calls_from_one fails.items }
    {
        Calls { fails, next: 1 }
    }

    /// Counts a call, and says whether it is to fail.
    pub fn is_failing(&mut self) -> bool
        ensures answer { result ≡ fails_next self.old }
        ensures counts { self.new ≡ after_call self.old }
    {
        let number = self.next;
        self.next = count_fault(number);
        self.fails.iter().any(|n| u64::from(*n) == number)
    }
}
