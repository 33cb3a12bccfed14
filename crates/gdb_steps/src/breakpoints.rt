// Addresses of code to stop at.
ghost use Rattle.std.specs.Prelude.{◌≡◌, ◌==◌, ◌&&◌, ◌/◌, ◌%◌, ◌++◌, ◌∷◌, [], IfOk, filter, if◌then◌else◌, length, nat_lt, not};
ghost use Rattle.std.specs.List.{list_any};

use arrayvec::ArrayVec;
use mix_bits::NoMemory;
use std::alloc::Global;
use std::marker::Model;

/// At most so many addresses are set.
const MOST: usize = 256;

/// How many marks there are: addresses share one that differ by a multiple of twice as much.
const MARKS: usize = 1024;

/// Addresses to stop at, in the order in which they were set. Whether an address is one costs the same for any number of
/// them, but where it shares its mark with one.
#[derive(Drop)]
pub struct Breakpoints {
    addresses: ArrayVec<u32, MOST>,
    marked: Vec<bool>,
}

impl Model for Breakpoints {
    ghost use Rattle.std.specs.Prelude.{◌≡◌, ℕ, List, All, vec_len};
    ghost use Rattle.gdb_steps.specs.inner.Marks.{IsMarked};

    ghost Value = { List ℕ };

    ghost view = { λ b. b.addresses.items };

    ghost invariant = { λ b. (vec_len b.marked ≡ 1024) × All (IsMarked b.marked.items) b.addresses.items };
}

impl Breakpoints {
    /// No address.
    pub fn new(alloc: Global) -> Result<Breakpoints, NoMemory>
        ensures { IfOk result (λ b. b ≡ []) }
    {
        Ok(Breakpoints {
            addresses: ArrayVec::new(),
            marked: Vec::from_elem(alloc, false, MARKS)?,
        })
    }

    /// Whether an address is set.
    #[inline(always)]
    pub fn has(&self, a: u32) -> bool
        ensures { result ≡ list_any (λ b. b == a) self.now }
    {
        self.marked[mark_of(a)] && self.is_among(a)
    }

    /// The same where its mark is set.
    #[inline(never)]
    fn is_among(&self, a: u32) -> bool
        ensures { result ≡ list_any (λ b. b == a) self.now }
    {
        self.addresses.iter().any(|b| *b == a)
    }

    /// Sets an address. It is false, and all stays as it is, where it is set already, or where 256 are.
    pub fn set(&mut self, a: u32) -> bool
        ensures exact { result ≡ (not (list_any (λ b. b == a) self.old) && nat_lt (length self.old) 256) }
        ensures after { self.new ≡ (if result then self.old ++ a ∷ [] else self.old) }
    {
        if self.is_among(a) {
            return false;
        }
        self.marked[mark_of(a)] = true;
        self.addresses.try_push(a).is_ok()
    }

    /// Clears it again. It is false where it is not set.
    pub fn clear(&mut self, a: u32) -> bool
        ensures exact { result ≡ list_any (λ b. b == a) self.old }
        ensures after { self.new ≡ filter (λ b. not (b == a)) self.old }
    {
        let found = self.is_among(a);
        self.addresses.retain(|b| *b != a);
        found
    }
}

/// The mark of an address.
#[inline(always)]
fn mark_of(a: u32) -> usize
    ensures { result ≡ a / 2 % 1024 }
{
    (a / 2) as usize % MARKS
}
