ghost use Rattle.std.specs.Prelude.{◌≡◌, ◌+◌, ◌-◌, ◌*◌, ◌/◌, ◌%◌, ◌≤◌, ◌<◌, ◌^◌, nat_le, ◌&&◌, true, false, length, replicate, None, IsTrue, IfOk, MatchOption, MatchResult};
ghost use Rattle.std.specs.Bool.{OnTrue};
ghost use Rattle.byteorder.specs.Endian.{big_bytes};
ghost use Rattle.mix_bits.specs.Sizes.{bytes_of, modulus};
ghost use Rattle.mix_bits.specs.declared.size.Size.TheVariants.{One, Two, Four};
ghost use Rattle.big_memory.specs.Lists.{part, zeros};
ghost use Rattle.big_memory.specs.MemoryClauses.{IsDoneUnless, IsDoneUnlessRefused, with_marks};
ghost use Rattle.big_memory.specs.Memory.{IsRam, copied, copy_refusal, filled, floor_of, in_memory, loaded, meets_gate, meets_guard, refusal, stored, with_bytes, zeroed};
ghost use Rattle.big_memory.specs.Open.{is_open};
ghost use Rattle.big_memory.specs.Numbers.{AreBytes, AreLongs, bytes_of_longs, long_at, longs_at, number_at};
ghost use Rattle.big_memory.specs.StoresWhole.{Stores, StoresIf, longs_refusal, with_longs};
ghost use Rattle.big_memory.specs.Stores.{stored_long, stored_longs, stored_value};

use super::map::{GATE_PAGE, GATE_PAGE_END};
use super::refusals::Access;
use super::{bytes, marks};
use mix_bits::{NoMemory, Size, onward};
use std::alloc::Global;
use std::marker::Model;

/// How many bytes one mark of the guard covers.
const UNIT: usize = 16;

/// How many longs are tested as one range before they are tested one by one.
const FEW_LONGS: usize = 32;

/// The machine's memory, big endian, with a guard of one bit for each unit of 16 bytes.
///
/// Calls refuse an access as a whole, before they change anything. An access of no bytes is refused
/// nowhere.
#[derive(Drop)]
pub struct Ram {
    bytes: Vec<u8>,
    guard: Vec<u32>,
}

impl Model for Ram {
    ghost use Rattle.big_memory.specs.Marks.{marks_of};
    ghost use Rattle.big_memory.specs.Memory.{Memory, IsRam};

    ghost Value = { Memory };

    ghost view = { λ ram. record { bytes = ram.bytes.items; marks = marks_of ram.guard.items } };

    ghost invariant = { λ ram. IsRam (record { bytes = ram.bytes.items; marks = marks_of ram.guard.items }) };
}

impl Ram {
    /// Memory of whole KiB, all zeros, with nothing guarded.
    pub fn new(alloc: Global, bytes: u32) -> Result<Ram, NoMemory>
        requires least { 131072 ≤ bytes }
        requires most { bytes ≤ 16777216 }
        requires whole { bytes % 1024 ≡ 0 }
        ensures zeros { IfOk result (λ ram. ram ≡ zeroed bytes) }
        ensures whole { IfOk result (λ ram. IsRam ram) }
    {
        Ok(Ram {
            bytes: vec![in alloc; 0; bytes as usize]?,
            guard: vec![in alloc; 0; bytes as usize / UNIT / marks::UNITS_A_WORD]?,
        })
    }

    /// How many bytes there are.
    pub fn len(&self) -> u32
        ensures len { result ≡ length self.now.bytes }
        ensures whole { IsRam self.now }
    {
        self.bytes.len() as u32
    }

    /// All bytes, from address 0 on.
    #[inline(always)]
    pub fn bytes(&self) -> &[u8]
        ensures is { result.now ≡ self.now.bytes }
        ensures whole { IsRam self.now }
        ensures bytes { AreBytes self.now.bytes }
    {
        bytes::are_bytes(&self.bytes);
        &self.bytes
    }

    /// What every memory meets. It does nothing: the clause is its point.
    #[inline(always)]
    pub fn meets_invariant(&self)
        ensures { IsRam self.now }
    {
        let _ = &self.bytes;
    }

    /// The lowest address of the stack.
    pub fn floor(&self) -> u32
        ensures { result ≡ floor_of self.now }
    {
        self.len() - self.len() / 4
    }

    /// Whether `n` bytes at `a` lie between the gate page and the stack, where every store is done.
    #[inline(always)]
    #[tactic(auto, using(crate::proofs::Rams::open_below_floor))]
    pub fn is_below_stack(&self, a: u32, n: u32) -> bool
        ensures is { result ≡ (nat_le 0x2000 a && nat_le (a + n) (floor_of self.now)) }
        ensures passes { IsTrue result → refusal self.now a n ≡ None }
    {
        self.meets_invariant();
        a >= GATE_PAGE_END && u64::from(a) + u64::from(n) <= u64::from(self.floor())
    }

    /// The number in the bytes at `a`.
    #[inline(always)]
    pub fn load(&self, a: u32, s: Size) -> Result<u32, Access>
        ensures is { result ≡ loaded self.now a s }
        ensures fits { IfOk result (λ v. v < modulus s) }
    {
        let count = s.bytes();
        if count == 0 {
            Ok(0)
        } else if self.has(a, count) {
            Ok(bytes::read_number(&self.bytes, a as usize, s))
        } else {
            Err(Access::Outside(a))
        }
    }

    /// The byte at `a`.
    #[inline(always)]
    pub fn load_byte(&self, a: u32) -> Result<u32, Access>
        ensures is { result ≡ loaded self.now a One }
        ensures fits { IfOk result (λ v. v < 2 ^ 8) }
    {
        self.load(a, Size::One)
    }

    /// The number in the two bytes at `a`.
    #[inline(always)]
    pub fn load_word(&self, a: u32) -> Result<u32, Access>
        ensures is { result ≡ loaded self.now a Two }
        ensures fits { IfOk result (λ v. v < 2 ^ 16) }
    {
        self.load(a, Size::Two)
    }

    /// The number in the four bytes at `a`.
    #[inline(always)]
    pub fn load_long(&self, a: u32) -> Result<u32, Access>
        ensures { result ≡ loaded self.now a Four }
    {
        self.load(a, Size::Four)
    }

    /// The number in the bytes at `a`, which lie in memory.
    #[inline(always)]
    pub fn read(&self, a: u32, s: Size) -> u32
        requires { a + bytes_of s ≤ length self.now.bytes }
        ensures { result ≡ number_at a (bytes_of s) self.now.bytes }
    {
        bytes::read_number(&self.bytes, a as usize, s)
    }

    /// The long at `a`, which lies in memory.
    #[inline(always)]
    #[tactic(auto, unfolding(crate::specs::Numbers::long_at))]
    pub fn read_long(&self, a: u32) -> u32
        requires { a + 4 ≤ length self.now.bytes }
        ensures { result ≡ long_at a self.now.bytes }
    {
        bytes::read_number(&self.bytes, a as usize, Size::Four)
    }

    /// Reads as many longs from `a` on as there is place for, all of which lie in memory.
    #[inline(always)]
    pub fn read_longs(&self, a: u32, to: &mut [u32])
        requires { a + 4 * length to.old ≤ length self.now.bytes }
        ensures { to.new ≡ longs_at (length to.old) a self.now.bytes }
    {
        bytes::read_longs(&self.bytes, a as usize, to);
    }

    /// Stores the low bytes of `v` at `a`.
    #[inline(always)]
    pub fn store(&mut self, a: u32, s: Size, v: u32) -> Result<(), Access>
        ensures { IsDoneUnlessRefused self.old a (bytes_of s) (stored self.old a s v) self.new result (record {}) }
    {
        if self.is_open(a, s.bytes()) {
            bytes::write_number(&mut self.bytes, a as usize, s, v);
            Ok(())
        } else {
            self.store_probed(a, s, v)
        }
    }

    /// The same, for bytes that may meet two units, the gate page, the guard or the end of memory.
    #[inline(never)]
    fn store_probed(&mut self, a: u32, s: Size, v: u32) -> Result<(), Access>
        ensures { IsDoneUnlessRefused self.old a (bytes_of s) (stored self.old a s v) self.new result (record {}) }
    {
        let count = s.bytes();
        self.probe(a, count)?;
        if count > 0 {
            bytes::write_number(&mut self.bytes, a as usize, s, v);
        }
        Ok(())
    }

    /// Stores the low bytes of `v` at `a`: it is done, or refused with nothing changed.
    #[inline(always)]
    pub fn store_value(&mut self, a: u32, s: Size, v: u32) -> Result<(), Access>
        ensures { Stores result (stored_value self.old a s v) self.old self.new }
    {
        self.meets_invariant();
        self.store(a, s, v)
    }

    /// Stores the low bytes of `v` at `a` where they lie above the gate page, in one unit that is not guarded, and tells
    /// whether it did; other bytes, some of which may be stored into as well, are left to [`Ram::store_value`].
    #[inline(always)]
    #[tactic(auto, unfolding(crate::specs::Stores::stored_value), using(crate::proofs::Free::stores_free))]
    pub fn store_if_open(&mut self, a: u32, s: Size, v: u32) -> bool
        ensures { StoresIf (is_open self.old a (bytes_of s)) (stored_value self.old a s v) result self.old self.new }
    {
        self.meets_invariant();
        let open = self.is_open(a, s.bytes());
        if open {
            self.put(a, s, v);
        }
        open
    }

    /// Stores the low byte of `v` at `a`, as [`Ram::store_value`] does.
    #[inline(always)]
    pub fn store_byte(&mut self, a: u32, v: u32) -> Result<(), Access>
        ensures { Stores result (stored_value self.old a One v) self.old self.new }
    {
        self.store_value(a, Size::One, v)
    }

    /// Stores the low two bytes of `v` at `a`, as [`Ram::store_value`] does.
    #[inline(always)]
    pub fn store_word(&mut self, a: u32, v: u32) -> Result<(), Access>
        ensures { Stores result (stored_value self.old a Two v) self.old self.new }
    {
        self.store_value(a, Size::Two, v)
    }

    /// Stores `v` in the four bytes at `a`, as [`Ram::store_value`] does.
    #[inline(always)]
    pub fn store_long(&mut self, a: u32, v: u32) -> Result<(), Access>
        ensures { Stores result (stored_long self.old a v) self.old self.new }
    {
        self.store_value(a, Size::Four, v)
    }

    /// Stores the low bytes of `v` at `a`, where a store of as many bytes is known not to be refused, as
    /// after a [`Ram::probe`] of a range that they lie in.
    #[inline(always)]
    pub fn put(&mut self, a: u32, s: Size, v: u32)
        requires { refusal self.old a (bytes_of s) ≡ None }
        ensures { self.new ≡ stored self.old a s v }
    {
        if s.bytes() > 0 {
            bytes::write_number(&mut self.bytes, a as usize, s, v);
        }
    }

    /// Stores longs one after another from `a` on, all of them, or none where one is refused. The
    /// addresses go on modulo 2^32.
    pub fn store_longs(&mut self, a: u32, values: &[u32]) -> Result<(), Access>
        ensures { Stores result (stored_longs self.old a values.now) self.old self.new }
    {
        self.meets_invariant();
        self.probe_longs(a, values.len())?;
        self.put_longs(a, values);
        Ok(())
    }

    /// The `n` bytes at `a`.
    pub fn span(&self, a: u32, n: u32) -> Result<&[u8], Access>
        ensures { MatchResult result
            (λ span. (in_memory self.now a n ≡ true) × (span.now ≡ part a n self.now.bytes))
            (λ e. (in_memory self.now a n ≡ false) × (e ≡ Access.Outside a)) }
    {
        if n == 0 {
            Ok(&[])
        } else if self.has(a, n) {
            Ok(&self.bytes[a as usize..a as usize + n as usize])
        } else {
            Err(Access::Outside(a))
        }
    }

    /// What a store of `n` bytes at `a` would answer.
    pub fn probe(&self, a: u32, n: u32) -> Result<(), Access>
        ensures { MatchOption (refusal self.now a n) (result ≡ Ok (record {})) (λ e. result ≡ Err e) }
    {
        if n == 0 || self.is_open(a, n) {
            Ok(())
        } else if !self.has(a, n) {
            Err(Access::Outside(a))
        } else if is_in_gate_page(a, n) {
            Err(Access::Gate(a))
        } else if self.is_guarded(a, n) {
            Err(Access::Frame(a))
        } else {
            Ok(())
        }
    }

    /// Stores `n` zeros at `a`.
    pub fn fill(&mut self, a: u32, n: u32) -> Result<(), Access>
        ensures { IsDoneUnlessRefused self.old a n (filled self.old a n) self.new result (record {}) }
    {
        self.probe(a, n)?;
        if n > 0 {
            bytes::zero(&mut self.bytes, a as usize, n as usize);
        }
        Ok(())
    }

    /// Stores at `to` what stands in the `n` bytes at `from`, as if through another place.
    pub fn copy(&mut self, from: u32, to: u32, n: u32) -> Result<(), Access>
        ensures { IsDoneUnless (copy_refusal self.old from to n) self.old (copied self.old from to n) self.new result (record {}) }
    {
        if n > 0 && !self.has(from, n) {
            return Err(Access::Outside(from));
        }
        self.probe(to, n)?;
        if n > 0 {
            bytes::copy(&mut self.bytes, from as usize, to as usize, n as usize);
        }
        Ok(())
    }

    /// Writes past the gate page and the guard. For the loader and for switch frames.
    pub fn fix(&mut self, a: u32, bytes: &[u8])
        requires { a + length bytes.now ≤ length self.old.bytes }
        ensures { self.new ≡ with_bytes a bytes.now self.old }
    {
        bytes::write_piece(&mut self.bytes, a as usize, bytes);
    }

    /// Writes `n` zeros at `a` past the gate page and the guard.
    pub fn clear(&mut self, a: u32, n: u32)
        requires { a + n ≤ length self.old.bytes }
        ensures { self.new ≡ with_bytes a (zeros n) self.old }
    {
        bytes::zero(&mut self.bytes, a as usize, n as usize);
    }

    /// Writes a long past the gate page and the guard.
    #[inline(always)]
    pub fn fix_long(&mut self, a: u32, long: u32)
        requires { a + 4 ≤ length self.old.bytes }
        ensures bytes { self.new ≡ with_bytes a (big_bytes 4 long) self.old }
        ensures len { length self.new.bytes ≡ length self.old.bytes }
    {
        bytes::write_number(&mut self.bytes, a as usize, Size::Four, long);
    }

    /// Writes longs one after another from `a` on, past the gate page and the guard.
    #[inline(always)]
    pub fn fix_longs(&mut self, a: u32, longs: &[u32])
        requires { a + 4 * length longs.now ≤ length self.old.bytes }
        ensures bytes { self.new ≡ with_bytes a (bytes_of_longs longs.now) self.old }
        ensures ram { IsRam self.new }
        ensures longs { AreLongs (length longs.now) longs.now }
    {
        bytes::write_longs(&mut self.bytes, a as usize, longs);
    }

    /// Guards the units of [`lo`, `hi`).
    pub fn guard(&mut self, lo: u32, hi: u32)
        requires first { lo % 16 ≡ 0 }
        requires last { hi % 16 ≡ 0 }
        requires stack { floor_of self.old ≤ lo }
        requires order { lo < hi }
        requires within { hi ≤ length self.old.bytes }
        ensures { self.new ≡ with_marks (lo / 16) (replicate ((hi - lo) / 16) true) self.old }
    {
        let (from, to) = (lo as usize / UNIT, hi as usize / UNIT);
        marks::mark(&mut self.guard, from, to, true);
    }

    /// Ends the guard of the units of [`lo`, `hi`).
    pub fn unguard(&mut self, lo: u32, hi: u32)
        requires first { lo % 16 ≡ 0 }
        requires last { hi % 16 ≡ 0 }
        requires stack { floor_of self.old ≤ lo }
        requires order { lo < hi }
        requires within { hi ≤ length self.old.bytes }
        ensures { self.new ≡ with_marks (lo / 16) (replicate ((hi - lo) / 16) false) self.old }
    {
        let (from, to) = (lo as usize / UNIT, hi as usize / UNIT);
        marks::mark(&mut self.guard, from, to, false);
    }

    /// What a store of `count` longs one after another from `a` on would answer.
    fn probe_longs(&self, a: u32, count: usize) -> Result<(), Access>
        ensures { MatchOption (longs_refusal self.now a count) (result ≡ Ok (record {})) (λ e. result ≡ Err e) }
    {
        if self.is_range_open(a, count) {
            Ok(())
        } else {
            self.probe_each(a, count)
        }
    }

    /// Whether the range of `count` longs from `a` on, few ones, plainly may be stored into as a whole.
    #[tactic(auto, using(crate::proofs::Longs::range_open))]
    fn is_range_open(&self, a: u32, count: usize) -> bool
        ensures { IsTrue result → longs_refusal self.now a count ≡ None }
    {
        self.meets_invariant();
        count <= FEW_LONGS && self.probe(a, 4 * count as u32).is_ok()
    }

    /// What a store of `count` longs would answer, one after another.
    fn probe_each(&self, a: u32, count: usize) -> Result<(), Access>
        ensures { MatchOption (longs_refusal self.now a count) (result ≡ Ok (record {})) (λ e. result ≡ Err e) }
    {
        let mut at = a;
        for _k in 0..count {
            self.probe(at, 4)?;
            at = onward(at, 4);
        }
        Ok(())
    }

    /// Stores longs one after another from `a` on, none of which is refused.
    fn put_longs(&mut self, a: u32, values: &[u32])
        requires { longs_refusal self.old a (length values.now) ≡ None }
        ensures { self.new ≡ with_longs a values.now self.old }
    {
        let mut at = a;
        for value in values {
            self.put(at, Size::Four, *value);
            at = onward(at, 4);
        }
    }

    /// Whether `n` bytes at `a`, at least one, lie in memory.
    #[inline(always)]
    pub fn has(&self, a: u32, n: u32) -> bool
        requires { 0 < n }
        ensures is { result ≡ in_memory self.now a n }
        ensures within { OnTrue result (a + n ≤ length self.now.bytes) }
    {
        u64::from(a) + u64::from(n) <= self.bytes.len() as u64
    }

    /// Whether `n` bytes at `a`, at least one, plainly may be stored into: they lie in memory above the
    /// gate page, in one unit, which is not guarded. Others may be stored into as well.
    #[inline(always)]
    #[tactic(auto, using(crate::proofs::Guarded::open_unit))]
    fn is_open(&self, a: u32, n: u32) -> bool
        ensures is { result ≡ is_open self.now a n }
        ensures open { IsTrue result → refusal self.now a n ≡ None }
        ensures within { IsTrue result → a + n ≤ length self.now.bytes }
        ensures some { IsTrue result → 0 < n }
    {
        n > 0
            && a >= GATE_PAGE_END
            && self.has(a, n)
            && a as usize % UNIT + n as usize <= UNIT
            && !marks::is_marked(&self.guard, a as usize / UNIT)
    }

    /// Whether one of `n` bytes at `a`, at least one and all in memory, lies in a guarded unit.
    fn is_guarded(&self, a: u32, n: u32) -> bool
        requires some { 0 < n }
        requires within { a + n ≤ length self.now.bytes }
        ensures { result ≡ meets_guard self.now a n }
    {
        let first = a as usize;
        let last = first + n as usize - 1;
        marks::any_marked(&self.guard, first / UNIT, last / UNIT + 1)
    }
}

/// Whether one of `n` bytes at `a` lies in the gate page.
fn is_in_gate_page(a: u32, n: u32) -> bool
    ensures { result ≡ meets_gate a n }
{
    a < GATE_PAGE_END && u64::from(a) + u64::from(n) > u64::from(GATE_PAGE)
}
