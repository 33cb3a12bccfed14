// movem: several registers to memory or from it.
ghost use Rattle.std.specs.Prelude.{◌≡◌, ◌≢◌, ◌-◌, ◌*◌, ◌<◌, ◌≤◌, IsTrue, None, Ok, length, true, map, if◌then◌else◌};
ghost use Rattle.mix_bits.specs.Addresses.{onward as onward_of};
ghost use Rattle.mix_bits.specs.declared.size.Size.TheVariants.{Zero};
ghost use Rattle.mix_bits.specs.Sizes.{bytes_of};
ghost use Rattle.big_memory.specs.Memory.{in_memory, refusal};
ghost use Rattle.big_memory.specs.StepsClauses.{Does};
ghost use Rattle.big_memory.specs.StoresClauses.{OnlyFree};
ghost use Rattle.mix_bits.specs.Addresses.{backward as backward_of};
ghost use Rattle.m68_effects.specs.Multiple.{listed, register_of, loaded_along, span_of, stored_along, stored_down, with_register};
ghost use Rattle.m68_effects.specs.inner.Rows.{movem_before, movem_onto};
ghost use Rattle.m68_effects.specs.laws.Ops.{by_op};
ghost use Rattle.m68_effects.specs.Parts.{after};
ghost use Rattle.m68_isa.specs.laws.Fits.{Fits};
ghost use Rattle.m68_movement.specs.inner.Along.{Loads, StoresOpen, StoresUp};

use super::along::{store_along, store_down};
use arrayvec::ArrayVec;
use big_memory::{Did, Ram, memory_laws};
use m68_ea::{control, load, word_at};
use m68_effects::go_on;
use m68_isa::{Op68, Regs68, lower_of, mode_of, transfer_size_of};
use mix_bits::{Fault, Size, backward, digit, onward, sext};

/// How many bytes sixteen longs take.
const SIXTEEN_LONGS: u32 = 64;

/// movem to memory: upwards from D0 to A7, or before an address register downwards from A7 to D0.
#[inline(never)]
pub fn do_movem_to_memory(regs: &mut Regs68, ram: &mut Ram, fault: &mut Fault, word: u32) -> Did
    requires { Fits Op68.MovemToMemory word }
    ensures { Does (by_op Op68.MovemToMemory regs.old ram.old word) result fault.new regs.old regs.new ram.old ram.new }
{
    let (mode, lower) = (mode_of(word), lower_of(word));
    let size = transfer_size_of(word);
    let mask = word_at(ram, regs.pc, 1);
    if mode == 4 {
        return store_before(regs, ram, fault, size, mask, lower);
    }
    let mut next = 2;
    let Some(at) = control(regs, ram, fault, word, &mut next, mode, lower) else {
        return Did::Stop;
    };
    store_onto(regs, ram, fault, size, mask, at, next)
}

/// The registers of a mask before an address register, which ends where the last one is stored.
fn store_before(
    regs: &mut Regs68,
    ram: &mut Ram,
    fault: &mut Fault,
    size: Size,
    mask: u32,
    register: usize,
) -> Did
    requires number { register < 8 }
    requires size { size ≢ Zero }
    ensures { Does (after (movem_before regs.old ram.old (onward_of regs.old.pc 4) size mask register)) result fault.new regs.old regs.new ram.old ram.new }
{
    let base = regs.a[register];
    if let Some(end) = store_open(regs, ram, size, mask, base) {
        regs.a[register] = end;
        return go_on(regs, 2);
    }
    let values = values_of(regs, mask, true);
    if !store_down(ram, fault, regs.pc, base, size, &values) {
        return Did::Stop;
    }
    regs.a[register] = backward(base, size.bytes() * values.len() as u32);
    go_on(regs, 2)
}

/// Stores the registers of a mask downwards from an address, where sixteen longs plainly can be stored, and
/// tells where the last one stands; else nothing is changed.
#[inline(always)]
fn store_open(regs: &Regs68, ram: &mut Ram, size: Size, mask: u32, base: u32) -> Option<u32>
    ensures { StoresOpen regs.now ram.old base size mask result ram.new }
{
    let lowest = base.checked_sub(SIXTEEN_LONGS)?;
    if !is_open(ram, lowest) {
        return None;
    }
    match size {
        Size::Zero => None,
        Size::One => None,
        Size::Two => Some(put_down(regs, ram, Size::Two, mask, base)),
        Size::Four => Some(put_down(regs, ram, Size::Four, mask, base)),
    }
}

/// Whether sixteen longs can be stored from an address on.
#[inline(always)]
fn is_open(ram: &Ram, a: u32) -> bool
    ensures { IsTrue result → refusal ram.now a 64 ≡ None }
{
    ram.is_below_stack(a, SIXTEEN_LONGS) || ram.probe(a, SIXTEEN_LONGS).is_ok()
}

/// Stores the registers of a mask downwards from an address, none of which is refused, and tells where the
/// last one stands.
#[inline(always)]
fn put_down(regs: &Regs68, ram: &mut Ram, size: Size, mask: u32, base: u32) -> u32
    requires some { size ≢ Zero }
    requires from { 64 ≤ base }
    requires open { refusal ram.old (base - 64) 64 ≡ None }
    ensures is { stored_down regs.now.pc ram.old base size (map (λ k. register_of regs.now (15 - k)) (listed mask)) ≡ Ok ram.new }
    ensures free { OnlyFree ram.old ram.new }
    ensures end { result ≡ backward_of base (span_of size mask) }
{
    memory_laws();
    ram.meets_invariant();
    let mut at = base;
    for k in 0..16 {
        if digit(mask, k, 1) == 1 {
            at -= size.bytes();
            ram.put(at, size, register(regs, 15 - k as usize));
        }
    }
    at
}

/// The registers of a mask at an address, by an instruction of so many words.
fn store_onto(
    regs: &mut Regs68,
    ram: &mut Ram,
    fault: &mut Fault,
    size: Size,
    mask: u32,
    at: u32,
    words: u32,
) -> Did
    requires { words ≤ 5 }
    ensures { Does (after (movem_onto regs.old ram.old (onward_of regs.old.pc (2 * words)) size mask at)) result fault.new regs.old regs.new ram.old ram.new }
{
    if store_open_up(regs, ram, size, mask, at) {
        return go_on(regs, words);
    }
    let values = values_of(regs, mask, false);
    if store_along(ram, fault, regs.pc, at, size.bytes(), size, &values) {
        go_on(regs, words)
    } else {
        Did::Stop
    }
}

/// Stores the registers of a mask upwards from an address, where sixteen longs plainly can be stored, and tells
/// whether it did; else nothing is changed.
#[inline(always)]
fn store_open_up(regs: &Regs68, ram: &mut Ram, size: Size, mask: u32, a: u32) -> bool
    ensures { StoresUp regs.now ram.old a size mask result ram.new }
{
    if !is_open(ram, a) {
        return false;
    }
    match size {
        Size::Zero => return false,
        Size::One => return false,
        Size::Two => put_up(regs, ram, Size::Two, mask, a),
        Size::Four => put_up(regs, ram, Size::Four, mask, a),
    }
    true
}

/// Stores the registers of a mask upwards from an address, none of which is refused.
#[inline(always)]
fn put_up(regs: &Regs68, ram: &mut Ram, size: Size, mask: u32, a: u32)
    requires { refusal ram.old a 64 ≡ None }
    ensures is { stored_along regs.now.pc ram.old a (bytes_of size) size (map (register_of regs.now) (listed mask)) ≡ Ok ram.new }
    ensures free { OnlyFree ram.old ram.new }
{
    memory_laws();
    ram.meets_invariant();
    let mut at = a;
    for k in 0..16 {
        if digit(mask, k, 1) == 1 {
            ram.put(at, size, register(regs, k as usize));
            at = onward(at, size.bytes());
        }
    }
}

/// movem from memory: upwards from D0 to A7, words with their sign. An address register that counts up
/// ends behind the last value, also where it was loaded.
#[inline(never)]
pub fn do_movem_from_memory(regs: &mut Regs68, ram: &Ram, fault: &mut Fault, word: u32) -> Did
    requires { Fits Op68.MovemFromMemory word }
    ensures { Does (by_op Op68.MovemFromMemory regs.old ram.now word) result fault.new regs.old regs.new ram.now ram.now }
{
    let (mode, lower) = (mode_of(word), lower_of(word));
    let size = transfer_size_of(word);
    let mask = word_at(ram, regs.pc, 1);
    if mode == 3 {
        let base = regs.a[lower];
        let Some(count) = load_all(regs, ram, fault, base, size, mask) else {
            return Did::Stop;
        };
        regs.a[lower] = onward(base, size.bytes() * count);
        return go_on(regs, 2);
    }
    let mut next = 2;
    let Some(at) = control(regs, ram, fault, word, &mut next, mode, lower) else {
        return Did::Stop;
    };
    let Some(_) = load_all(regs, ram, fault, at, size, mask) else {
        return Did::Stop;
    };
    go_on(regs, next)
}

/// The values of the registers that a mask names, from bit 0 on; downwards bit 0 is A7.
#[tactic(auto, using(crate::proofs::Masks::all_listed, crate::proofs::Masks::more_has, crate::proofs::Masks::more_lacks))]
fn values_of(regs: &Regs68, mask: u32, down: bool) -> ArrayVec<u32, 16>
    ensures is { result.items ≡ map (λ k. register_of regs.now (if down then 15 - k else k)) (listed mask) }
    ensures most { length result.items ≤ 16 }
{
    let mut values = ArrayVec::new();
    for k in 0..16 {
        if digit(mask, k, 1) == 1 {
            let number = if down { 15 - k } else { k };
            values.push(register(regs, number as usize));
        }
    }
    values
}

/// Loads the registers that a mask names from an address on, and tells how many; or none, and the fault is
/// in the cell.
fn load_all(
    regs: &mut Regs68,
    ram: &Ram,
    fault: &mut Fault,
    a: u32,
    size: Size,
    mask: u32,
) -> Option<u32>
    ensures { Loads regs.old ram.now a size mask result fault.new regs.new }
{
    if !ram.has(a, SIXTEEN_LONGS) {
        return load_along(regs, ram, fault, a, size, mask);
    }
    match size {
        Size::Zero => load_along(regs, ram, fault, a, size, mask),
        Size::One => load_along(regs, ram, fault, a, size, mask),
        Size::Two => Some(take_all(regs, ram, a, Size::Two, mask)),
        Size::Four => Some(take_all(regs, ram, a, Size::Four, mask)),
    }
}

/// Loads the registers of a mask from an address on, from which sixteen longs lie in memory, and tells
/// how many.
#[inline(always)]
fn take_all(regs: &mut Regs68, ram: &Ram, a: u32, size: Size, mask: u32) -> u32
    requires { in_memory ram.now a 64 ≡ true }
    ensures is { loaded_along regs.old.pc regs.old ram.now a size (listed mask) ≡ Ok regs.new }
    ensures count { result ≡ length (listed mask) }
    ensures most { result ≤ 16 }
    ensures pc { regs.new.pc ≡ regs.old.pc }
{
    memory_laws();
    ram.meets_invariant();
    let mut at = a;
    let mut count = 0;
    for k in 0..16 {
        if digit(mask, k, 1) == 1 {
            let Ok(value) = ram.load(at, size) else {
                unreachable!()
            };
            set_register(regs, k as usize, sext(value, size));
            at = onward(at, size.bytes());
            count += 1;
        }
    }
    count
}

/// The same, with each load tested.
#[inline(never)]
#[tactic(auto, using(crate::proofs::Masks::all_listed, crate::proofs::Masks::none_loaded))]
fn load_along(
    regs: &mut Regs68,
    ram: &Ram,
    fault: &mut Fault,
    a: u32,
    size: Size,
    mask: u32,
) -> Option<u32>
    ensures is { Loads regs.old ram.now a size mask result fault.new regs.new }
{
    let before = *regs;
    let mut at = a;
    let mut count = 0;
    for k in 0..16 {
        if digit(mask, k, 1) == 1 {
            let Some(loaded) = load(ram, fault, before.pc, at, size) else {
                *regs = before;
                return None;
            };
            set_register(regs, k as usize, sext(loaded, size));
            at = onward(at, size.bytes());
            count += 1;
        }
    }
    Some(count)
}

/// One of the sixteen registers: D0 to D7, then A0 to A7.
#[inline(always)]
fn register(regs: &Regs68, k: usize) -> u32
    requires { k < 16 }
    ensures { result ≡ register_of regs.now k }
{
    if k < 8 { regs.d[k] } else { regs.a[k - 8] }
}

/// Puts a value into one of the sixteen registers.
#[inline(always)]
fn set_register(regs: &mut Regs68, k: usize, value: u32)
    requires { k < 16 }
    ensures { regs.new ≡ with_register regs.old k value }
{
    if k < 8 {
        regs.d[k] = value;
    } else {
        regs.a[k - 8] = value;
    }
}
