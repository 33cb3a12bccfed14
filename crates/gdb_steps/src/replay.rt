// Devices that answer as they answered before, asked when a step is done again.
ghost use Rattle.std.specs.Prelude.{◌≡◌, ◌+◌, ◌≤◌, ◌++◌, [], IfOk, IsSome, Some, None, is_some, length, map, slice_set, take, vec_capacity, vec_len};
ghost use Rattle.dev_rack.specs.Rack.{journal_limit};
ghost use Rattle.mix_io.specs.CountsClauses.{HasCause};
ghost use Rattle.dev_rack.specs.Slots.{device_at};
ghost use Rattle.dev_rack.specs.SlotsClauses.{HeardAt};
ghost use Rattle.dev_rack.specs.RackClauses.{Asks, Ejects};
ghost use Rattle.gdb_steps.specs.Places.{IsFront};
ghost use Rattle.gdb_steps.specs.inner.Slots.{failure, seen_slots};

use crate::used::SLOTS;
use dev_rack::{Answer, Asked, Devices};
use mix_bits::NoMemory;
use std::alloc::Global;
use std::marker::Model;

/// How many asks a journal holds at the most.
const JOURNAL_LIMIT: usize = 4096;

/// Slots that hold a device or none, and the asks that were made up to here. The next ask gets the answer that stands
/// ready, whatever is asked.
#[derive(Drop)]
pub struct Replay {
    /// For each slot that holds a device how often it failed.
    slots: Vec<Option<u64>>,
    asks: Vec<Asked>,
    ready: Option<u32>,
}

impl Model for Replay {
    ghost use Rattle.std.specs.Prelude.{◌≤◌, vec_capacity, vec_len};
    ghost use Rattle.dev_rack.specs.Rack.{State};
    ghost use Rattle.gdb_steps.specs.inner.Slots.{seen_slots};

    ghost Value = { State };

    ghost view = { λ r. record { slots = seen_slots r.slots.items; journal = r.asks.items } };

    ghost invariant = { λ r. (vec_len r.slots ≤ 8) × (4096 ≤ vec_capacity r.asks) × (vec_len r.asks ≤ 4096) };
}

impl Replay {
    /// So many slots, none of which holds a device, and no ask.
    pub fn new(alloc: Global, slots: usize) -> Result<Replay, NoMemory>
        requires { slots ≤ 8 }
        ensures slots { IfOk result (λ r. length r.slots ≡ slots) }
        ensures journal { IfOk result (λ r. r.journal ≡ []) }
    {
        Ok(Replay {
            slots: Vec::from_elem(alloc, None, slots)?,
            asks: Vec::with_capacity(alloc, JOURNAL_LIMIT)?,
            ready: None,
        })
    }

    /// The asks up to here.
    #[inline(always)]
    pub fn asks(&self) -> &[Asked]
        ensures { result.now ≡ self.now.journal }
    {
        &self.asks
    }

    /// Which slots hold a device.
    #[inline(always)]
    pub fn held(&self) -> [bool; SLOTS]
        ensures { take (length self.now.slots) result ≡ map is_some self.now.slots }
    {
        held_in(&self.slots)
    }

    /// Makes it the devices at a place where so many asks were made, and these slots held a device. The asks that were
    /// made up to here have to be a beginning of the journal.
    #[inline(always)]
    pub fn prepare(&mut self, journal: &[Asked], asks: usize, held: &[bool; SLOTS])
        requires asks { asks ≤ length journal.now }
        requires limit { length journal.now ≤ journal_limit }
        requires front { IsFront self.old.journal journal.now }
        ensures slots { map is_some self.new.slots ≡ take (length self.old.slots) held.now }
        ensures count { length self.new.slots ≡ length self.old.slots }
        ensures journal { self.new.journal ≡ take asks journal.now }
    {
        self.ready = answer_at(journal, asks);
        go_to(&mut self.asks, journal, asks);
        fill(&mut self.slots, held);
    }

    /// Forgets the asks behind so many.
    pub fn forget(&mut self, asks: usize)
        ensures slots { self.new.slots ≡ self.old.slots }
        ensures journal { self.new.journal ≡ take asks self.old.journal }
    {
        self.asks.truncate(asks);
    }
}

impl Devices for Replay {
    ghost state = { λ r. r };

    fn ask(&mut self, slot: u32, word: u32) -> Answer
        ensures { Asks self.old slot word result self.new }
    {
        if !holds(&self.slots, slot) {
            return Answer::Empty;
        }
        if self.asks.len() == JOURNAL_LIMIT {
            return Answer::Full;
        }
        let answer = self.ready;
        note(&mut self.slots, slot, word, answer);
        self.asks.push_reserved(Asked { slot, word, answer });
        match answer {
            Some(answer) => Answer::Word(answer),
            None => Answer::Failed,
        }
    }

    fn eject(&mut self, slot: u32) -> bool
        ensures { Ejects self.old slot result self.new }
    {
        let held = holds(&self.slots, slot);
        if held {
            empty(&mut self.slots, slot);
        }
        held
    }

    fn journal(&self) -> &[Asked]
        ensures { result.now ≡ self.now.journal }
    {
        &self.asks
    }
}

/// The answer of the ask behind so many, or none where it failed, or where there was none.
#[inline(always)]
fn answer_at(journal: &[Asked], asks: usize) -> Option<u32> {
    match journal.get(asks) {
        Some(asked) => asked.answer,
        None => None,
    }
}

/// Makes a beginning of the journal the one with so many entries.
#[inline(always)]
fn go_to(asks: &mut Vec<Asked>, journal: &[Asked], count: usize)
    requires count { count ≤ length journal.now }
    requires room { length journal.now ≤ vec_capacity asks.old }
    requires front { IsFront asks.old.items journal.now }
    ensures asks { asks.new.items ≡ take count journal.now }
    ensures room { vec_capacity asks.old ≤ vec_capacity asks.new }
{
    if asks.len() > count {
        asks.truncate(count);
    } else if asks.len() < count {
        append(asks, &journal[asks.len()..count]);
    }
}

/// Appends entries for which there is room, without taking memory.
fn append(asks: &mut Vec<Asked>, entries: &[Asked])
    requires { vec_len asks.old + length entries.now ≤ vec_capacity asks.old }
    ensures items { asks.new.items ≡ asks.old.items ++ entries.now }
    ensures capacity { vec_capacity asks.old ≤ vec_capacity asks.new }
{
    let _ = asks.extend_from_slice(entries);
}

/// Puts a device into each slot that held one.
#[inline(always)]
fn fill(slots: &mut [Option<u64>], held: &[bool; SLOTS])
    requires { length slots.old ≤ 8 }
    ensures held { map is_some slots.new ≡ take (length slots.old) held.now }
    ensures count { length slots.new ≡ length slots.old }
{
    for at in 0..slots.len() {
        slots[at] = place(held[at]);
    }
}

/// A slot that holds a device, which did not fail yet, or none.
#[inline(always)]
fn place(held: bool) -> Option<u64>
    ensures { is_some result ≡ held }
{
    if held { Some(0) } else { None }
}

/// Which slots hold a device.
#[inline(always)]
fn held_in(slots: &[Option<u64>]) -> [bool; SLOTS]
    requires { length slots.now ≤ 8 }
    ensures { take (length slots.now) result ≡ map is_some slots.now }
{
    let mut held = [false; SLOTS];
    for at in 0..slots.len() {
        held[at] = slots[at].is_some();
    }
    held
}

fn holds(slots: &[Option<u64>], slot: u32) -> bool
    ensures { result ≡ is_some (device_at (seen_slots slots.now) slot) }
{
    match slots.get(slot as usize) {
        Some(place) => place.is_some(),
        None => false,
    }
}

/// Counts a failure of the device in a slot, if it failed.
fn note(slots: &mut [Option<u64>], slot: u32, word: u32, answer: Option<u32>)
    requires { IsSome (device_at (seen_slots slots.old) slot) }
    ensures { HeardAt (seen_slots slots.old) (seen_slots slots.new) slot word (failure answer) }
{
    let Some(failures) = slots[slot as usize] else {
        unreachable!()
    };
    slots[slot as usize] = Some(failures_with(failures, answer));
}

/// How often a device failed that gave an answer, or none.
fn failures_with(failures: u64, answer: Option<u32>) -> u64
    ensures { HasCause failures result (failure answer) }
{
    match answer {
        None => failures.saturating_add(1),
        Some(_) => failures,
    }
}

fn empty(slots: &mut [Option<u64>], slot: u32)
    requires { IsSome (device_at (seen_slots slots.old) slot) }
    ensures { seen_slots slots.new ≡ slice_set (seen_slots slots.old) slot None }
{
    slots[slot as usize] = None;
}
