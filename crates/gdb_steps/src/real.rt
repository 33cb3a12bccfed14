// The devices themselves, asked when a step is done for the first time.
ghost use Rattle.std.specs.Prelude.{◌≡◌, ◌<◌, ◌≤◌, false, is_some, length, map, replicate, slice_set, take, true};
ghost use Rattle.dev_rack.specs.RackClauses.{Asks, Ejects};
ghost use Rattle.gdb_steps.specs.Walkers.{IsFresh};

use crate::used::SLOTS;
use dev_rack::{Answer, Asked, Devices};
use std::marker::Model;

/// Devices, and which of their slots hold one.
#[derive(Drop)]
pub struct Real<D: Devices + Drop> {
    rack: D,
    held: [bool; SLOTS],
}

impl<D: Devices + Drop> Model for Real<D> {
    ghost use Rattle.dev_rack.specs.Rack.{State};
    ghost use Rattle.gdb_steps.specs.inner.Slots.{IsKnown};

    ghost Value = { State };

    ghost view = { λ r. D.state r.rack };

    ghost invariant = { λ r. IsKnown (D.state r.rack) r.held };
}

impl<D: Devices + Drop> Real<D> {
    /// Devices in so many slots from 0 on, none of which was asked.
    pub fn new(rack: D, slots: usize) -> Real<D>
        requires few { slots ≤ 8 }
        requires fresh { IsFresh slots (D.state rack) }
        ensures { result ≡ D.state rack }
    {
        Real {
            rack,
            held: first_slots(slots),
        }
    }

    /// Which slots hold a device.
    #[inline(always)]
    pub fn held(&self) -> [bool; SLOTS]
        ensures held { take (length self.now.slots) result ≡ map is_some self.now.slots }
        ensures few { length self.now.slots ≤ 8 }
        ensures limit { length self.now.journal ≤ 4096 }
    {
        self.held
    }
}

/// So many slots from 0 on.
fn first_slots(count: usize) -> [bool; SLOTS]
    requires { count ≤ 8 }
    ensures { take count result ≡ replicate count true }
{
    let mut held = [false; SLOTS];
    for at in 0..count {
        held[at] = true;
    }
    held
}

/// A slot holds no device any more.
fn give_up(held: &mut [bool; SLOTS], slot: u32)
    requires { slot < 8 }
    ensures { held.new ≡ slice_set held.old slot false }
{
    held[slot as usize] = false;
}

impl<D: Devices + Drop> Devices for Real<D> {
    ghost state = { λ r. r };

    fn ask(&mut self, slot: u32, word: u32) -> Answer
        ensures { Asks self.old slot word result self.new }
    {
        self.rack.ask(slot, word)
    }

    fn eject(&mut self, slot: u32) -> bool
        ensures { Ejects self.old slot result self.new }
    {
        let ejected = self.rack.eject(slot);
        if ejected {
            give_up(&mut self.held, slot);
        }
        ejected
    }

    fn journal(&self) -> &[Asked]
        ensures journal { result.now ≡ self.now.journal }
        ensures limit { length result.now ≤ 4096 }
    {
        self.rack.journal()
    }
}
