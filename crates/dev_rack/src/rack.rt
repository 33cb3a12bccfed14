// A rack of boxed devices.
ghost use Rattle.std.specs.Prelude.{◌≡◌, ◌≤◌, IfOk, vec_len, vec_capacity, map};
ghost use Rattle.dev_rack.specs.Rack.{journal_limit};

use super::answers::{Answer, Asked};
use super::devices::Devices;
use super::slots::{ask_at, empty_at, filled, holds_device};
use mix_bits::NoMemory;
use mix_io::{Device, Failed};
use std::alloc::Global;

/// How many asks a journal holds at the most.
const JOURNAL_LIMIT: usize = 4096;

/// Holds up to eight devices.
#[derive(Drop)]
pub struct Rack {
    slots: Vec<Option<Box<dyn Device>>>,
    journal: Vec<Asked>,
    ghost room: { journal_limit ≤ vec_capacity journal },
    ghost within: { vec_len journal ≤ journal_limit },
}

impl Rack {
    ghost use Rattle.dev_rack.specs.Boxed.{fresh, seen, seen_slots};

    /// Puts the devices into the slots from 0 on, with an empty journal. A refusal gives up the devices.
    #[tactic(auto, using(crate::proofs::Seen::seen_filled))]
    pub fn new(alloc: Global, devices: Vec<Box<dyn Device>>) -> Result<Rack, NoMemory>
        requires { vec_len devices ≤ 8 }
        ensures { IfOk result (λ rack. ⟦<Rack as Devices>⟧.state rack ≡ fresh (map (seen faults told) devices.items)) }
    {
        Ok(Rack {
            slots: filled(alloc, devices)?,
            journal: Vec::with_capacity(alloc, JOURNAL_LIMIT)?,
        })
    }

    /// The devices as they are now, each in its slot, and none where it was given up. What they were asked is read in the
    /// journal before.
    pub fn into_devices(self) -> Vec<Option<Box<dyn Device>>>
        ensures { seen_slots faults told result.items ≡ (⟦<Rack as Devices>⟧.state self).slots }
    {
        let Rack { slots, journal: _ } = self;
        slots
    }
}

impl Devices for Rack {
    ghost use Rattle.dev_rack.specs.Boxed.{seen_slots};

    ghost state = { λ rack. record {
      slots = seen_slots (λ b. (Device-box b).faults b.value) (λ b. (Device-box b).told b.value) rack.slots.items;
      journal = rack.journal.items;
    } };

    fn ask(&mut self, slot: u32, word: u32) -> Answer {
        if !holds_device(&self.slots, slot) {
            return Answer::Empty;
        }
        if self.journal.len() == JOURNAL_LIMIT {
            return Answer::Full;
        }
        let result = ask_at(&mut self.slots, slot, word);
        self.journal.push_reserved(Asked {
            slot,
            word,
            answer: result.ok(),
        });
        match result {
            Ok(answer) => Answer::Word(answer),
            Err(Failed) => Answer::Failed,
        }
    }

    fn eject(&mut self, slot: u32) -> bool {
        let held = holds_device(&self.slots, slot);
        if held {
            empty_at(&mut self.slots, slot);
        }
        held
    }

    fn journal(&self) -> &[Asked] {
        &self.journal
    }
}
