// Machines that are kept on the way, to go back to.
ghost use Rattle.std.specs.Prelude.{◌≡◌, ◌∷◌, ◌≤◌, [], All, Contains, IfOk, List, ℕ, length, suc};
ghost use Rattle.switch_frame.specs.Records.{isa_of};
ghost use Rattle.dev_rack.specs.Rack.{State};
ghost use Rattle.mixed_machine.specs.Machine.{IsWhole};
ghost use Rattle.gdb_steps.specs.Places.{Begin, Given, IsKept, IsPlace};
ghost use Rattle.gdb_steps.specs.declared.snapshot.Snapshot.{Snapshot as Kept};
ghost use Rattle.gdb_steps.specs.inner.Held.{IsSafe, IsWithin};
ghost use Rattle.gdb_steps.specs.inner.Images.{IsImage};

use crate::snapshot::Snapshot;
use crate::used::Used;
use mix_bits::NoMemory;
use mix_engine::Machine;
use mix_image::save;
use mix_io::MemKeep;
use std::alloc::Global;
use std::marker::Model;

/// The machine before the first step, and later ones, the nearest to the first step first.
#[derive(Drop)]
pub struct Snapshots {
    first: Snapshot,
    later: Vec<Snapshot>,
    /// How many steps lead to the next that is to be kept.
    next: u64,
    /// How many steps lie between two.
    distance: u64,
}

impl Model for Snapshots {
    ghost use Rattle.std.specs.Prelude.{◌≡◌, ◌∷◌, ◌<◌, List};
    ghost use Rattle.gdb_steps.specs.declared.snapshot.Snapshot.{Snapshot};

    ghost Value = { List Snapshot };

    ghost view = { λ s. s.first ∷ s.later.items };

    ghost invariant = { λ s. (s.first.steps ≡ 0) × (0 < s.distance) };
}

impl Snapshots {
    /// The machine before the first step.
    pub fn new(alloc: Global, machine: &Machine, used: Used) -> Result<Snapshots, NoMemory>
        requires whole { IsWhole machine.now.body (isa_of machine.now.active) }
        ensures { IfOk result (λ kept. (s : Kept) × IsImage machine.now used 0 s × (kept ≡ s ∷ [])) }
    {
        let distance = (machine.body.ram.bytes().len() as u64 / 8).max(1);
        Ok(Snapshots {
            first: take(alloc, machine, used, 0)?,
            later: Vec::new(alloc),
            next: distance,
            distance,
        })
    }

    /// Whether it is time to keep the machine after so many steps.
    #[inline(always)]
    pub fn is_due(&self, steps: u64) -> bool {
        steps == self.next
    }

    /// Keeps the machine after so many steps behind the others, of which there are `most` at the most beside the first: where
    /// there are so many, every second one is given up, and twice as many steps lie between two from there on. Where there
    /// is no memory for it, it is not kept.
    pub fn keep(&mut self, alloc: Global, machine: &Machine, used: Used, steps: u64, most: usize)
        requires whole { IsWhole machine.now.body (isa_of machine.now.active) }
        ensures few { length self.old ≤ suc most → length self.new ≤ suc most }
        ensures kept { (b : Begin) (g : Given) → All (IsKept b g) self.old → IsPlace b g steps (record { machine = machine.now; used = used }) → All (IsKept b g) self.new }
        ensures safe { (input : List ℕ) (real : State) → All (IsSafe input real) self.old → IsWithin input real used → All (IsSafe input real) self.new }
    {
        self.make_room(most);
        let past = steps % self.distance;
        self.next = (steps - past).saturating_add(self.distance);
        if past > 0 || self.later.len() >= most {
            return;
        }
        let Ok(snapshot) = take(alloc, machine, used, steps) else {
            return;
        };
        match self.later.push(snapshot) {
            Ok(()) => {}
            Err(_unkept) => {}
        }
    }

    /// Gives up every second one, where there are as many as there may be.
    fn make_room(&mut self, most: usize)
        ensures few { length self.old ≤ suc most → length self.new ≤ suc most }
        ensures kept { (b : Begin) (g : Given) → All (IsKept b g) self.old → All (IsKept b g) self.new }
        ensures safe { (input : List ℕ) (real : State) → All (IsSafe input real) self.old → All (IsSafe input real) self.new }
    {
        if self.later.len() < most {
            return;
        }
        let distance = self.distance.saturating_mul(2);
        self.later.retain(|kept| kept.steps % distance == 0);
        self.distance = distance;
    }

    /// The last that has at most so many steps in front of it.
    pub fn last_before(&self, steps: u64) -> &Snapshot
        ensures kept { Contains self.now result.now }
        ensures before { result.now.steps ≤ steps }
    {
        last_of(&self.first, &self.later, steps)
    }
}

/// The last of the later ones that has at most so many steps in front of it, or the first.
fn last_of<'a>(first: &'a Snapshot, later: &'a [Snapshot], steps: u64) -> &'a Snapshot
    requires first { first.now.steps ≤ steps }
    ensures kept { Contains (first.now ∷ later.now) result.now }
    ensures before { result.now.steps ≤ steps }
{
    let mut last = first;
    for kept in later {
        if kept.steps <= steps {
            last = kept;
        }
    }
    last
}

/// Takes the image of a machine.
fn take(alloc: Global, machine: &Machine, used: Used, steps: u64) -> Result<Snapshot, NoMemory>
    requires whole { IsWhole machine.now.body (isa_of machine.now.active) }
    ensures { IfOk result (IsImage machine.now used steps) }
{
    let room = room_for(machine.body.ram.bytes().len());
    let mut image = MemKeep::new(alloc, String::new(alloc), room, Vec::new(alloc))?;
    match save(machine, &mut image, "") {
        Ok(()) => Ok(Snapshot { steps, used, image }),
        Err(_) => Err(NoMemory),
    }
}

/// How many bytes the image of a machine with so many bytes of RAM has at the most.
fn room_for(ram: usize) -> u32 {
    let pages = ram / 1024;
    u32::try_from(ram)
        .unwrap_or(u32::MAX)
        .saturating_add(u32::try_from(pages).unwrap_or(u32::MAX))
        .saturating_add(REST)
}

/// How many bytes of an image are neither RAM nor marks of its pages, at the most.
const REST: u32 = 40_000;
