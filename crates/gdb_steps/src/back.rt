// A walker's way to earlier places of its run: over the steps that can be taken back, and beyond them from a machine that
// is kept, over the run once more.
ghost use Rattle.std.specs.Prelude.{◌≡◌, ◌<◌, ◌≤◌, ◌-◌, ◌+◌, All, IfOk, MatchResult, Option, if◌then◌else◌, max, nat_lt, suc};
ghost use Rattle.std.specs.Bool.{OnTrue};
ghost use Rattle.switch_frame.specs.Records.{isa_of};
ghost use Rattle.mixed_machine.specs.Machine.{IsWhole};
ghost use Rattle.gdb_steps.specs.Places.{Begin, IsRun};
ghost use Rattle.gdb_steps.specs.Points.{halt_by};
ghost use Rattle.gdb_steps.specs.Walkers.{points_of, run_of};
ghost use Rattle.gdb_steps.specs.WalkersClauses.{Backs, Moved};
ghost use Rattle.gdb_steps.specs.declared.halt.Halt.TheVariants as Halts;
ghost use Rattle.gdb_steps.specs.inner.Backing.{Backed, BackedTo, IsLost, Looked, Passed, StepsBack, halt_in, place_in};
ghost use Rattle.gdb_steps.specs.inner.Looks.{HasSeen};
ghost use Rattle.gdb_steps.specs.inner.Onces.{Keeps};

use crate::forward::{does_go_on, is_set};
use crate::found::Found;
use crate::halt::{Halt, Until};
use crate::lost::Lost;
use crate::walker::Walker;
use dev_rack::Devices;
use mix_bits::{Isa, NoMemory};
use mix_debug::Debug;
use mix_engine::Stop;
use mix_image::restore;

impl<D: Devices + Drop> Walker<D> {
    /// Takes up to so many steps back, until something stops it, as on the way forward, or it is before the first step of the
    /// run. Nothing is told. Where there is no memory for it, it stands somewhere on this way.
    ///
    /// Beyond the steps that can be taken back the run is done again from a machine that was kept.
    pub fn back(&mut self, until: Until, budget: u64) -> Result<Halt, NoMemory>
        ensures walks { MatchResult result
            (λ halt. (b : Begin) → IsRun b (run_of self.old) → Backs b (points_of self.old) until budget halt (run_of self.old) (run_of self.new))
            (λ _. Moved (run_of self.old) (run_of self.new)) }
        ensures devices { self.new.real ≡ self.old.real }
        ensures points { points_of self.new ≡ points_of self.old }
    {
        self.look();
        let high = self.steps;
        match self.back_to(until, high.saturating_sub(budget)) {
            Ok(Some(halt)) => Ok(halt),
            Ok(None) => Ok(end_of(high, budget)),
            Err(Lost::Strayed) => Ok(Halt::Strayed),
            Err(Lost::NoMemory) => Err(NoMemory),
        }
    }

    /// Goes back to a place, or to the first on the way at which it is stopped.
    fn back_to(&mut self, until: Until, low: u64) -> Result<Option<Halt>, Lost>
        requires seen { All (HasSeen self.old.debug.machine.body.ram.bytes) self.old.watches }
        requires earlier { low ≤ self.old.steps }
        ensures walks { MatchResult result (BackedTo (points_of self.old) until low (run_of self.old) (run_of self.new)) (λ lost. IsLost lost (run_of self.old) (run_of self.new)) }
        ensures devices { self.new.real ≡ self.old.real }
        ensures points { points_of self.new ≡ points_of self.old }
    {
        'steps: while self.steps > low {
            if !self.step_back() {
                return self.back_far(until, low);
            }
            if let Some(halt) = self.halt_here(until) {
                return Ok(Some(halt));
            }
        }
        Ok(None)
    }

    /// The same where no step can be taken back.
    fn back_far(&mut self, until: Until, low: u64) -> Result<Option<Halt>, Lost>
        requires earlier { low ≤ self.old.steps }
        ensures walks { MatchResult result (BackedTo (points_of self.old) until low (run_of self.old) (run_of self.new)) (λ lost. IsLost lost (run_of self.old) (run_of self.new)) }
        ensures devices { self.new.real ≡ self.old.real }
        ensures points { points_of self.new ≡ points_of self.old }
    {
        'gaps: while self.steps > low {
            if let Some(halt) = self.back_gap(until, low)? {
                return Ok(Some(halt));
            }
        }
        Ok(None)
    }

    /// Goes back over the steps behind the last machine that is kept before this place, at most down to so many steps, or to
    /// the first on the way at which it is stopped.
    fn back_gap(&mut self, until: Until, low: u64) -> Result<Option<Halt>, Lost>
        requires earlier { low < self.old.steps }
        ensures walks { MatchResult result (Backed (points_of self.old) until low (run_of self.old) (run_of self.new)) (λ lost. IsLost lost (run_of self.old) (run_of self.new)) }
        ensures less { IfOk result (λ _. self.new.steps < self.old.steps) }
        ensures devices { self.new.real ≡ self.old.real }
        ensures points { points_of self.new ≡ points_of self.old }
    {
        let high = self.steps;
        self.restore(high - 1)?;
        let from = self.steps.max(low);
        self.go_to(from)?;
        let found = self.look_over(until, high)?;
        self.return_to(place_of(from, found))?;
        Ok(halt_of(found))
    }

    /// Goes to an earlier place.
    fn return_to(&mut self, steps: u64) -> Result<(), Lost>
        requires earlier { steps ≤ self.old.steps }
        ensures moves { MatchResult result (λ _. Moved (run_of self.old) (run_of self.new) × (self.new.steps ≡ steps)) (λ lost. IsLost lost (run_of self.old) (run_of self.new)) }
        ensures devices { self.new.real ≡ self.old.real }
        ensures points { points_of self.new ≡ points_of self.old }
    {
        if self.is_near(steps) && self.take_back(steps) {
            return Ok(());
        }
        self.restore(steps)?;
        self.go_to(steps)
    }

    /// Whether a place is not further back than what was used up is kept.
    fn is_near(&self, steps: u64) -> bool {
        self.steps.saturating_sub(steps) <= self.past.len() as u64
    }

    /// Takes the steps behind a place back, as far as they are kept, and says whether it came there.
    fn take_back(&mut self, steps: u64) -> bool
        requires earlier { steps ≤ self.old.steps }
        ensures moves { Moved (run_of self.old) (run_of self.new) }
        ensures fewer { steps ≤ self.new.steps }
        ensures there { OnTrue result (self.new.steps ≡ steps) }
        ensures devices { self.new.real ≡ self.old.real }
        ensures points { points_of self.new ≡ points_of self.old }
    {
        'steps: while self.steps > steps {
            if !self.step_back() {
                return false;
            }
        }
        true
    }

    /// Goes to the last place before so many steps at which the machine was kept.
    fn restore(&mut self, steps: u64) -> Result<(), Lost>
        requires earlier { steps ≤ self.old.steps }
        ensures moves { MatchResult result (λ _. Moved (run_of self.old) (run_of self.new) × (self.new.steps ≤ steps)) (λ lost. IsLost lost (run_of self.old) (run_of self.new)) }
        ensures devices { self.new.real ≡ self.old.real }
        ensures points { points_of self.new ≡ points_of self.old }
    {
        let kept = self.snapshots.last_before(steps);
        let Ok(machine) = restore(self.alloc, kept.image.kept_by("")) else {
            return Err(Lost::NoMemory);
        };
        let Ok(debug) = Debug::new(self.alloc, machine) else {
            return Err(Lost::NoMemory);
        };
        let (steps, taken) = (kept.steps, kept.used);
        self.debug = debug;
        self.past.clear();
        self.used = taken;
        self.steps = steps;
        Ok(())
    }

    /// Goes to a later place that was reached before.
    fn go_to(&mut self, steps: u64) -> Result<(), Lost>
        requires later { self.old.steps ≤ steps }
        requires reached { steps ≤ self.old.furthest }
        ensures moves { MatchResult result (λ _. Moved (run_of self.old) (run_of self.new) × (self.new.steps ≡ steps)) (λ lost. IsLost lost (run_of self.old) (run_of self.new)) }
        ensures devices { self.new.real ≡ self.old.real }
        ensures points { points_of self.new ≡ points_of self.old }
    {
        'steps: while self.steps < steps {
            self.step_over()?;
        }
        Ok(())
    }

    /// Goes to a later place that was reached before, and says where on the way a walk back from there would stop first.
    fn look_over(&mut self, until: Until, high: u64) -> Result<Option<Found>, Lost>
        requires later { self.old.steps ≤ high }
        requires reached { high ≤ self.old.furthest }
        ensures looks { MatchResult result (Looked (points_of self.old) until high (run_of self.old) (run_of self.new)) (λ lost. IsLost lost (run_of self.old) (run_of self.new)) }
        ensures devices { self.new.real ≡ self.old.real }
        ensures points { points_of self.new ≡ points_of self.old }
    {
        let mut found = None;
        'steps: while self.steps < high {
            let steps = self.steps;
            if let Some(halt) = self.pass(until)? {
                found = Some(Found { steps, halt });
            }
        }
        Ok(found)
    }

    /// Does a step again, and says what would stop a walk back over it, if anything does.
    fn pass(&mut self, until: Until) -> Result<Option<Halt>, Lost>
        requires before { self.old.steps < self.old.furthest }
        ensures passes { MatchResult result (Passed (points_of self.old) until (run_of self.old) (run_of self.new)) (λ lost. IsLost lost (run_of self.old) (run_of self.new)) }
        ensures devices { self.new.real ≡ self.old.real }
        ensures points { points_of self.new ≡ points_of self.old }
    {
        self.look();
        let machine = self.debug.machine();
        let is_break = self.breakpoints.has(machine.active.pc());
        let set = machine.active.isa();
        self.step_over()?;
        let changed = self.watches.changed(self.debug.machine().body.ram.bytes());
        Ok(stop_by(until, set, is_break, changed))
    }

    /// Does a step again that was done before.
    fn step_over(&mut self) -> Result<(), Lost>
        requires before { self.old.steps < self.old.furthest }
        ensures moves { MatchResult result (λ _. Moved (run_of self.old) (run_of self.new) × (self.new.steps ≡ suc self.old.steps)) (λ lost. IsLost lost (run_of self.old) (run_of self.new)) }
        ensures devices { self.new.real ≡ self.old.real }
        ensures keeps { Keeps self.old self.new }
    {
        let mut stop = Stop::Limit;
        if self.again(&mut stop) && does_go_on(stop) {
            Ok(())
        } else {
            Err(Lost::Strayed)
        }
    }

    /// Takes a step back, if one is kept.
    #[inline(always)]
    fn step_back(&mut self) -> bool
        ensures back { StepsBack result self.old self.new }
        ensures old { IsWhole self.old.debug.machine.body (isa_of self.old.debug.machine.active) }
        ensures new { IsWhole self.new.debug.machine.body (isa_of self.new.debug.machine.active) }
    {
        let _whole = self.debug.machine();
        if self.past.is_empty() {
            return false;
        }
        if !self.debug.back() {
            return false;
        }
        let Some(used) = self.past.pop_front() else {
            unreachable!()
        };
        self.used = used;
        self.steps -= 1;
        true
    }
}

/// How a walk of so many steps back from a place ends that nothing stops.
fn end_of(high: u64, budget: u64) -> Halt
    ensures { result ≡ (if nat_lt high budget then Halts.Beginning else Halts.Spent) }
{
    if high < budget {
        Halt::Beginning
    } else {
        Halt::Spent
    }
}

/// Where a walk back ends that is stopped there, or nowhere before.
fn place_of(from: u64, found: Option<Found>) -> u64
    ensures { result ≡ place_in from found }
{
    match found {
        Some(found) => found.steps,
        None => from,
    }
}

/// Why it ends there, if it is stopped.
fn halt_of(found: Option<Found>) -> Option<Halt>
    ensures { result ≡ halt_in found }
{
    match found {
        Some(found) => Some(found.halt),
        None => None,
    }
}

/// What stops a walk by what is known of a place.
fn stop_by(until: Until, set: Isa, is_break: bool, changed: Option<u32>) -> Option<Halt>
    ensures { result ≡ (if is_break then Some Halts.Breakpoint else halt_by until set changed) }
{
    if is_break {
        return Some(Halt::Breakpoint);
    }
    match (changed, until) {
        (Some(at), _) => Some(Halt::Watched(at)),
        (None, Until::Active(wanted)) if is_set(wanted, set) => Some(Halt::Arrived),
        _ => None,
    }
}
