// A walker: how it begins, where it is, where it is to stop, and its walks forward.
ghost use Rattle.std.specs.Prelude.{◌≡◌, ◌==◌, ◌&&◌, ◌+◌, ◌-◌, ◌^◌, ◌≤◌, ◌<◌, ◌++◌, ◌∷◌, [], All, IfOk, IfNone, ℕ, filter, if◌then◌else◌, length, map, min, nat_le, nat_lt, not, take};
ghost use Rattle.std.specs.List.{list_any};
ghost use Rattle.mix_io.specs.StreamsClauses.{output};
ghost use Rattle.mixed_machine.specs.Machine.{IsWhole};
ghost use Rattle.mixed_machine.specs.Runs.{Sinks};
ghost use Rattle.switch_frame.specs.Records.{isa_of};
ghost use Rattle.dev_rack.specs.Accounts.{Accounts};
ghost use Rattle.gdb_steps.specs.Places.{Begin, IsFront, IsRun};
ghost use Rattle.gdb_steps.specs.Points.{Points, is_same_range, is_set, range_of};
ghost use Rattle.gdb_steps.specs.Walkers.{IsFresh, points_of, run_of, sinks};
ghost use Rattle.gdb_steps.specs.WalkersClauses.{Begins};
ghost use Rattle.gdb_steps.specs.Walks.{Forward};
ghost use Rattle.gdb_steps.specs.inner.Goings.{OneMore};
ghost use Rattle.gdb_steps.specs.inner.Looks.{HasSeen};
ghost use Rattle.gdb_steps.specs.inner.Onces.{AgainStep, FirstStep, halt_seen};
ghost use Rattle.mix_engine.specs.Ends.{goes_on};
ghost use Rattle.mix_debug.specs.TrailsClauses.{is_done as is_done_by};
ghost use Rattle.circular_buffer.specs.Buffer.{buffer};
ghost use Rattle.std.specs.Bool.{OnFalse, OnTrue};

use crate::breakpoints::Breakpoints;
use crate::halt::{Halt, Until};
use crate::once::step_once;
use crate::real::Real;
use crate::replay::Replay;
use crate::silent::Silent;
use crate::snapshots::Snapshots;
use crate::used::Used;
use crate::walker::{MOST_STEPS, Walker};
use crate::watches::Watches;
use circular_buffer::HeapCircularBuffer;
use dev_rack::{Asked, Devices};
use mix_bits::{Isa, NoMemory};
use mix_debug::Debug;
use mix_engine::{Machine, Stop};
use mix_io::Sink;
use std::alloc::Global;

impl<D: Devices + Drop> Walker<D> {
    /// A machine before its first step, with the whole of its input, and with devices in so many slots from 0 on, none of
    /// which was asked. This machine is kept, and so many later ones at the most, to go back from. All other memory is taken
    /// here; where there is none, all of these are dropped.
    pub fn new(
        alloc: Global,
        machine: Machine,
        input: Vec<u8>,
        devices: D,
        slots: usize,
        most_kept: usize,
    ) -> Result<Walker<D>, NoMemory>
        requires whole { IsWhole machine.body (isa_of machine.active) }
        requires few { slots ≤ 8 }
        requires fresh { IsFresh slots (D.state devices) }
        ensures begins { IfOk result (Begins machine input.items slots) }
        ensures devices { IfOk result (λ w. w.real ≡ D.state devices) }
        ensures most_kept { IfOk result (λ w. w.most_kept ≡ most_kept) }
    {
        let replay = Replay::new(alloc, slots)?;
        let real = Real::new(devices, slots);
        let used = Used {
            input: 0,
            asks: 0,
            held: real.held(),
        };
        let snapshots = Snapshots::new(alloc, &machine, used)?;
        Ok(Walker {
            alloc,
            debug: Debug::new(alloc, machine)?,
            input,
            real,
            replay,
            used,
            past: HeapCircularBuffer::with_capacity(alloc, MOST_STEPS)?,
            steps: 0,
            furthest: 0,
            snapshots,
            most_kept,
            breakpoints: Breakpoints::new(alloc)?,
            watches: Watches::new(alloc)?,
        })
    }

    /// The machine, and the steps that can be taken back.
    pub fn debug(&self) -> &Debug
        ensures { result.now ≡ self.now.debug }
    {
        &self.debug
    }

    /// The machine as it is now.
    pub fn machine(&self) -> &Machine
        ensures machine { result.now ≡ self.now.debug.machine }
        ensures whole { IsWhole self.now.debug.machine.body (isa_of self.now.debug.machine.active) }
    {
        self.debug.machine()
    }

    /// How many steps of the run lead here from its beginning.
    pub fn steps(&self) -> u64
        ensures { result ≡ self.now.steps }
    {
        self.steps
    }

    /// How many steps lead to the furthest place that was reached.
    pub fn furthest(&self) -> u64
        ensures { result ≡ self.now.furthest }
    {
        self.furthest
    }

    /// The asks that were made up to the furthest place, each with its answer.
    pub fn journal(&self) -> &[Asked]
        ensures { result.now ≡ self.now.real.journal }
    {
        self.real.journal()
    }

    /// Sets an address to stop at. It is false, and all stays as it is, where it is set already, or where 256 are.
    pub fn set_break(&mut self, a: u32) -> bool
        ensures exact { result ≡ (not (list_any (λ b. b == a) self.old.breakpoints) && nat_lt (length self.old.breakpoints) 256) }
        ensures after { self.new.breakpoints ≡ (if result then self.old.breakpoints ++ a ∷ [] else self.old.breakpoints) }
        ensures beside { self.new ≡ record self.old { breakpoints = self.new.breakpoints } }
    {
        self.breakpoints.set(a)
    }

    /// Clears it again. It is false where it is not set.
    pub fn clear_break(&mut self, a: u32) -> bool
        ensures exact { result ≡ list_any (λ b. b == a) self.old.breakpoints }
        ensures after { self.new.breakpoints ≡ filter (λ b. not (b == a)) self.old.breakpoints }
        ensures beside { self.new ≡ record self.old { breakpoints = self.new.breakpoints } }
    {
        self.breakpoints.clear(a)
    }

    /// Watches a range of 1 to 64 bytes of memory. It is false, and all stays as it is, for another count, where the range
    /// is watched already, or where 16 are.
    pub fn set_watch(&mut self, at: u32, count: u32) -> bool
        ensures exact { result ≡ (nat_le 1 count && (nat_le count 64 && (not (list_any (is_same_range (record { at = at; count = count })) (points_of self.old).watches) && nat_lt (length (points_of self.old).watches) 16))) }
        ensures after { (points_of self.new).watches ≡ (if result then (points_of self.old).watches ++ record { at = at; count = count } ∷ [] else (points_of self.old).watches) }
        ensures beside { self.new ≡ record self.old { watches = self.new.watches } }
    {
        self.watches.set(at, count)
    }

    /// Watches it no more. It is false where it is not watched.
    pub fn clear_watch(&mut self, at: u32, count: u32) -> bool
        ensures exact { result ≡ list_any (is_same_range (record { at = at; count = count })) (points_of self.old).watches }
        ensures after { (points_of self.new).watches ≡ filter (λ r. not (is_same_range (record { at = at; count = count }) r)) (points_of self.old).watches }
        ensures beside { self.new ≡ record self.old { watches = self.new.watches } }
    {
        self.watches.clear(at, count)
    }

    /// Does up to so many steps, until something stops it: at the first step behind which an address that is set to stop
    /// at comes next, or watched bytes have changed, or what is waited for is there; or in front of the end of the
    /// program, so that one can go back from there. What was not told before goes to the output and to the trace.
    ///
    /// No step is done behind the last that 64 bits count.
    pub fn forward<O: Sink, T: Sink>(
        &mut self,
        until: Until,
        budget: u32,
        out: &mut O,
        trace: &mut T,
    ) -> Halt
        ensures walks { (b : Begin) → IsRun b (run_of self.old)
            → Forward b (points_of self.old) until (min budget (2 ^ 64 - 1 - self.old.steps)) result (run_of self.old) (run_of self.new)
            (sinks (output (O.held out.old) (O.faults out.old)) (output (T.held trace.old) (T.faults trace.old)))
            (sinks (output (O.held out.new) (O.faults out.new)) (output (T.held trace.new) (T.faults trace.new))) }
        ensures devices { Accounts self.old.real self.new.real }
        ensures points { points_of self.new ≡ points_of self.old }
    {
        let last = self.steps.saturating_add(u64::from(budget));
        self.look();
        'steps: while self.steps < last {
            self.keep();
            if let Some(halt) = self.step(until, out, trace) {
                return halt;
            }
        }
        Halt::Spent
    }

    /// Sees the bytes of the watched ranges.
    pub(crate) fn look(&mut self)
        ensures seen { All (HasSeen self.new.debug.machine.body.ram.bytes) self.new.watches }
        ensures ranges { map range_of self.new.watches ≡ map range_of self.old.watches }
        ensures beside { self.new ≡ record self.old { watches = self.new.watches } }
    {
        let machine = self.debug.machine();
        self.watches.look(machine.body.ram.bytes());
    }

    /// Keeps the machine, where it is time for that.
    #[inline(always)]
    fn keep(&mut self)
        ensures kept { (b : Begin) → IsRun b (run_of self.old) → IsRun b (run_of self.new) }
        ensures same { run_of self.new ≡ record (run_of self.old) { kept = self.new.snapshots } }
        ensures breakpoints { self.new.breakpoints ≡ self.old.breakpoints }
        ensures watches { self.new.watches ≡ self.old.watches }
    {
        if self.snapshots.is_due(self.steps) {
            self.keep_here();
        }
    }

    /// Keeps the machine.
    #[inline(never)]
    fn keep_here(&mut self)
        ensures kept { (b : Begin) → IsRun b (run_of self.old) → IsRun b (run_of self.new) }
        ensures same { run_of self.new ≡ record (run_of self.old) { kept = self.new.snapshots } }
        ensures breakpoints { self.new.breakpoints ≡ self.old.breakpoints }
        ensures watches { self.new.watches ≡ self.old.watches }
    {
        self.snapshots.keep(
            self.alloc,
            self.debug.machine(),
            self.used,
            self.steps,
            self.most_kept,
        );
    }

    /// Does a step, and says what stops the walk at it or behind it, if anything does.
    #[inline(always)]
    fn step<O: Sink, T: Sink>(&mut self, until: Until, out: &mut O, trace: &mut T) -> Option<Halt>
        requires seen { All (HasSeen self.old.debug.machine.body.ram.bytes) self.old.watches }
        requires last { self.old.steps < 2 ^ 64 - 1 }
        ensures one { (b : Begin) → IsRun b (run_of self.old)
            → OneMore b (points_of self.old) until (run_of self.old) (run_of self.new)
            (sinks (output (O.held out.old) (O.faults out.old)) (output (T.held trace.old) (T.faults trace.old)))
            (sinks (output (O.held out.new) (O.faults out.new)) (output (T.held trace.new) (T.faults trace.new))) result }
        ensures seen { IfNone result (All (HasSeen self.new.debug.machine.body.ram.bytes) self.new.watches) }
        ensures steps { IfNone result (self.new.steps ≡ self.old.steps + 1) }
        ensures devices { Accounts self.old.real self.new.real }
        ensures points { points_of self.new ≡ points_of self.old }
    {
        if self.steps < self.furthest {
            self.step_again(until)
        } else {
            self.step_first(until, out, trace)
        }
    }

    /// The same for a step that is done for the first time.
    #[inline(always)]
    fn step_first<O: Sink, T: Sink>(
        &mut self,
        until: Until,
        out: &mut O,
        trace: &mut T,
    ) -> Option<Halt>
        requires seen { All (HasSeen self.old.debug.machine.body.ram.bytes) self.old.watches }
        requires last { self.old.steps < 2 ^ 64 - 1 }
        requires furthest { self.old.furthest ≤ self.old.steps }
        ensures one { (b : Begin) → IsRun b (run_of self.old)
            → OneMore b (points_of self.old) until (run_of self.old) (run_of self.new)
            (sinks (output (O.held out.old) (O.faults out.old)) (output (T.held trace.old) (T.faults trace.old)))
            (sinks (output (O.held out.new) (O.faults out.new)) (output (T.held trace.new) (T.faults trace.new))) result }
        ensures seen { IfNone result (All (HasSeen self.new.debug.machine.body.ram.bytes) self.new.watches) }
        ensures steps { IfNone result (self.new.steps ≡ self.old.steps + 1) }
        ensures devices { Accounts self.old.real self.new.real }
        ensures points { points_of self.new ≡ points_of self.old }
    {
        let mut stop = Stop::Limit;
        if self.first(out, trace, &mut stop) {
            self.halt_here(until)
        } else {
            Some(Halt::End(stop))
        }
    }

    /// The same for a step that is done again.
    #[inline(never)]
    fn step_again(&mut self, until: Until) -> Option<Halt>
        requires seen { All (HasSeen self.old.debug.machine.body.ram.bytes) self.old.watches }
        requires before { self.old.steps < self.old.furthest }
        ensures one { (b : Begin) (x : Sinks) → IsRun b (run_of self.old) → OneMore b (points_of self.old) until (run_of self.old) (run_of self.new) x x result }
        ensures seen { IfNone result (All (HasSeen self.new.debug.machine.body.ram.bytes) self.new.watches) }
        ensures steps { IfNone result (self.new.steps ≡ self.old.steps + 1) }
        ensures devices { Accounts self.old.real self.new.real }
        ensures points { points_of self.new ≡ points_of self.old }
    {
        let mut stop = Stop::Limit;
        if !self.again(&mut stop) {
            return Some(Halt::Strayed);
        }
        if does_go_on(stop) {
            self.halt_here(until)
        } else {
            Some(Halt::End(stop))
        }
    }

    /// Does a step for the first time: whether the program goes on.
    #[inline(always)]
    fn first<O: Sink, T: Sink>(&mut self, out: &mut O, trace: &mut T, stop: &mut Stop) -> bool
        requires cell { stop.old ≡ Stop.Limit }
        requires last { self.old.steps < 2 ^ 64 - 1 }
        requires furthest { self.old.furthest ≤ self.old.steps }
        ensures answer { result ≡ goes_on stop.new }
        ensures step { FirstStep self.old self.new (output (O.held out.old) (O.faults out.old)) (output (O.held out.new) (O.faults out.new))
            (output (T.held trace.old) (T.faults trace.old)) (output (T.held trace.new) (T.faults trace.new)) stop.new }
    {
        let once = step_once(
            &mut self.debug,
            &mut self.real,
            &self.input,
            self.used.input,
            out,
            trace,
            stop,
        );
        if !is_done(*stop) {
            return once.on;
        }
        let used = Used {
            input: once.taken,
            asks: self.real.journal().len(),
            held: self.real.held(),
        };
        go_on(&mut self.past, &mut self.used, used);
        self.steps += 1;
        self.furthest = self.steps;
        once.on
    }

    /// Does a step again: whether the asks in it were those of the journal.
    #[inline(never)]
    pub(crate) fn again(&mut self, stop: &mut Stop) -> bool
        requires cell { stop.old ≡ Stop.Limit }
        requires before { self.old.steps < self.old.furthest }
        ensures step { AgainStep self.old self.new stop.new result }
    {
        self.replay
            .prepare(self.real.journal(), self.used.asks, &self.used.held);
        let once = step_once(
            &mut self.debug,
            &mut self.replay,
            &self.input,
            self.used.input,
            &mut Silent,
            &mut Silent,
            stop,
        );
        if !once.on {
            self.replay.forget(self.used.asks);
            return true;
        }
        if !is_front(self.replay.asks(), self.real.journal(), self.used.asks) {
            self.replay.forget(self.used.asks);
            return false;
        }
        let used = Used {
            input: once.taken,
            asks: self.replay.asks().len(),
            held: self.replay.held(),
        };
        go_on(&mut self.past, &mut self.used, used);
        self.steps += 1;
        true
    }

    /// What stops a walk here, if anything does.
    #[inline(always)]
    pub(crate) fn halt_here(&self, until: Until) -> Option<Halt>
        ensures value { result ≡ halt_seen self.now.breakpoints self.now.watches until self.now.debug.machine }
    {
        let machine = self.debug.machine();
        if self.breakpoints.has(machine.active.pc()) {
            return Some(Halt::Breakpoint);
        }
        if let Some(at) = self.watches.changed(machine.body.ram.bytes()) {
            return Some(Halt::Watched(at));
        }
        match until {
            Until::Active(set) if is_set(set, machine.active.isa()) => Some(Halt::Arrived),
            _ => None,
        }
    }
}

/// What is used up before a step is put in front of what is kept, and what is used up behind it takes its place.
#[inline(always)]
fn go_on(past: &mut HeapCircularBuffer<Used>, here: &mut Used, used: Used)
    ensures past { past.new ≡ buffer (take past.old.capacity (here.old ∷ past.old.items)) past.old.capacity }
    ensures here { here.new ≡ used }
{
    let _ = past.push_front(*here);
    *here = used;
}

/// Whether a step is done at which a run stopped.
#[inline(always)]
fn is_done(stop: Stop) -> bool
    ensures { result ≡ is_done_by stop }
{
    match stop {
        Stop::Limit | Stop::TraceFault => true,
        _ => false,
    }
}

/// Whether the program goes on behind a step.
#[inline(always)]
pub(crate) fn does_go_on(stop: Stop) -> bool
    ensures { result ≡ goes_on stop }
{
    match stop {
        Stop::Limit => true,
        _ => false,
    }
}

/// Whether two sets of instructions are the same.
#[inline(always)]
pub(crate) fn is_set(a: Isa, b: Isa) -> bool
    ensures { result ≡ is_set a b }
{
    match (a, b) {
        (Isa::M68, Isa::M68) | (Isa::Ppc, Isa::Ppc) => true,
        _ => false,
    }
}

/// Whether asks, of which so many are a beginning of the journal, are one.
#[inline(always)]
fn is_front(asks: &[Asked], journal: &[Asked], front: usize) -> bool
    requires front { take front asks.now ≡ take front journal.now }
    requires within { front ≤ length journal.now }
    ensures yes { OnTrue result (IsFront asks.now journal.now) }
    ensures no { OnFalse result (IsFront asks.now journal.now → ⊥) }
{
    asks.len() == front || is_beginning(asks, journal)
}

/// The same without knowing how many are one.
#[inline(never)]
fn is_beginning(asks: &[Asked], journal: &[Asked]) -> bool
    ensures yes { OnTrue result (IsFront asks.now journal.now) }
    ensures no { OnFalse result (IsFront asks.now journal.now → ⊥) }
{
    asks.len() <= journal.len() && asks == &journal[..asks.len()]
}
