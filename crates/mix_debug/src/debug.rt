ghost use Rattle.std.specs.Prelude.{◌≡◌, ◌==◌, ◌&&◌, not, nat_lt, [], ◌∷◌, ◌++◌, filter, if◌then◌else◌, IfOk, length};
ghost use Rattle.std.specs.List.{list_any};
ghost use Rattle.switch_frame.specs.Records.{isa_of};
ghost use Rattle.dev_rack.specs.Accounts.{Accounts};
ghost use Rattle.toolbox.specs.CallsClauses.{counts_beside, outside as outside_of};
ghost use Rattle.mixed_machine.specs.CountsClauses.{Blames};
ghost use Rattle.mixed_machine.specs.Machine.{IsWhole};
ghost use Rattle.mixed_machine.specs.OutsideClauses.{at};
ghost use Rattle.mixed_machine.specs.RunsClauses.{Runs};
ghost use Rattle.mix_io.specs.CountsClauses.{HasCause};
ghost use Rattle.mix_io.specs.StreamsClauses.{output};
ghost use Rattle.mix_io.specs.Told.{Puts};
ghost use Rattle.toolbox.specs.Blames.{counts};
ghost use Rattle.mix_engine.specs.Beside.{AreSame, machine_beside, outside_lent, trace_lent};
ghost use Rattle.mix_engine.specs.Ends.{goes_on};
ghost use Rattle.mix_reach.specs.Ranges.{IsTold};
ghost use Rattle.mix_reach.specs.laws.Steps.{next_stores as next_stores_of};
ghost use Rattle.mix_debug.specs.CrawlClauses.{crawl_of};
ghost use Rattle.mix_debug.specs.inner.Histories.{Advances};
ghost use Rattle.mix_debug.specs.Histories.{IsHistory};
ghost use Rattle.mix_debug.specs.TrailsClauses.{Keeps, TakesBack, Trail, is_done as is_done_by, step_of as step_by, stop_of};

use crate::crawl::put_crawl;
use crate::history::History;
use crate::step::{Step, is_done, step_of};
use arrayvec::ArrayVec;
use dev_rack::Devices;
use mix_bits::NoMemory;
use mix_engine::{Machine, Outside, Stop, step_beside};
use mix_io::{Failed, Sink, Source};
use mix_reach::{Stores, Told, next_stores, no_stores, plain, told_68k, told_ppc};
use std::alloc::Global;
use std::marker::Model;
use switch_frame::Active;

/// At most so many addresses are set to stop at.
const MOST_BREAKS: usize = 64;

/// A machine that is stepped forward and back.
///
/// It keeps what the last steps changed: for each step 98 bytes, or 174 where PowerPC code did it, and for
/// each run of bytes that it changed an address, a length and the old bytes, 1048576 bytes in all.
#[derive(Drop)]
pub struct Debug {
    machine: Machine,
    history: History,
    breaks: ArrayVec<u32, MOST_BREAKS>,
}

impl Model for Debug {
    ghost use Rattle.mix_debug.specs.TrailsClauses.{Trail};
    ghost use Rattle.mix_debug.specs.Pasts.{entries_in};
    ghost use Rattle.mix_debug.specs.Machines.{earlier};
    ghost use Rattle.mix_debug.specs.Histories.{IsHistory};

    ghost Value = { Trail };

    ghost view = { λ d. record { machine = d.machine; kept = earlier d.machine (entries_in d.history.past); breaks = d.breaks.items } };

    ghost invariant = { λ d. IsHistory d.machine d.history };
}

impl Debug {
    /// A machine before its first step. All memory is taken here: a second RAM, and the room for the history.
    /// Where there is none, the machine is dropped.
    pub fn new(alloc: Global, machine: Machine) -> Result<Debug, NoMemory>
        requires { IsWhole machine.body (isa_of machine.active) }
        ensures { IfOk result (λ d. d ≡ record { machine = machine; kept = []; breaks = [] }) }
    {
        let history = History::new(alloc, &machine)?;
        Ok(Debug {
            machine,
            history,
            breaks: ArrayVec::new(),
        })
    }

    /// The machine as it is now.
    pub fn machine(&self) -> &Machine
        ensures machine { result.now ≡ self.now.machine }
        ensures whole { IsWhole self.now.machine.body (isa_of self.now.machine.active) }
    {
        let _history = &self.history;
        &self.machine
    }

    /// Runs one step, and keeps what it changed, if it is done.
    pub fn forward<I: Source, O: Sink, T: Sink, D: Devices>(
        &mut self,
        input: &mut I,
        out: &mut O,
        trace: &mut T,
        rack: &mut D,
    ) -> Step
        ensures whole { IsWhole self.new.machine.body (isa_of self.new.machine.active) }
        ensures run { Runs 1
            (at self.old.machine.body self.old.machine.active (outside_of (I.left input.old) (I.faults input.old) (D.state rack.old) (O.held out.old) (O.faults out.old)) (output (T.held trace.old) (T.faults trace.old)))
            (at self.new.machine.body self.new.machine.active (outside_of (I.left input.new) (I.faults input.new) (D.state rack.new) (O.held out.new) (O.faults out.new)) (output (T.held trace.new) (T.faults trace.new))) (stop_of result) }
        ensures answer { result ≡ step_by (stop_of result) }
        ensures blames { Blames (stop_of result) (counts (I.faults input.old) (O.faults out.old) (T.faults trace.old)) (counts (I.faults input.new) (O.faults out.new) (T.faults trace.new)) }
        ensures devices { Accounts (D.state rack.old) (D.state rack.new) }
        ensures keeps { Keeps (is_done_by (stop_of result)) self.old self.new }
        ensures breaks { self.new.breaks ≡ self.old.breaks }
    {
        let mut outside = Outside {
            input,
            out,
            trace,
            rack,
        };
        let mut stop = Stop::Limit;
        let _on = self.forward_beside(&mut outside, &mut stop);
        step_of(stop)
    }

    /// The same beside what lies outside: whether the program goes on. How the step stopped stands in the cell, which holds
    /// `Limit` before.
    #[inline(always)]
    pub fn forward_beside<'i, 'o, 't, 'd, I: Source, O: Sink, T: Sink, D: Devices>(
        &mut self,
        outside: &mut Outside<'i, 'o, 't, 'd, I, O, T, D>,
        stop: &mut Stop,
    ) -> bool
        requires cell { stop.old ≡ Stop.Limit }
        ensures answer { result ≡ goes_on stop.new }
        ensures whole { IsWhole self.new.machine.body (isa_of self.new.machine.active) }
        ensures run { Runs 1
            (machine_beside I.left I.faults O.held O.faults T.held T.faults D.state self.old.machine.body self.old.machine.active outside.old)
            (machine_beside I.left I.faults O.held O.faults T.held T.faults D.state self.new.machine.body self.new.machine.active outside.new) stop.new }
        ensures blames { Blames stop.new
            (counts_beside (outside_lent I.left I.faults O.held O.faults D.state outside.old) (trace_lent T.held T.faults outside.old))
            (counts_beside (outside_lent I.left I.faults O.held O.faults D.state outside.new) (trace_lent T.held T.faults outside.new)) }
        ensures devices { Accounts (D.state outside.old.rack.now) (D.state outside.new.rack.now) }
        ensures keeps { Keeps (is_done_by stop.new) self.old self.new }
        ensures breaks { self.new.breaks ≡ self.old.breaks }
        ensures same { AreSame outside.old outside.new }
    {
        advance(&mut self.machine, &mut self.history, outside, stop)
    }

    /// Takes the newest step back that is kept, and says whether there was one.
    ///
    /// What was read, put, traced or asked stays so.
    pub fn back(&mut self) -> bool
        ensures back { TakesBack result self.old.kept self.old self.new }
        ensures whole { IsWhole self.new.machine.body (isa_of self.new.machine.active) }
    {
        if self.history.is_empty() {
            return false;
        }
        self.history.undo(&mut self.machine);
        true
    }

    /// How many steps can be taken back.
    pub fn kept(&self) -> u32
        ensures { result ≡ length self.now.kept }
    {
        self.history.len()
    }

    /// Sets an address to stop at. It is false, and all stays as it is, where it is set already, or where 64 are.
    pub fn set_break(&mut self, a: u32) -> bool
        ensures exact { result ≡ (not (list_any (λ b. b == a) self.old.breaks) && nat_lt (length self.old.breaks) 64) }
        ensures after { self.new ≡ record self.old { breaks = (if result then self.old.breaks ++ a ∷ [] else self.old.breaks) } }
    {
        !self.is_break(a) && self.breaks.try_push(a).is_ok()
    }

    /// Clears it again. It is false where it is not set.
    pub fn clear_break(&mut self, a: u32) -> bool
        ensures exact { result ≡ list_any (λ b. b == a) self.old.breaks }
        ensures after { self.new ≡ record self.old { breaks = filter (λ b. not (b == a)) self.old.breaks } }
    {
        let found = self.is_break(a);
        self.breaks.retain(|b| *b != a);
        found
    }

    /// Whether an address is set to stop at.
    pub fn is_break(&self, a: u32) -> bool
        ensures { result ≡ list_any (λ b. b == a) self.now.breaks }
    {
        self.breaks.iter().any(|b| *b == a)
    }

    /// Puts a line for the running code, `0 SET PC`, and one for each suspended caller from the innermost
    /// outward, `K SET PC TARGET PROCINFO`, with what it called.
    pub fn crawl<T: Sink>(&self, trace: &mut T) -> Result<(), Failed>
        ensures text { Puts (T.held trace.old) (T.held trace.new) (crawl_of self.now.machine) result }
        ensures cause { HasCause (T.faults trace.old) (T.faults trace.new) result }
    {
        let _history = &self.history;
        put_crawl(&self.machine, trace)
    }
}

/// Runs one step of a machine, and keeps what it changed beside it, if it is done: whether the program goes on. How the
/// step stopped stands in the cell, which holds `Limit` before.
#[inline(always)]
fn advance<'i, 'o, 't, 'd, I: Source, O: Sink, T: Sink, D: Devices>(
    machine: &mut Machine,
    history: &mut History,
    outside: &mut Outside<'i, 'o, 't, 'd, I, O, T, D>,
    stop: &mut Stop,
) -> bool
    requires history { IsHistory machine.old history.old }
    requires cell { stop.old ≡ Stop.Limit }
    ensures answer { result ≡ goes_on stop.new }
    ensures step { Advances machine.old machine.new history.old history.new
        (machine_beside I.left I.faults O.held O.faults T.held T.faults D.state machine.old.body machine.old.active outside.old)
        (machine_beside I.left I.faults O.held O.faults T.held T.faults D.state machine.new.body machine.new.active outside.new) stop.new }
    ensures same { AreSame outside.old outside.new }
{
    let next = stores_of(machine);
    let top = machine.body.top;
    history.prepare(&machine.active, top);
    let on = step_beside(machine, outside, stop);
    if is_done(*stop) {
        history.keep(machine, top, &next);
    }
    on
}

/// Where the next step stores, which most instructions tell at once.
#[inline(always)]
fn stores_of(machine: &Machine) -> Stores
    ensures { result ≡ next_stores_of machine.now.body.ram machine.now.active }
{
    match told(machine) {
        Told::Nowhere => no_stores(),
        Told::There(reach) => plain(reach),
        Told::Unknown => looked_up(machine),
    }
}

/// The same where it has to be looked at further.
#[inline(never)]
fn looked_up(machine: &Machine) -> Stores
    ensures { result ≡ next_stores_of machine.now.body.ram machine.now.active }
{
    let body = &machine.body;
    next_stores(&body.ram, &machine.active)
}

/// What is told at once of where the next step stores.
#[inline(always)]
fn told(machine: &Machine) -> Told
    ensures { IsTold result (next_stores_of machine.now.body.ram machine.now.active) }
{
    let body = &machine.body;
    match &machine.active {
        Active::M68(regs) => told_68k(&body.ram, regs),
        Active::Ppc(regs) => told_ppc(&body.ram, regs),
    }
}
