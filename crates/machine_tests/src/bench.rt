// A machine, and what stands around it in memory.
ghost use Rattle.std.specs.Prelude.{◌≤◌};
ghost use Rattle.switch_frame.specs.Records.{isa_of};
ghost use Rattle.mixed_machine.specs.Machine.{IsWhole};

use crate::equal::equal;
use crate::text::image;
use dev_rack::{Asked, Devices, Rack};
use mix_bits::Isa;
use mix_engine::{Machine, Stop, Turn, run, run_m68, run_ppc, step};
use mix_io::{Counter, Device, MemSink, MemSource, Source, Tape};
use mix_load::{FileBytes, Files, load};
use std::alloc::Global;
use std::process::Abort;
use switch_frame::{Active, Held, depth, top};

/// What goes wrong outside: the calls that fail, by their numbers from 1, and how much the output takes.
#[derive(Clone, Copy)]
pub struct Faults<'a> {
    pub input: &'a [u32],
    pub out: &'a [u32],
    pub trace: &'a [u32],
    pub room: u32,
}

/// Nothing goes wrong.
const CALM: Faults<'static> = Faults {
    input: &[],
    out: &[],
    trace: &[],
    room: 65536,
};

/// The outside of a machine: a counter is in slot 0, and a tape in slot 1.
#[derive(Drop)]
pub struct Outside {
    input: MemSource,
    pub out: MemSink,
    pub trace: MemSink,
    rack: Rack,
}

impl Outside {
    /// Nothing goes wrong around a machine with this input.
    pub fn calm(rt: &impl Abort, alloc: Global, input: &[u8]) -> Outside {
        Outside::new(rt, alloc, input, CALM)
    }

    pub fn new(rt: &impl Abort, alloc: Global, bytes: &[u8], faults: Faults) -> Outside {
        Outside {
            input: source(rt, alloc, bytes, faults.input),
            out: sink(rt, alloc, faults.room, faults.out),
            trace: sink(rt, alloc, 65536, faults.trace),
            rack: rack(rt, alloc),
        }
    }
}

/// This input; the takes with these numbers fail.
fn source(rt: &impl Abort, alloc: Global, bytes: &[u8], takes: &[u32]) -> MemSource {
    let bytes = bytes.to_vec(alloc).expect(rt, "no input");
    MemSource::new(bytes, takes.to_vec(alloc).expect(rt, "no takes"))
}

/// An output with so much room; the puts with these numbers fail.
fn sink(rt: &impl Abort, alloc: Global, room: u32, puts: &[u32]) -> MemSink {
    let puts = puts.to_vec(alloc).expect(rt, "no puts");
    MemSink::new(alloc, room, puts).expect(rt, "no output")
}

/// A counter at 0.
fn counter(rt: &impl Abort, alloc: Global) -> Counter {
    Counter::new(alloc).expect(rt, "no counter")
}

/// A tape without words.
fn tape(rt: &impl Abort, alloc: Global) -> Tape {
    Tape::new(alloc).expect(rt, "no tape")
}

/// The two devices in their slots.
fn rack(rt: &impl Abort, alloc: Global) -> Rack {
    let counter: Box<dyn Device> = Box::new(alloc, counter(rt, alloc)).expect(rt, "no device");
    let tape: Box<dyn Device> = Box::new(alloc, tape(rt, alloc)).expect(rt, "no device");
    let devices = vec![in alloc; counter, tape].expect(rt, "no devices");
    Rack::new(alloc, devices).expect(rt, "no rack")
}

/// A machine with a flat image, at its start, in so many KiB of RAM.
fn start(rt: &impl Abort, alloc: Global, main: Isa, kib: u32, text: &str) -> Machine
    requires least { 128 ≤ kib }
    requires most { kib ≤ 16384 }
    ensures { IsWhole result.body (isa_of result.active) }
{
    let bytes = image(rt, alloc, text);
    assert!(rt; bytes.len() <= 0x100_0000);
    let files = Files {
        flat: Some(FileBytes::of(bytes)),
        rsrc: None,
        pef: None,
    };
    let Ok(program) = load(alloc, &files, main, kib) else {
        panic!(rt; "no program")
    };
    let Ok(machine) = Machine::start(alloc, program) else {
        panic!(rt; "no machine")
    };
    machine
}

/// A machine, and what stands around it. Whoever begins one gives it to `leave` or `end`, so that only these drop it, and
/// the proofs of the others stay small.
#[derive(Drop)]
pub struct Trial {
    pub machine: Machine,
    pub around: Outside,
}

impl Trial {
    /// A flat image at its start, in so many KiB of RAM.
    pub fn begin(
        rt: &impl Abort,
        alloc: Global,
        main: Isa,
        kib: u32,
        text: &str,
        around: Outside,
    ) -> Trial
        requires least { 128 ≤ kib }
        requires most { kib ≤ 16384 }
        ensures { IsWhole result.machine.body (isa_of result.machine.active) }
    {
        let machine = start(rt, alloc, main, kib, text);
        Trial { machine, around }
    }

    /// Runs for at most so many steps.
    pub fn run(&mut self, steps: u32) -> Stop
        requires { IsWhole self.old.machine.body (isa_of self.old.machine.active) }
        ensures { IsWhole self.new.machine.body (isa_of self.new.machine.active) }
    {
        run_on(&mut self.machine, &mut self.around, steps)
    }

    /// Does one step.
    pub fn step(&mut self) -> Stop
        requires { IsWhole self.old.machine.body (isa_of self.old.machine.active) }
        ensures { IsWhole self.new.machine.body (isa_of self.new.machine.active) }
    {
        step_on(&mut self.machine, &mut self.around)
    }

    /// What a run leaves that stopped so.
    pub fn leave(mut self, rt: &impl Abort, alloc: Global, stop: Stop) -> Left {
        leave(rt, alloc, stop, self.machine.active, &mut self.around)
    }

    /// Nothing more is asked of it.
    pub fn end(self) {}
}

/// Runs a machine for at most so many steps.
pub fn run_on(m: &mut Machine, around: &mut Outside, steps: u32) -> Stop
    requires { IsWhole m.old.body (isa_of m.old.active) }
    ensures { IsWhole m.new.body (isa_of m.new.active) }
{
    run(
        m,
        &mut around.input,
        &mut around.out,
        &mut around.trace,
        &mut around.rack,
        steps,
    )
}

/// Does one step of a machine.
fn step_on(m: &mut Machine, around: &mut Outside) -> Stop
    requires { IsWhole m.old.body (isa_of m.old.active) }
    ensures { IsWhole m.new.body (isa_of m.new.active) }
{
    step(
        m,
        &mut around.input,
        &mut around.out,
        &mut around.trace,
        &mut around.rack,
    )
}

/// Runs the code of the active set by the way in of its set, until its caller goes on or the machine stops.
pub fn run_set(m: &mut Machine, around: &mut Outside, steps: &mut u32) -> Turn
    requires { IsWhole m.old.body (isa_of m.old.active) }
    ensures { IsWhole m.new.body (isa_of m.new.active) }
{
    let turn = match m.active {
        Active::M68(regs) => run_m68(
            &mut m.body,
            regs,
            &mut around.input,
            &mut around.out,
            &mut around.trace,
            &mut around.rack,
            steps,
        ),
        Active::Ppc(regs) => run_ppc(
            &mut m.body,
            regs,
            &mut around.input,
            &mut around.out,
            &mut around.trace,
            &mut around.rack,
            steps,
        ),
    };
    m.active = match turn {
        Turn::Back(active) => active,
        Turn::Stop(active, _) => active,
    };
    turn
}

/// The innermost caller that waits.
#[tactic(auto, unfolding(mixed_machine::specs::Machine::callers_of))]
pub fn innermost(m: &Machine) -> Option<Held>
    requires { IsWhole m.now.body (isa_of m.now.active) }
{
    top(&m.body.ram, m.body.top)
}

/// How many callers wait.
#[tactic(auto, unfolding(mixed_machine::specs::Machine::callers_of))]
pub fn waiting(m: &Machine) -> u32
    requires { IsWhole m.now.body (isa_of m.now.active) }
{
    depth(&m.body.ram, m.body.top)
}

/// All that a run leaves.
#[derive(Drop)]
pub struct Left {
    stop: Stop,
    active: Active,
    out: Vec<u8>,
    pub trace: Vec<u8>,
    input: Vec<u8>,
    journal: Vec<Asked>,
}

/// What is left of an input.
fn rest(rt: &impl Abort, alloc: Global, input: &mut MemSource) -> Vec<u8> {
    let mut bytes = Vec::new(alloc);
    for _ in 0..65536 {
        match input.take().expect(rt, "no byte is taken") {
            Some(byte) => bytes.push(byte).expect(rt, "no room"),
            None => break,
        }
    }
    bytes
}

/// The bytes that an output took.
fn taken(rt: &impl Abort, alloc: Global, out: &MemSink) -> Vec<u8> {
    out.held().to_vec(alloc).expect(rt, "no room")
}

/// What a machine that stopped leaves, and what stands around it then.
fn leave(rt: &impl Abort, alloc: Global, stop: Stop, active: Active, around: &mut Outside) -> Left {
    let journal = around.rack.journal().to_vec(alloc);
    Left {
        stop,
        active,
        out: taken(rt, alloc, &around.out),
        trace: taken(rt, alloc, &around.trace),
        input: rest(rt, alloc, &mut around.input),
        journal: journal.expect(rt, "no room"),
    }
}

/// Two runs left the same.
pub fn same(rt: &impl Abort, left: &Left, right: &Left, at: u32) {
    equal(rt, at, left.stop, right.stop);
    equal(rt, at, left.active, right.active);
    equal(rt, at, left.out.as_slice(), right.out.as_slice());
    equal(rt, at, left.trace.as_slice(), right.trace.as_slice());
    equal(rt, at, left.input.as_slice(), right.input.as_slice());
    equal(rt, at, left.journal.as_slice(), right.journal.as_slice());
}
