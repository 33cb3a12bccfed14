// A host with 128 KiB of RAM, whose heap lies from $10000 to $18000.
ghost use Rattle.std.specs.Prelude.{◌≡◌, ◌<◌, ◌≤◌, vec_len};
ghost use Rattle.big_memory.specs.Memory.{floor_of, zeroed};
ghost use Rattle.toolbox.specs.declared.table.TheConstants.{FUNCTIONS};

use crate::case::{Case, refused};
use crate::equal::{equal, must};
use crate::functions::BLOCK_MOVE;
use big_memory::Ram;
use dev_rack::{Asked, Devices, Rack};
use host_heap::Heap;
use mix_bits::{FaultKind, Size};
use mix_io::{Device, MemSink, MemSource};
use std::alloc::Global;
use std::fmt::Display;
use std::process::Abort;
use switch_frame::Active;
use toolbox::{FUNCTIONS, HostOut, host_call};

/// What a host does, or what is then to be seen of it.
#[derive(Clone, Copy)]
pub enum Step {
    Call(Case),
    /// A move of a block is refused, by code of both sets: from where, to where, how much, and the access.
    RefusedMove([u32; 3], FaultKind, u32),
    /// These longs are stored from an address on.
    Store(u32, &'static [u32]),
    /// One unit of the stack is guarded.
    Guard,
    /// These longs stand from an address on.
    Holds(u32, &'static [u32]),
    /// These bytes, and no others, came out.
    Wrote(&'static [u8]),
    /// The journal has these entries: the slot, the word, and the answer.
    Notes(&'static [(u32, u32, Option<u32>)]),
}

/// What a host call works on. Tests store only through calls that keep the heap where it has to lie.
#[derive(Drop)]
pub struct Bench<D> {
    ram: Ram,
    heap: Heap,
    rack: D,
    input: MemSource,
    out: MemSink,
    ghost above: { 0x10000 ≤ heap.low },
    ghost below: { heap.high ≤ floor_of ram },
}

/// A host without devices, with no input and no room for output.
pub fn quiet_host(rt: &impl Abort, alloc: Global) -> Bench<Rack> {
    host_with(rt, alloc, Vec::new(alloc))
}

/// A host that holds these devices, with no input and no room for output.
pub fn host_with(rt: &impl Abort, alloc: Global, devices: Vec<Box<dyn Device>>) -> Bench<Rack>
    requires { vec_len devices ≤ 8 }
{
    Bench {
        ram: memory(rt, alloc),
        heap: empty_heap(rt, alloc),
        rack: Rack::new(alloc, devices).expect(rt, "no rack"),
        input: MemSource::new(Vec::new(alloc), Vec::new(alloc)),
        out: sink(rt, alloc, 0, &[]),
    }
}

/// A host with this input; the takes with these numbers fail.
pub fn reading_host(rt: &impl Abort, alloc: Global, input: &[u8], takes: &[u32]) -> Bench<Rack> {
    let mut host = quiet_host(rt, alloc);
    host.input = source(rt, alloc, input, takes);
    host
}

/// A host with room for so much output; the puts with these numbers fail.
pub fn writing_host(rt: &impl Abort, alloc: Global, room: u32, puts: &[u32]) -> Bench<Rack> {
    let mut host = quiet_host(rt, alloc);
    host.out = sink(rt, alloc, room, puts);
    host
}

/// The RAM of a host.
fn memory(rt: &impl Abort, alloc: Global) -> Ram
    ensures { result ≡ zeroed 0x20000 }
{
    let Ok(ram) = Ram::new(alloc, 0x2_0000) else {
        panic!(rt; "no memory")
    };
    ram
}

/// The heap of a host, without a block.
fn empty_heap(rt: &impl Abort, alloc: Global) -> Heap
    ensures low { result.low ≡ 0x10000 }
    ensures high { result.high ≡ 0x18000 }
{
    Heap::new(alloc, 0x1_0000, 0x1_8000).expect(rt, "no heap")
}

/// An output with so much room; the puts with these numbers fail.
fn sink(rt: &impl Abort, alloc: Global, room: u32, puts: &[u32]) -> MemSink {
    let puts = puts.to_vec(alloc).expect(rt, "no puts");
    MemSink::new(alloc, room, puts).expect(rt, "no output")
}

/// This input; the takes with these numbers fail.
fn source(rt: &impl Abort, alloc: Global, input: &[u8], takes: &[u32]) -> MemSource {
    let input = input.to_vec(alloc).expect(rt, "no input");
    MemSource::new(input, takes.to_vec(alloc).expect(rt, "no takes"))
}

impl<D: Devices + Drop> Bench<D> {
    /// What a host does, step by step.
    pub fn plays(mut self, rt: &impl Abort, steps: &[Step]) {
        for (number, step) in steps.iter().enumerate() {
            self.play(rt, number, *step);
        }
    }

    /// One step, which has a number.
    fn play(&mut self, rt: &impl Abort, number: usize, step: Step) {
        match step {
            Step::Call(case) => self.run_one(rt, number, case),
            Step::RefusedMove(registers, kind, detail) => {
                self.refuses(rt, number, registers, refused(kind, detail));
            }
            Step::Store(a, longs) => self.store(rt, a, longs),
            Step::Guard => self.guard(rt),
            Step::Holds(a, longs) => self.holds(rt, a, longs),
            Step::Wrote(bytes) => self.wrote(rt, bytes),
            Step::Notes(entries) => self.notes(rt, entries),
        }
    }

    /// A move of a block goes so, by code of both sets.
    fn refuses(&mut self, rt: &impl Abort, number: usize, [from, to, n]: [u32; 3], out: HostOut) {
        self.run_one(rt, number, Case::Stays(BLOCK_MOVE, [from, to, n, 1], out));
        self.run_one(rt, number, Case::PpcStays(BLOCK_MOVE, [from, to, n], out));
    }

    /// The journal has these entries.
    fn notes(&self, rt: &impl Abort, entries: &[(u32, u32, Option<u32>)]) {
        let journal = self.rack.journal();
        equal(rt, "the entries", journal.len(), entries.len());
        for (entry, (slot, word, answer)) in journal.iter().zip(entries) {
            let wanted = Asked {
                slot: *slot,
                word: *word,
                answer: *answer,
            };
            equal(rt, *slot, *entry, wanted);
        }
    }

    /// One call goes so, and leaves these registers; `what` names it.
    pub fn run_one<W: Display + Copy>(&mut self, rt: &impl Abort, what: W, case: Case) {
        let wanted = case.call();
        must(rt, (wanted.function as usize) < FUNCTIONS);
        let mut active = wanted.before;
        let out = self.call(wanted.function, &mut active);
        equal(rt, what, out, wanted.out);
        equal(rt, what, active, wanted.after);
    }

    /// Calls a function for code of the active set.
    fn call(&mut self, function: u32, active: &mut Active) -> HostOut
        requires { function < FUNCTIONS }
    {
        host_call(
            function,
            active,
            &mut self.ram,
            &mut self.heap,
            &mut self.rack,
            &mut self.input,
            &mut self.out,
        )
    }

    /// Stores these longs from an address on.
    fn store(&mut self, rt: &impl Abort, a: u32, longs: &[u32]) {
        self.ram.store_longs(a, longs).expect(rt, "no store");
    }

    /// Guards one unit of the stack.
    fn guard(&mut self, rt: &impl Abort) {
        must(rt, self.ram.len() == 0x2_0000);
        must(rt, self.ram.floor() == 0x1_8000);
        self.ram.guard(0x1_F000, 0x1_F010);
    }

    /// These longs stand from an address on.
    fn holds(&self, rt: &impl Abort, a: u32, longs: &[u32]) {
        must(rt, a < 0x2_0000);
        for (k, long) in longs.iter().enumerate() {
            must(rt, k < 0x1000);
            let found = self.ram.load(a + 4 * k as u32, Size::Four);
            equal(rt, k, found, Ok(*long));
        }
    }

    /// These bytes, and no others, came out.
    fn wrote(&self, rt: &impl Abort, bytes: &[u8]) {
        equal(rt, "the output", self.out.held(), bytes);
    }
}
