// A machine with its devices, over gdb's streams.
ghost use Rattle.std.specs.Prelude.{◌≡◌, ◌≤◌, MatchResult};
ghost use Rattle.mix_io.specs.StreamsClauses.{output};
ghost use Rattle.mixed_machine.specs.Machine.{IsWhole};
ghost use Rattle.switch_frame.specs.Records.{isa_of};
ghost use Rattle.gdb_steps.specs.Walkers.{IsFresh};
ghost use Rattle.gdb_session.specs.Hearing.{BlamesInput, BlamesOutput};
ghost use Rattle.look_gdb.specs.Serving.{ServesFresh, ServesMachine};

use crate::served::Served;
use crate::start::Start;
use dev_rack::{Devices, Rack};
use gdb_session::{Broken, serve};
use mix_bits::NoMemory;
use mix_io::{Counter, Device, Sink, Source, Tape};
use std::alloc::Global;

/// How many devices there are.
const SLOTS: usize = 2;

/// Serves gdb with a machine, with a counter in slot 0 and a tape in slot 1, as mixedrun has them.
pub fn serve_machine<I: Source, O: Sink>(
    alloc: Global,
    start: Start,
    input: &mut I,
    out: &mut O,
) -> Result<(), Broken>
    requires { IsWhole start.machine.body (isa_of start.machine.active) }
    ensures input { BlamesInput (I.faults input.old) (I.faults input.new) result }
    ensures output { BlamesOutput (O.faults out.old) (O.faults out.new) result }
    ensures serves { ServesFresh start.machine start.input.items 2 start.settings (I.left input.old) (I.left input.new) (output (O.held out.old) (O.faults out.old)) (output (O.held out.new) (O.faults out.new)) result }
{
    match serve_beside_two(alloc, start, input, out) {
        Ok(served) => served,
        Err(NoMemory) => Err(Broken::NoMemory),
    }
}

/// The same, or that there was no memory for the devices.
fn serve_beside_two<I: Source, O: Sink>(
    alloc: Global,
    start: Start,
    input: &mut I,
    out: &mut O,
) -> Result<Result<(), Broken>, NoMemory>
    requires { IsWhole start.machine.body (isa_of start.machine.active) }
    ensures input { MatchResult result (λ served. BlamesInput (I.faults input.old) (I.faults input.new) served) (λ _. I.faults input.new ≡ I.faults input.old) }
    ensures output { MatchResult result (λ served. BlamesOutput (O.faults out.old) (O.faults out.new) served) (λ _. O.faults out.new ≡ O.faults out.old) }
    ensures serves { MatchResult result (λ served. ServesFresh start.machine start.input.items 2 start.settings (I.left input.old) (I.left input.new) (output (O.held out.old) (O.faults out.old)) (output (O.held out.new) (O.faults out.new)) served) (λ _. (I.left input.new ≡ I.left input.old) × (O.held out.new ≡ O.held out.old)) }
{
    let mut devices: Vec<Box<dyn Device>> = Vec::new(alloc);
    devices.push(Box::new(alloc, Counter::new(alloc)?)?)?;
    devices.push(Box::new(alloc, Tape::new(alloc)?)?)?;
    let rack = Rack::new(alloc, devices)?;
    Ok(serve_two(alloc, start, rack, input, out))
}

/// The same with two devices, none of which was asked.
fn serve_two<D: Devices + Drop, I: Source, O: Sink>(
    alloc: Global,
    start: Start,
    devices: D,
    input: &mut I,
    out: &mut O,
) -> Result<(), Broken>
    requires whole { IsWhole start.machine.body (isa_of start.machine.active) }
    requires fresh { IsFresh 2 (D.state devices) }
    ensures input { BlamesInput (I.faults input.old) (I.faults input.new) result }
    ensures output { BlamesOutput (O.faults out.old) (O.faults out.new) result }
    ensures serves { ServesFresh start.machine start.input.items 2 start.settings (I.left input.old) (I.left input.new) (output (O.held out.old) (O.faults out.old)) (output (O.held out.new) (O.faults out.new)) result }
{
    serve_beside(alloc, start, devices, SLOTS, input, out)
}

/// The same with devices in so many slots from 0 on, none of which was asked.
pub fn serve_beside<D: Devices + Drop, I: Source, O: Sink>(
    alloc: Global,
    start: Start,
    devices: D,
    slots: usize,
    input: &mut I,
    out: &mut O,
) -> Result<(), Broken>
    requires whole { IsWhole start.machine.body (isa_of start.machine.active) }
    requires few { slots ≤ 8 }
    requires fresh { IsFresh slots (D.state devices) }
    ensures input { BlamesInput (I.faults input.old) (I.faults input.new) result }
    ensures output { BlamesOutput (O.faults out.old) (O.faults out.new) result }
    ensures serves { ServesMachine start.machine start.input.items (D.state devices) slots start.settings (I.left input.old) (I.left input.new) (output (O.held out.old) (O.faults out.old)) (output (O.held out.new) (O.faults out.new)) result }
{
    match Served::new(alloc, start, devices, slots) {
        Ok(served) => serve(alloc, served, input, out),
        Err(NoMemory) => Err(Broken::NoMemory),
    }
}
