// A machine that is run on from its image.
ghost use Rattle.std.specs.Prelude.{◌≡◌, ◌-◌, ℕ, List, Some, IfOk, OnErr, OnOk, length};
ghost use Rattle.mixed_machine.specs.Machine.{IsWhole};
ghost use Rattle.switch_frame.specs.Records.{isa_of};
ghost use Rattle.dev_rack.specs.Boxed.{seen};
ghost use Rattle.mix_image.specs.Spelling.{HasSpelling};
ghost use Rattle.slice_runs.specs.Advanced.{Advanced, Kept, Ran, stop_status};
ghost use Rattle.slice_parts.specs.Buffers.{IsWithin, buffer};
ghost use Rattle.slice_parts.specs.Rooms.{empty_keep, empty_room};
ghost use Rattle.mix_top.specs.WorldClauses.{two_devices, unasked};
ghost use Rattle.slice_runs.specs.Called.{AreLeft, AreWithin};

use super::reading::status_of;
use super::told::Told;
use dev_rack::{Devices, Rack};
use mix_engine::{Machine, Stop, run_counted};
use mix_image::{restore, save};
use mix_io::{Counter, Device, Failed, MemSource, NoMemory, Source, Tape};
use mix_top::status::{
    FAULTED, INPUT_FAILED, LIMIT_REACHED, NO_MEMORY, NOT_KEPT, OTHER_CODE, OUTPUT_FAILED, SUCCESS,
    TRACE_FAILED,
};
use slice_parts::{NAME, RoomKeep, Streams};
use std::alloc::Global;

/// Runs a machine on from its image for at most `steps` steps, and keeps the machine that it became, however it stopped. The
/// trace has the lines of calls, returns and asks, and no end line, so that the traces of several such runs, one after the
/// other, are those of one. `left` tells how many steps are left: an exit is a step that is done, and a fault is none.
///
/// The answer is the status: 8 where the image had no room.
pub fn advance(
    alloc: Global,
    image: &[u8],
    steps: u32,
    input: &[u8],
    out: &mut [u8],
    trace: &mut [u8],
    kept: &mut [u8],
    told: &mut Told,
    left: &mut u32,
) -> u8
    ensures advanced { Advanced image.now input.now steps left.new (buffer out.old out.new told.new.out) (buffer trace.old trace.new told.new.trace) (buffer kept.old kept.new told.new.kept) result }
    ensures within { AreWithin (buffer out.old out.new told.new.out) (buffer trace.old trace.new told.new.trace) (buffer kept.old kept.new told.new.kept) }
    ensures steps { told.new.steps ≡ steps - left.new }
{
    *told = Told::default();
    *left = steps;
    match restore(alloc, image) {
        Ok(machine) => match advance_beside(alloc, machine, input, out, trace, kept, told, left) {
            Ok(status) => {
                told.steps = steps - *left;
                status
            }
            Err(NoMemory) => NO_MEMORY,
        },
        Err(error) => status_of(error),
    }
}

/// Runs a machine beside a counter and a tape.
fn advance_beside(
    alloc: Global,
    machine: Machine,
    input: &[u8],
    out: &mut [u8],
    trace: &mut [u8],
    kept: &mut [u8],
    told: &mut Told,
    left: &mut u32,
) -> Result<u8, NoMemory>
    requires whole { IsWhole machine.body (isa_of machine.active) }
    ensures ran { IfOk result (Ran machine input.now left.old left.new (buffer out.old out.new told.new.out) (buffer trace.old trace.new told.new.trace) (buffer kept.old kept.new told.new.kept)) }
    ensures within { OnOk result (AreWithin (buffer out.old out.new told.new.out) (buffer trace.old trace.new told.new.trace) (buffer kept.old kept.new told.new.kept)) }
    ensures left { OnErr result (AreLeft (buffer out.old out.new 0) (buffer trace.old trace.new 0) (buffer kept.old kept.new 0)) }
    ensures told { OnErr result (told.new ≡ told.old) }
    ensures steps { OnErr result (left.new ≡ left.old) }
{
    let counter = Counter::new(alloc)?;
    let tape = Tape::new(alloc)?;
    advance_with(
        alloc, machine, input, counter, tape, out, trace, kept, told, left,
    )
}

/// Puts the counter into slot 0 and the tape into slot 1.
fn advance_with(
    alloc: Global,
    machine: Machine,
    input: &[u8],
    counter: Counter,
    tape: Tape,
    out: &mut [u8],
    trace: &mut [u8],
    kept: &mut [u8],
    told: &mut Told,
    left: &mut u32,
) -> Result<u8, NoMemory>
    requires whole { IsWhole machine.body (isa_of machine.active) }
    requires counter { seen ⟦<Counter as Device>⟧.faults ⟦<Counter as Device>⟧.told counter ≡ unasked }
    requires tape { seen ⟦<Tape as Device>⟧.faults ⟦<Tape as Device>⟧.told tape ≡ unasked }
    ensures ran { IfOk result (Ran machine input.now left.old left.new (buffer out.old out.new told.new.out) (buffer trace.old trace.new told.new.trace) (buffer kept.old kept.new told.new.kept)) }
    ensures within { OnOk result (AreWithin (buffer out.old out.new told.new.out) (buffer trace.old trace.new told.new.trace) (buffer kept.old kept.new told.new.kept)) }
    ensures left { OnErr result (AreLeft (buffer out.old out.new 0) (buffer trace.old trace.new 0) (buffer kept.old kept.new 0)) }
    ensures told { OnErr result (told.new ≡ told.old) }
    ensures steps { OnErr result (left.new ≡ left.old) }
{
    let counter: Box<dyn Device> = Box::new(alloc, counter)?;
    let tape: Box<dyn Device> = Box::new(alloc, tape)?;
    let mut rack = Rack::new(alloc, vec![in alloc; counter, tape]?)?;
    advance_over(
        alloc, machine, input, &mut rack, out, trace, kept, told, left,
    )
}

/// Makes the objects that stand for what the caller lends.
fn advance_over<D: Devices>(
    alloc: Global,
    machine: Machine,
    input: &[u8],
    rack: &mut D,
    out: &mut [u8],
    trace: &mut [u8],
    kept: &mut [u8],
    told: &mut Told,
    left: &mut u32,
) -> Result<u8, NoMemory>
    requires whole { IsWhole machine.body (isa_of machine.active) }
    requires rack { D.state rack.old ≡ two_devices }
    ensures ran { IfOk result (Ran machine input.now left.old left.new (buffer out.old out.new told.new.out) (buffer trace.old trace.new told.new.trace) (buffer kept.old kept.new told.new.kept)) }
    ensures within { OnOk result (AreWithin (buffer out.old out.new told.new.out) (buffer trace.old trace.new told.new.trace) (buffer kept.old kept.new told.new.kept)) }
    ensures left { OnErr result (AreLeft (buffer out.old out.new 0) (buffer trace.old trace.new 0) (buffer kept.old kept.new 0)) }
    ensures told { OnErr result (told.new ≡ told.old) }
    ensures steps { OnErr result (left.new ≡ left.old) }
{
    let streams = Streams::new(alloc, input, out.len(), trace.len(), kept.len())?;
    Ok(advance_among(machine, streams, rack, out, trace, kept, told, left))
}

/// Runs a machine, keeps what it became, and copies what was put.
fn advance_among<D: Devices>(
    mut machine: Machine,
    mut streams: Streams,
    rack: &mut D,
    out: &mut [u8],
    trace: &mut [u8],
    kept: &mut [u8],
    told: &mut Told,
    left: &mut u32,
) -> u8
    requires whole { IsWhole machine.body (isa_of machine.active) }
    requires rack { D.state rack.old ≡ two_devices }
    requires faults { ⟦<MemSource as Source>⟧.faults streams.input ≡ 0 }
    requires out { streams.out ≡ empty_room (length out.old) }
    requires trace { streams.trace ≡ empty_room (length trace.old) }
    requires kept { streams.keep ≡ empty_keep (length kept.old) }
    ensures ran { (input : List ℕ) → ⟦<MemSource as Source>⟧.left streams.input ≡ Some input
        → Ran machine input left.old left.new (buffer out.old out.new told.new.out) (buffer trace.old trace.new told.new.trace) (buffer kept.old kept.new told.new.kept) result }
    ensures within { AreWithin (buffer out.old out.new told.new.out) (buffer trace.old trace.new told.new.trace) (buffer kept.old kept.new told.new.kept) }
{
    let stop = run_counted(
        &mut machine,
        &mut streams.input,
        &mut streams.out,
        &mut streams.trace,
        rack,
        left,
    );
    told.out = streams.out.copy_to(out);
    told.trace = streams.trace.copy_to(trace);
    keep_machine(&machine, stop, &mut streams.keep, kept, &mut told.kept)
}

/// Keeps a machine that stopped in a buffer, and answers the status. The keeper is the buffer's, with nothing kept.
fn keep_machine(
    machine: &Machine,
    stop: Stop,
    keep: &mut RoomKeep,
    kept: &mut [u8],
    count: &mut usize,
) -> u8
    requires whole { IsWhole machine.now.body (isa_of machine.now.active) }
    requires fresh { keep.old ≡ empty_keep (length kept.old) }
    ensures spelled { HasSpelling machine.now }
    ensures kept { Kept machine.now (buffer kept.old kept.new count.new) (stop_status stop) result }
    ensures within { IsWithin (buffer kept.old kept.new count.new) }
{
    let saved = save(machine, keep, NAME);
    *count = keep.copy_to(kept);
    match saved {
        Ok(()) => status_at(stop),
        Err(Failed) => NOT_KEPT,
    }
}

fn status_at(stop: Stop) -> u8
    ensures { result ≡ stop_status stop }
{
    match stop {
        Stop::Exit(0) => SUCCESS,
        Stop::Exit(_) => OTHER_CODE,
        Stop::Fault(_) => FAULTED,
        Stop::Limit => LIMIT_REACHED,
        Stop::ReadFault => INPUT_FAILED,
        Stop::OutFault => OUTPUT_FAILED,
        Stop::TraceFault => TRACE_FAILED,
    }
}
