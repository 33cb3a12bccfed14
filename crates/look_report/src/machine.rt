// All that is told of a machine.
ghost use Rattle.switch_frame.specs.Records.{isa_of};
ghost use Rattle.mixed_machine.specs.Machine.{IsWhole};

use crate::frames::{add_frames, add_hit};
use crate::history::{History, Low};
use crate::memory::{add_heap, add_stack};
use crate::registers::add_registers;
use crate::step::step_at;
use crate::steps::{add_jump, add_runs, add_step};
use crate::unsigned::{add_refusal, add_unsigned};
use call_trace::fault_name;
use fault_words::add_meaning;
use look_text::{Piece, add, add_line};
use look_words::Frames;
use mix_bits::{Fault, FaultKind, NoMemory};
use mix_engine::{Machine, Stop};
use std::alloc::Global;
use switch_frame::depth;

/// The second number of a descriptor's fault where a record has a procInfo without a signature.
const UNSIGNED: u32 = 8;

/// How many frames are told from the innermost on, and as many up to the outermost, where there are more.
pub const MANY: u32 = 8;

/// How a run ended, and how many steps were done.
#[derive(Clone, Copy)]
pub struct Ending {
    pub stop: Stop,
    pub done: u32,
}

/// What a run came to: how it ended, and how many bytes it took from the input and put to the output.
#[derive(Clone, Copy)]
pub struct Outcome {
    pub ending: Ending,
    pub taken: u32,
    pub put: u32,
}

/// What a run came to and what was kept of it, and the machine as it is: the code at pc, the registers, the suspended callers
/// from the innermost outward, the bytes around the stack pointer, and the heap.
pub fn run_report(
    alloc: Global,
    machine: &Machine,
    outcome: Outcome,
    history: &mut History,
    frames: Frames,
) -> Result<Vec<u8>, NoMemory>
    requires { IsWhole machine.now.body (isa_of machine.now.active) }
{
    let mut text = Vec::new(alloc);
    add_outcome(alloc, &mut text, machine, outcome)?;
    add_history(&mut text, machine, history, outcome.ending.done)?;
    add_machine(alloc, &mut text, machine, frames)?;
    Ok(text)
}

/// Appends how a run ended, and what went in and out.
fn add_outcome(
    alloc: Global,
    text: &mut Vec<u8>,
    machine: &Machine,
    outcome: Outcome,
) -> Result<(), NoMemory>
    requires { IsWhole machine.now.body (isa_of machine.now.active) }
{
    add_ending(text, outcome.ending)?;
    if let Stop::Fault(fault) = outcome.ending.stop {
        add_fault_meaning(alloc, text, machine, fault)?;
    }
    add_line(
        text,
        &[
            Piece::Text("bytes: "),
            Piece::Number(outcome.taken),
            Piece::Text(" taken from the input, "),
            Piece::Number(outcome.put),
            Piece::Text(" put to the output\n"),
        ],
    )
}

/// Appends the last steps, the last jump, and how low each stack pointer came.
fn add_history(
    text: &mut Vec<u8>,
    machine: &Machine,
    history: &mut History,
    done: u32,
) -> Result<(), NoMemory> {
    add_runs(text, history.runs(), done)?;
    if let Some(jump) = &history.jump {
        add_jump(text, jump)?;
    }
    add_low(text, machine, "68k", history.lowest_m68)?;
    add_low(text, machine, "ppc", history.lowest_ppc)
}

/// The machine as it is.
pub fn machine_report(alloc: Global, machine: &Machine, frames: Frames) -> Result<Vec<u8>, NoMemory>
    requires { IsWhole machine.now.body (isa_of machine.now.active) }
{
    let mut text = Vec::new(alloc);
    add_machine(alloc, &mut text, machine, frames)?;
    Ok(text)
}

/// Appends the machine as it is.
fn add_machine(
    alloc: Global,
    text: &mut Vec<u8>,
    machine: &Machine,
    frames: Frames,
) -> Result<(), NoMemory>
    requires { IsWhole machine.now.body (isa_of machine.now.active) }
{
    add(text, "next: ")?;
    add_step(text, &step_at(machine))?;
    add_registers(text, &machine.active)?;
    add_callers(alloc, text, machine, frames)?;
    add_stack(text, &machine.body.ram, machine.active.sp())?;
    add_heap(text, &machine.body.heap)
}

/// Appends the suspended callers.
fn add_callers(
    alloc: Global,
    text: &mut Vec<u8>,
    machine: &Machine,
    frames: Frames,
) -> Result<(), NoMemory>
    requires { IsWhole machine.now.body (isa_of machine.now.active) }
{
    let (ram, top) = (&machine.body.ram, machine.body.top);
    let untold = match frames {
        Frames::All => 0,
        Frames::Few => depth(ram, top).saturating_sub(2 * MANY),
    };
    add_frames(alloc, text, ram, top, untold)
}

/// Appends what a fault says, which frame a store hit, and which convention has no signature.
fn add_fault_meaning(
    alloc: Global,
    text: &mut Vec<u8>,
    machine: &Machine,
    fault: Fault,
) -> Result<(), NoMemory>
    requires { IsWhole machine.now.body (isa_of machine.now.active) }
{
    add(text, "that is: ")?;
    add_meaning(text, fault)?;
    match fault.kind {
        FaultKind::FrameStore => add_hit(
            text,
            &machine.body.ram,
            machine.body.top,
            1,
            fault.detail,
        ),
        FaultKind::BadDesc if fault.also == UNSIGNED => {
            add_unsigned(alloc, text, &machine.body.ram, fault.detail)
        }
        FaultKind::Info => add_refusal(alloc, text, fault.detail),
        _ => Ok(()),
    }
}

/// Appends how low the stack pointer of a set came, and what it came into.
fn add_low(
    text: &mut Vec<u8>,
    machine: &Machine,
    set: &str,
    low: Option<Low>,
) -> Result<(), NoMemory> {
    let Some(low) = low else {
        return Ok(());
    };
    add_line(
        text,
        &[
            Piece::Text("lowest "),
            Piece::Text(set),
            Piece::Text(" stack pointer: "),
            Piece::Long(low.sp),
            Piece::Text(", before step "),
            Piece::Number(low.number),
        ],
    )?;
    add_depth(text, machine.body.heap.bounds(), low.sp)
}

/// Appends what lies below the floor of the stack where a stack pointer is, if it is below.
fn add_depth(text: &mut Vec<u8>, bounds: (u32, u32), sp: u32) -> Result<(), NoMemory> {
    let (low, floor) = bounds;
    if floor <= sp {
        return add(text, "\n");
    }
    let place = if low <= sp {
        ", in the heap\n"
    } else {
        ", in the program or below it\n"
    };
    add_line(
        text,
        &[
            Piece::Text(": below the floor of the stack, "),
            Piece::Long(floor),
            Piece::Text(place),
        ],
    )
}

/// Appends how a run ended, and after how many steps.
fn add_ending(text: &mut Vec<u8>, ending: Ending) -> Result<(), NoMemory> {
    add(text, "end: ")?;
    add_stop(text, ending.stop)?;
    add_line(
        text,
        &[
            Piece::Text(", steps "),
            Piece::Number(ending.done),
            Piece::Text("\n"),
        ],
    )
}

fn add_stop(text: &mut Vec<u8>, stop: Stop) -> Result<(), NoMemory> {
    match stop {
        Stop::Exit(code) => add_line(text, &[Piece::Text("exit "), Piece::Number(code)]),
        Stop::Fault(fault) => add_fault(text, fault),
        Stop::Limit => add(text, "the step limit"),
        Stop::ReadFault => add(text, "the input failed"),
        Stop::OutFault => add(text, "the output failed"),
        Stop::TraceFault => add(text, "the trace failed"),
    }
}

fn add_fault(text: &mut Vec<u8>, fault: Fault) -> Result<(), NoMemory> {
    add_line(
        text,
        &[
            Piece::Text("fault "),
            Piece::Text(fault_name(fault.kind)),
            Piece::Text(" at "),
            Piece::Long(fault.pc),
            Piece::Text(", told "),
            Piece::Long(fault.detail),
            Piece::Text(" "),
            Piece::Long(fault.also),
        ],
    )
}
