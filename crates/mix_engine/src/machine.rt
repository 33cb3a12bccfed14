// A machine, from its start on.
ghost use Rattle.std.specs.Prelude.{◌≡◌, IfOk};
ghost use Rattle.switch_frame.specs.ProgramClauses.{IsProgram};
ghost use Rattle.switch_frame.specs.Records.{isa_of};
ghost use Rattle.dev_rack.specs.Accounts.{Accounts};
ghost use Rattle.toolbox.specs.Blames.{counts};
ghost use Rattle.toolbox.specs.CallsClauses.{counts_beside, outside as outside_of};
ghost use Rattle.toolbox.specs.Effects.{Around};
ghost use Rattle.mixed_machine.specs.CountsClauses.{Blames};
ghost use Rattle.mixed_machine.specs.Machine.{IsWhole, flat};
ghost use Rattle.mixed_machine.specs.OutsideClauses.{at};
ghost use Rattle.mixed_machine.specs.RunsClauses.{Runs};
ghost use Rattle.mix_engine.specs.Beside.{machine_in};
ghost use Rattle.mix_io.specs.StreamsClauses.{output};
ghost use Rattle.mix_engine.specs.Start.{start_of};
ghost use Rattle.mix_engine.specs.Counted.{RunsTo};

use super::{Outside, World};
use crate::runs::run_turns;
use crate::turn::TurnEnd;
use dev_rack::Devices;
use host_heap::Heap;
use mix_bits::NoMemory;
use mix_io::{Sink, Source};
use mixed_machine::{Body, Stop};
use std::alloc::Global;
use switch_frame::{Active, Program};

/// The machine between two steps.
///
/// It is whole, as `start` and `run` leave it, if its frames are a chain in RAM that ends at the main
/// program, the set of its registers is that of the innermost callee, or the main program's without one,
/// the gate page is one with the program's A5, `start_sp` is that of the main program's set, and the heap lies
/// between the program and the stack.
#[derive(Drop)]
pub struct Machine {
    /// The registers of the active set.
    pub active: Active,
    /// All that the machine keeps beside them.
    pub body: Body,
}

impl Machine {
    /// The machine at the start of a program, without a suspended caller and with an empty heap.
    ///
    /// The heap takes the room for its list of blocks here; what runs the machine is passed no allocator.
    pub fn start(alloc: Global, program: Program) -> Result<Machine, NoMemory>
        requires { IsProgram program }
        ensures whole { IfOk result (λ m. IsWhole m.body (isa_of m.active)) }
        ensures state { IfOk result (λ m. (around : Around) → flat m.body m.active around ≡ start_of program around) }
    {
        let heap = Heap::new(alloc, program.heap_lo, program.heap_hi)?;
        Ok(Machine {
            active: program.active,
            body: Body {
                ram: program.ram,
                heap,
                top: 0,
                a5: program.a5,
                main: program.main,
                start_sp: program.start_sp,
            },
        })
    }
}

/// Runs at most `steps` steps, and writes the lines of calls, returns and asks, but no line of how it ended.
///
/// The machine is left as it is after the steps that were done, so it can be run on.
pub fn run<I: Source, O: Sink, T: Sink, D: Devices>(
    m: &mut Machine,
    input: &mut I,
    out: &mut O,
    trace: &mut T,
    rack: &mut D,
    steps: u32,
) -> Stop
    requires { IsWhole m.old.body (isa_of m.old.active) }
    ensures whole { IsWhole m.new.body (isa_of m.new.active) }
    ensures run { Runs steps
        (at m.old.body m.old.active (outside_of (I.left input.old) (I.faults input.old) (D.state rack.old) (O.held out.old) (O.faults out.old)) (output (T.held trace.old) (T.faults trace.old)))
        (at m.new.body m.new.active (outside_of (I.left input.new) (I.faults input.new) (D.state rack.new) (O.held out.new) (O.faults out.new)) (output (T.held trace.new) (T.faults trace.new))) result }
    ensures blames { Blames result (counts (I.faults input.old) (O.faults out.old) (T.faults trace.old)) (counts (I.faults input.new) (O.faults out.new) (T.faults trace.new)) }
    ensures devices { Accounts (D.state rack.old) (D.state rack.new) }
{
    let mut left = steps;
    run_counted(m, input, out, trace, rack, &mut left)
}

/// Does the same with the steps that are left in a cell, which each step that is done lowers: an exit is a step that is
/// done, and a fault is none.
pub fn run_counted<I: Source, O: Sink, T: Sink, D: Devices>(
    m: &mut Machine,
    input: &mut I,
    out: &mut O,
    trace: &mut T,
    rack: &mut D,
    left: &mut u32,
) -> Stop
    requires { IsWhole m.old.body (isa_of m.old.active) }
    ensures whole { IsWhole m.new.body (isa_of m.new.active) }
    ensures run { RunsTo left.old left.new
        (at m.old.body m.old.active (outside_of (I.left input.old) (I.faults input.old) (D.state rack.old) (O.held out.old) (O.faults out.old)) (output (T.held trace.old) (T.faults trace.old)))
        (at m.new.body m.new.active (outside_of (I.left input.new) (I.faults input.new) (D.state rack.new) (O.held out.new) (O.faults out.new)) (output (T.held trace.new) (T.faults trace.new))) result }
    ensures blames { Blames result (counts (I.faults input.old) (O.faults out.old) (T.faults trace.old)) (counts (I.faults input.new) (O.faults out.new) (T.faults trace.new)) }
    ensures devices { Accounts (D.state rack.old) (D.state rack.new) }
{
    let mut outside = Outside {
        input,
        out,
        trace,
        rack,
    };
    run_beside(&mut m.body, &mut m.active, &mut outside, left)
}

/// The same beside what lies outside. Each turn but the last gives up a suspended caller.
fn run_beside<W: World>(body: &mut Body, active: &mut Active, world: &mut W, left: &mut u32) -> Stop
    requires { IsWhole body.old (isa_of active.old) }
    ensures whole { IsWhole body.new (isa_of active.new) }
    ensures run { RunsTo left.old left.new
        (machine_in body.old active.old (W.seen world.old))
        (machine_in body.new active.new (W.seen world.new)) result }
    ensures blames { Blames result
        (counts_beside (W.seen world.old).outside (W.seen world.old).trace)
        (counts_beside (W.seen world.new).outside (W.seen world.new).trace) }
    ensures devices { Accounts (W.seen world.old).outside.rack (W.seen world.new).outside.rack }
    ensures same { (W.seen world.new).lent ≡ (W.seen world.old).lent }
{
    'turns: loop {
        match run_turns(body, active, world, left) {
            TurnEnd::Back => {}
            TurnEnd::Stop(stop) => return stop,
        }
    }
}
