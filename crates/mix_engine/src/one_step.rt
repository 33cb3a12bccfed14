// One step of a machine, without a loop.
ghost use Rattle.std.specs.Prelude.{◌≡◌};
ghost use Rattle.switch_frame.specs.Records.{isa_of};
ghost use Rattle.dev_rack.specs.Accounts.{Accounts};
ghost use Rattle.toolbox.specs.Blames.{counts};
ghost use Rattle.toolbox.specs.CallsClauses.{counts_beside, outside as outside_of};
ghost use Rattle.mixed_machine.specs.CountsClauses.{Blames};
ghost use Rattle.mixed_machine.specs.Machine.{IsWhole};
ghost use Rattle.mixed_machine.specs.OutsideClauses.{at};
ghost use Rattle.mixed_machine.specs.RunsClauses.{Runs};
ghost use Rattle.mix_engine.specs.Beside.{machine_in};
ghost use Rattle.mix_io.specs.StreamsClauses.{output};
ghost use Rattle.mix_engine.specs.Ends.{goes_on};

use super::{Outside, World, advance_once};
use crate::machine::Machine;
use dev_rack::Devices;
use mix_bits::{Fault, FaultKind};
use mix_io::{Sink, Source};
use mixed_machine::{Did, Stop};

/// Does one step, as `run` does that is allowed one.
#[inline(always)]
pub fn step<I: Source, O: Sink, T: Sink, D: Devices>(
    m: &mut Machine,
    input: &mut I,
    out: &mut O,
    trace: &mut T,
    rack: &mut D,
) -> Stop
    requires { IsWhole m.old.body (isa_of m.old.active) }
    ensures whole { IsWhole m.new.body (isa_of m.new.active) }
    ensures run { Runs 1
        (at m.old.body m.old.active (outside_of (I.left input.old) (I.faults input.old) (D.state rack.old) (O.held out.old) (O.faults out.old)) (output (T.held trace.old) (T.faults trace.old)))
        (at m.new.body m.new.active (outside_of (I.left input.new) (I.faults input.new) (D.state rack.new) (O.held out.new) (O.faults out.new)) (output (T.held trace.new) (T.faults trace.new))) result }
    ensures blames { Blames result (counts (I.faults input.old) (O.faults out.old) (T.faults trace.old)) (counts (I.faults input.new) (O.faults out.new) (T.faults trace.new)) }
    ensures devices { Accounts (D.state rack.old) (D.state rack.new) }
{
    let mut outside = Outside {
        input,
        out,
        trace,
        rack,
    };
    let mut stop = Stop::Limit;
    let _on = step_beside(m, &mut outside, &mut stop);
    stop
}

/// The same beside what lies outside: whether the program goes on. How the step stopped stands in the cell, which holds
/// `Limit` before.
#[inline(always)]
pub fn step_beside<W: World>(m: &mut Machine, world: &mut W, stop: &mut Stop) -> bool
    requires whole { IsWhole m.old.body (isa_of m.old.active) }
    requires cell { stop.old ≡ Stop.Limit }
    ensures answer { result ≡ goes_on stop.new }
    ensures whole { IsWhole m.new.body (isa_of m.new.active) }
    ensures run { Runs 1
        (machine_in m.old.body m.old.active (W.seen world.old))
        (machine_in m.new.body m.new.active (W.seen world.new)) stop.new }
    ensures blames { Blames stop.new
        (counts_beside (W.seen world.old).outside (W.seen world.old).trace)
        (counts_beside (W.seen world.new).outside (W.seen world.new).trace) }
    ensures devices { Accounts (W.seen world.old).outside.rack (W.seen world.new).outside.rack }
    ensures same { (W.seen world.new).lent ≡ (W.seen world.old).lent }
{
    let mut fault = Fault::at(0, FaultKind::Illegal, 0);
    match advance_once(&mut m.body, &mut m.active, world, &mut fault) {
        Did::Next => true,
        Did::Call => true,
        Did::Return => true,
        Did::Exit(code) => {
            *stop = Stop::Exit(code);
            false
        }
        Did::Fault => {
            *stop = Stop::Fault(fault);
            false
        }
        Did::ReadFault => {
            *stop = Stop::ReadFault;
            false
        }
        Did::OutFault => {
            *stop = Stop::OutFault;
            false
        }
        Did::TraceFault => {
            *stop = Stop::TraceFault;
            false
        }
    }
}
