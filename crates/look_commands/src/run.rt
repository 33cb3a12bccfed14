// A run by single steps.
ghost use Rattle.std.specs.Prelude.{◌≡◌, ◌+◌, ◌<◌};
ghost use Rattle.std.specs.Int.{from_bool};
ghost use Rattle.switch_frame.specs.Records.{isa_of};
ghost use Rattle.dev_rack.specs.Accounts.{Accounts};
ghost use Rattle.toolbox.specs.Blames.{counts};
ghost use Rattle.toolbox.specs.CallsClauses.{outside as outside_of};
ghost use Rattle.mixed_machine.specs.CountsClauses.{Blames};
ghost use Rattle.mixed_machine.specs.Machine.{IsWhole};
ghost use Rattle.mixed_machine.specs.OutsideClauses.{at};
ghost use Rattle.mix_io.specs.StreamsClauses.{output};
ghost use Rattle.look_commands.specs.inner.Counted.{ends as ends_at, is_done as is_done_at};
ghost use Rattle.look_commands.specs.Runs.{RanSteps};

use dev_rack::Devices;
use look_report::{Ending, History, step_at};
use mix_engine::{Machine, Stop, run};
use mix_io::{Sink, Source};

/// Runs at most `steps` steps, and tells each that is done to the history. The lines of calls, returns and asks
/// go to the trace, as in any run.
///
/// The machine, the output and the trace are those of one run of at most so many steps.
pub fn run_keeping<I: Source, O: Sink, T: Sink, D: Devices>(
    machine: &mut Machine,
    history: &mut History,
    input: &mut I,
    out: &mut O,
    trace: &mut T,
    rack: &mut D,
    steps: u32,
) -> Ending
    requires { IsWhole machine.old.body (isa_of machine.old.active) }
    ensures whole { IsWhole machine.new.body (isa_of machine.new.active) }
    ensures run { RanSteps steps result.done
        (at machine.old.body machine.old.active (outside_of (I.left input.old) (I.faults input.old) (D.state rack.old) (O.held out.old) (O.faults out.old)) (output (T.held trace.old) (T.faults trace.old)))
        (at machine.new.body machine.new.active (outside_of (I.left input.new) (I.faults input.new) (D.state rack.new) (O.held out.new) (O.faults out.new)) (output (T.held trace.new) (T.faults trace.new))) result.stop }
    ensures blames { Blames result.stop (counts (I.faults input.old) (O.faults out.old) (T.faults trace.old)) (counts (I.faults input.new) (O.faults out.new) (T.faults trace.new)) }
    ensures devices { Accounts (D.state rack.old) (D.state rack.new) }
{
    'steps: for done in 0..steps {
        let step = step_at(machine);
        let sp = machine.active.sp();
        let stop = run(machine, input, out, trace, rack, 1);
        if is_done(stop) {
            history.follow(step, done + 1, sp, next_of(machine, stop));
        }
        if ends(stop) {
            return ended(stop, done);
        }
    }
    Ending {
        stop: Stop::Limit,
        done: steps,
    }
}

/// Where a program goes on behind a step that is done, unless that ended it.
fn next_of(machine: &Machine, stop: Stop) -> Option<u32> {
    match stop {
        Stop::Exit(_) => None,
        _ => Some(machine.active.pc()),
    }
}

/// Whether a run of one step ends what runs on by such steps.
fn ends(stop: Stop) -> bool
    ensures { result ≡ ends_at stop }
{
    match stop {
        Stop::Limit => false,
        _ => true,
    }
}

/// The ending of a run that stopped at the step after so many.
fn ended(stop: Stop, before: u32) -> Ending
    requires { before < 4294967295 }
    ensures stop { result.stop ≡ stop }
    ensures done { result.done ≡ before + from_bool (is_done_at stop) }
{
    let done = before + u32::from(is_done(stop));
    Ending { stop, done }
}

/// Whether the step is done at which a run stopped.
fn is_done(stop: Stop) -> bool
    ensures { result ≡ is_done_at stop }
{
    match stop {
        Stop::Limit | Stop::Exit(_) | Stop::TraceFault => true,
        _ => false,
    }
}
