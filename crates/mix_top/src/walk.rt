// Steps of a command, one after the other.
ghost use Rattle.std.specs.Prelude.{◌≡◌, ◌≤◌, length};
ghost use Rattle.toolbox.specs.Effects.{Around};
ghost use Rattle.mixed_machine.specs.Machine.{callers_of};
ghost use Rattle.mix_engine.specs.Ends.{goes_on};
ghost use Rattle.mix_engine.specs.Beside.{AreSame};
ghost use Rattle.mix_top.specs.Events.{backward, stops};
ghost use Rattle.mix_top.specs.inner.ScriptParts.{DoesOnce, GoesForward, WalksBack, ended_by, halt_in, once_in, once_of as once_by};
ghost use Rattle.mix_top.specs.Places.{Over, place_beside, sinks_in};
ghost use Rattle.mix_top.specs.Debuggers.{session_of};

use crate::sample_run;
use call_trace::End;
use dev_rack::Devices;
use mix_bits::Isa;
use mix_debug::Debug;
use mix_engine::Outside;
use mix_io::{Sink, Source};
use mixed_machine::Stop;
use toolbox::Broken;

/// Where a command ends that does up to so many steps.
#[derive(Clone, Copy)]
pub enum Until {
    /// At its count alone.
    Count,
    /// Also at an address that is set to stop at.
    Breakpoint,
    /// Also where no more than so many frames are live.
    Frames(u32),
}

/// Steps that were done or taken back, and the end of the program, where they came to it.
#[derive(Clone, Copy)]
pub struct Walked {
    pub done: u32,
    pub end: Option<End>,
}

/// What one step came to.
#[derive(Clone, Copy)]
pub enum Once {
    /// It is done.
    Went,
    /// The program ends here.
    Ended(End),
    /// The outside failed.
    Halted(Broken),
}

/// Does up to so many steps.
pub fn walk_forward<'i, 'o, 't, 'd, I: Source, O: Sink, T: Sink, D: Devices>(
    debug: &mut Debug,
    until: Until,
    count: u32,
    outside: &mut Outside<'i, 'o, 't, 'd, I, O, T, D>,
) -> Result<Walked, Broken>
    ensures walks { GoesForward until count
        (place_beside I.left I.faults O.held O.faults T.held T.faults D.state debug.old outside.old)
        (place_beside I.left I.faults O.held O.faults T.held T.faults D.state debug.new outside.new)
        result }
    ensures same { AreSame outside.old outside.new }
{
    let mut done = 0;
    let mut stop = Stop::Limit;
    'steps: while done < count {
        if !step_once(debug, outside, &mut stop) {
            return ended(debug, done, stop);
        }
        done += 1;
        if is_there(debug, until) {
            return Ok(Walked { done, end: None });
        }
    }
    Ok(Walked { done, end: None })
}

/// Does one step: whether the program goes on. How the step stopped stands in the cell, which holds `Limit` before.
#[inline(always)]
fn step_once<'i, 'o, 't, 'd, I: Source, O: Sink, T: Sink, D: Devices>(
    debug: &mut Debug,
    outside: &mut Outside<'i, 'o, 't, 'd, I, O, T, D>,
    stop: &mut Stop,
) -> bool
    requires cell { stop.old ≡ Stop.Limit }
    ensures answer { result ≡ goes_on stop.new }
    ensures step { Over (halt_in (once_in debug.new stop.new))
        (λ s t. DoesOnce (once_in debug.new stop.new) s t
        (sinks_in (place_beside I.left I.faults O.held O.faults T.held T.faults D.state debug.old outside.old))
        (sinks_in (place_beside I.left I.faults O.held O.faults T.held T.faults D.state debug.new outside.new)))
        (place_beside I.left I.faults O.held O.faults T.held T.faults D.state debug.old outside.old)
        (place_beside I.left I.faults O.held O.faults T.held T.faults D.state debug.new outside.new) }
    ensures same { AreSame outside.old outside.new }
{
    let _whole = debug.machine();
    debug.forward_beside(outside, stop)
}

/// What a walk came to, where a step behind so many ended it.
#[inline(never)]
fn ended(debug: &Debug, done: u32, stop: Stop) -> Result<Walked, Broken>
    ensures { result ≡ ended_by done (once_in debug.now stop) }
{
    match once_at(debug.machine().active.isa(), stop) {
        Once::Went => Ok(Walked { done, end: None }),
        Once::Ended(end) => Ok(Walked {
            done,
            end: Some(end),
        }),
        Once::Halted(stopped) => Err(stopped),
    }
}

/// What a step by code of a set came to, by how a run of one step stopped.
fn once_at(set: Isa, stop: Stop) -> Once
    ensures { result ≡ once_by set stop }
{
    match stop {
        Stop::Exit(code) => Once::Ended(End::Exit(code)),
        Stop::Fault(fault) => Once::Ended(End::Fault(set, fault)),
        Stop::Limit => Once::Went,
        Stop::ReadFault => Once::Halted(Broken::Input),
        Stop::OutFault => Once::Halted(Broken::Output),
        Stop::TraceFault => Once::Halted(Broken::Trace),
    }
}

/// Whether a command that ends before its count does so here.
fn is_there(debug: &Debug, until: Until) -> bool
    ensures { (around : Around) → result ≡ stops until (session_of debug.now around) }
{
    match until {
        Until::Count => false,
        Until::Breakpoint => debug.is_break(debug.machine().active.pc()),
        Until::Frames(most) => live(debug) <= most,
    }
}

/// How many frames are live.
pub fn live(debug: &Debug) -> u32
    ensures { result ≡ length (callers_of debug.now.machine.body) }
{
    sample_run::live(debug.machine())
}

/// Takes up to so many steps back.
pub fn walk_back(debug: &mut Debug, count: u32) -> Walked
    ensures { (around : Around) → WalksBack (backward count (session_of debug.old around)) result (session_of debug.old around) (session_of debug.new around) }
{
    let mut done = 0;
    'taken: while done < count {
        if !debug.back() {
            return Walked { done, end: None };
        }
        done += 1;
    }
    Walked { done, end: None }
}
