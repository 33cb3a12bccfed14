// gdb's walks as those of a walker, and how they end.
ghost use Rattle.std.specs.Prelude.{◌≡◌, min};
ghost use Rattle.look_gdb.specs.Halts.{halt_of, is_cut, is_end, spent, steps_of, until_of};

use gdb_answers::Reason;
use gdb_session::Halt;
use gdb_steps::{Halt as Came, Until};
use gdb_talk::Goal;
use mix_engine::Stop;

/// Where a walk ends beside the places at which every walk does.
pub fn until_for(goal: Goal) -> Until
    ensures { result ≡ until_of goal }
{
    match goal {
        Goal::Stop | Goal::Step => Until::Stopped,
        Goal::StepOf(set) => Until::Active(set),
    }
}

/// How many steps a walk has at most.
pub fn steps_for(goal: Goal, budget: u32) -> u32
    ensures { result ≡ steps_of goal budget }
{
    match goal {
        Goal::Stop | Goal::StepOf(_) => budget,
        Goal::Step => 1,
    }
}

/// The lesser one of a count of steps and of what a walk has at most.
pub fn lesser(count: u64, budget: u32) -> u32
    ensures { result ≡ min count budget }
{
    if count < u64::from(budget) {
        count as u32
    } else {
        budget
    }
}

/// How the end of a walk is told.
pub fn halt_for(goal: Goal, came: Came) -> Halt
    ensures { result ≡ halt_of goal came }
{
    match came {
        Came::Breakpoint => Halt::Stopped(Reason::Breakpoint),
        Came::Watched(address) => Halt::Stopped(Reason::Changed(address)),
        Came::Arrived => Halt::Stopped(Reason::Stepped),
        Came::Spent => Halt::Stopped(spent_for(goal)),
        Came::Beginning => Halt::Stopped(Reason::Begins),
        Came::End(Stop::Exit(code)) => Halt::Exit(code),
        Came::End(Stop::Fault(fault)) => Halt::Stopped(Reason::Faults(fault)),
        Came::End(_) => Halt::Stopped(Reason::Interrupted),
        Came::Strayed => Halt::Stopped(Reason::Interrupted),
    }
}

fn spent_for(goal: Goal) -> Reason
    ensures { result ≡ spent goal }
{
    match goal {
        Goal::Step => Reason::Stepped,
        _ => Reason::Interrupted,
    }
}

/// Whether a walk came to the end of the program.
pub fn does_end(came: Came) -> bool
    ensures { result ≡ is_end came }
{
    match came {
        Came::End(Stop::Exit(_) | Stop::Fault(_)) => true,
        _ => false,
    }
}

/// Whether the output or the trace of a walk failed, which they do only for want of memory.
pub fn was_cut(came: Came) -> bool
    ensures { result ≡ is_cut came }
{
    match came {
        Came::End(_) => !does_end(came),
        _ => false,
    }
}
