// One step, for the first time or again.
ghost use Rattle.std.specs.Prelude.{◌≡◌, ◌≤◌, drop, length};
ghost use Rattle.mix_io.specs.StreamsClauses.{output};
ghost use Rattle.mix_engine.specs.Ends.{goes_on};
ghost use Rattle.gdb_steps.specs.inner.Steps.{Steps, stands};

use crate::input::Rest;
use dev_rack::Devices;
use mix_debug::Debug;
use mix_engine::{Outside, Stop};
use mix_io::Sink;

/// Where a step came to.
#[derive(Clone, Copy)]
pub struct Once {
    /// Whether the program goes on.
    pub on: bool,
    /// How many bytes of the input are taken then.
    pub taken: usize,
}

/// Does a step, where so many bytes of the input are taken. How it stopped stands in the cell, which holds `Limit` before.
#[inline(always)]
pub fn step_once<O: Sink, T: Sink, D: Devices>(
    debug: &mut Debug,
    rack: &mut D,
    input: &[u8],
    taken: usize,
    out: &mut O,
    trace: &mut T,
    stop: &mut Stop,
) -> Once
    requires fits { taken ≤ length input.now }
    requires cell { stop.old ≡ Stop.Limit }
    ensures step { Steps debug.old debug.new
        (stands debug.old (drop taken input.now) (D.state rack.old) (output (O.held out.old) (O.faults out.old)) (output (T.held trace.old) (T.faults trace.old)))
        (stands debug.new (drop result.taken input.now) (D.state rack.new) (output (O.held out.new) (O.faults out.new)) (output (T.held trace.new) (T.faults trace.new))) stop.new }
    ensures answer { result.on ≡ goes_on stop.new }
    ensures fits { result.taken ≤ length input.now }
{
    let _whole = debug.machine();
    let (_, left) = input.split_at(taken);
    let mut rest = Rest { bytes: left };
    let mut outside = Outside {
        input: &mut rest,
        out,
        trace,
        rack,
    };
    let on = debug.forward_beside(&mut outside, stop);
    Once {
        on,
        taken: input.len() - outside.input.bytes.len(),
    }
}
