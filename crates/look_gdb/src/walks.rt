// A walk forward, and what comes to the console by it.
ghost use Rattle.std.specs.Prelude.{◌≡◌, [], IfOk};
ghost use Rattle.gdb_steps.specs.Walkers.{points_of, run_of};
ghost use Rattle.look_gdb.specs.Walks.{GoesOn};

use crate::heard::Heard;
use dev_rack::Devices;
use gdb_steps::{Halt as Came, Until, Walker};
use mix_bits::NoMemory;
use std::alloc::Global;

/// How far a walk goes.
#[derive(Clone, Copy)]
pub struct Bounds {
    /// Where it ends beside the places at which every walk does.
    pub until: Until,
    /// How many steps it has at most.
    pub steps: u32,
}

/// Walks forward, and tells the output and, where that is wanted, the trace.
pub fn go_on<D: Devices + Drop>(
    alloc: Global,
    walker: &mut Walker<D>,
    bounds: Bounds,
    is_traced: bool,
    console: &mut Vec<u8>,
) -> Result<Came, NoMemory>
    requires { console.old.items ≡ [] }
    ensures goes { IfOk result (λ came. GoesOn (points_of walker.old) bounds.until bounds.steps came is_traced console.new.items (run_of walker.old) (run_of walker.new)) }
    ensures points { points_of walker.new ≡ points_of walker.old }
{
    let mut out = Heard::new(alloc, true);
    let mut trace = Heard::new(alloc, is_traced);
    let came = walker.forward(bounds.until, bounds.steps, &mut out, &mut trace);
    out.tell(console)?;
    trace.tell(console)?;
    Ok(came)
}
