// What stands around a machine: an empty input, outputs without room, and no device.
use dev_rack::Rack;
use mix_debug::{Debug, Step};
use mix_io::{MemSink, MemSource};
use std::alloc::Global;
use std::process::Abort;

#[derive(Drop)]
pub struct Around {
    input: MemSource,
    out: MemSink,
    trace: MemSink,
    rack: Rack,
}

impl Around {
    pub fn new(rt: &impl Abort, alloc: Global) -> Around {
        Around {
            input: MemSource::new(Vec::new(alloc), Vec::new(alloc)),
            out: sink(rt, alloc),
            trace: sink(rt, alloc),
            rack: Rack::new(alloc, Vec::new(alloc)).expect(rt, "no rack"),
        }
    }

    /// A step of the debugger forward.
    pub fn step(&mut self, debug: &mut Debug) -> Step {
        debug.forward(
            &mut self.input,
            &mut self.out,
            &mut self.trace,
            &mut self.rack,
        )
    }
}

/// An output without room.
fn sink(rt: &impl Abort, alloc: Global) -> MemSink {
    MemSink::new(alloc, 0, Vec::new(alloc)).expect(rt, "no output")
}
