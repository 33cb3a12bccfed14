// A machine that walks forward and back with its input, its output and its devices.
ghost use Rattle.std.specs.Prelude.{◌≤◌, vec_len};
ghost use Rattle.gdb_steps.specs.Walkers.{IsFresh};
ghost use Rattle.switch_frame.specs.ProgramClauses.{IsProgram};

use dev_rack::{Devices, Rack};
use gdb_steps::{Halt, Until, Walker};
use mix_bits::Isa;
use mix_engine::{Machine, Stop};
use mix_io::{Counter, Device, MemSink};
use mix_load::{FileBytes, Files, load};
use std::alloc::Global;
use std::process::Abort;
use switch_frame::Program;

/// 68K code that takes a byte and puts it, stores it at $10100, asks the device in slot 0 with 5, gives it up, and exits
/// with 7: nine steps, and the exit.
const CODE: [u8; 26] = [
    0xAA, 0x81, 0xAA, 0x80, 0x33, 0xC0, 0x00, 0x01, 0x01, 0x00, 0x70, 0x00, 0x72, 0x05, 0xAA, 0x83,
    0x70, 0x00, 0xAA, 0x84, 0x70, 0x07, 0xAA, 0x85, 0x00, 0x00,
];

#[test]
fn what_lies_outside_goes_back_too(rt: HostRuntime) {
    let alloc = rt.alloc();
    let counter: Box<dyn Device> = Box::new(
        alloc,
        Counter::new(alloc).expect(&rt, "no counter"),
    ).expect(&rt, "no box");
    let devices = vec![in alloc; counter].expect(&rt, "no devices");
    let rack = Rack::new(alloc, devices).expect(&rt, "no rack");
    walk_out_and_back(&rt, alloc, rack, 1);
}

/// Walks to the end and back, three times.
fn walk_out_and_back<D: Devices + Drop>(rt: &impl Abort, alloc: Global, rack: D, slots: usize)
    requires few { slots ≤ 8 }
    requires fresh { IsFresh slots (D.state rack) }
{
    let mut walker = walker(rt, alloc, rack, slots);
    let mut out = sink(rt, alloc, 8);
    let mut trace = sink(rt, alloc, 256);
    let end = Halt::End(Stop::Exit(7));
    for _ in 0..3 {
        let halt = walker.forward(Until::Stopped, 100, &mut out, &mut trace);
        assert_eq!(rt; halt, end);
        assert_eq!(rt; walker.steps(), 9);
        assert!(rt; out.held() == b"A".as_slice());
        assert!(rt; trace.held() == b"ask 0 00000005 00000005\n".as_slice());
        assert_eq!(rt; walker.journal().len(), 1);
        assert_eq!(rt; walker.back(Until::Stopped, 100), Ok(Halt::Beginning));
        assert_eq!(rt; walker.steps(), 0);
        assert_eq!(rt; walker.furthest(), 9);
    }
}

#[test]
fn a_walk_stops_both_ways(rt: HostRuntime) {
    let alloc = rt.alloc();
    let rack = Rack::new(alloc, Vec::new(alloc)).expect(&rt, "no rack");
    walk_to_stops(&rt, alloc, rack, 0);
}

/// Walks to places at which it is stopped.
fn walk_to_stops<D: Devices + Drop>(rt: &impl Abort, alloc: Global, rack: D, slots: usize)
    requires few { slots ≤ 8 }
    requires fresh { IsFresh slots (D.state rack) }
{
    let mut walker = walker(rt, alloc, rack, slots);
    let mut out = sink(rt, alloc, 8);
    let mut trace = sink(rt, alloc, 256);
    assert!(rt; walker.set_break(0x10004));
    assert!(rt; walker.set_watch(0x10100, 2));
    let first = walker.forward(Until::Stopped, 100, &mut out, &mut trace);
    assert_eq!(rt; first, Halt::Breakpoint);
    assert_eq!(rt; walker.steps(), 2);
    let second = walker.forward(Until::Stopped, 100, &mut out, &mut trace);
    assert_eq!(rt; second, Halt::Watched(0x10100));
    assert_eq!(rt; walker.steps(), 3);
    assert!(rt; walker.clear_break(0x10004));
    assert_eq!(rt;
        walker.back(Until::Stopped, 100),
        Ok(Halt::Watched(0x10100))
    );
    assert_eq!(rt; walker.steps(), 2);
    assert!(rt; walker.clear_watch(0x10100, 2));
    let one = walker.forward(Until::Active(Isa::M68), 100, &mut out, &mut trace);
    assert_eq!(rt; one, Halt::Arrived);
    assert_eq!(rt; walker.steps(), 3);
    let spent = walker.forward(Until::Active(Isa::Ppc), 2, &mut out, &mut trace);
    assert_eq!(rt; spent, Halt::Spent);
    assert_eq!(rt; walker.steps(), 5);
}

#[test]
fn a_full_sink_ends_no_program(rt: HostRuntime) {
    let alloc = rt.alloc();
    let rack = Rack::new(alloc, Vec::new(alloc)).expect(&rt, "no rack");
    walk_past_full_sinks(&rt, alloc, rack, 0);
}

/// Walks on where a sink had no room.
fn walk_past_full_sinks<D: Devices + Drop>(rt: &impl Abort, alloc: Global, rack: D, slots: usize)
    requires few { slots ≤ 8 }
    requires fresh { IsFresh slots (D.state rack) }
{
    let mut walker = walker(rt, alloc, rack, slots);
    let mut full = sink(rt, alloc, 0);
    let mut out = sink(rt, alloc, 8);
    let mut trace = sink(rt, alloc, 256);
    let unsaid = walker.forward(Until::Stopped, 100, &mut full, &mut trace);
    assert_eq!(rt; unsaid, Halt::End(Stop::OutFault));
    assert_eq!(rt; walker.steps(), 1);
    let untraced = walker.forward(Until::Stopped, 100, &mut out, &mut full);
    assert_eq!(rt; untraced, Halt::End(Stop::TraceFault));
    assert_eq!(rt; walker.steps(), 6);
    let end = walker.forward(Until::Stopped, 100, &mut out, &mut trace);
    assert_eq!(rt; end, Halt::End(Stop::Exit(7)));
    assert!(rt; out.held() == b"A".as_slice());
    assert!(rt; trace.held().is_empty());
}

#[test]
fn what_is_seen_is_where_the_walk_stands(rt: HostRuntime) {
    let alloc = rt.alloc();
    let rack = Rack::new(alloc, Vec::new(alloc)).expect(&rt, "no rack");
    walk_and_look(&rt, alloc, rack, 0);
}

/// Looks at the machine on the way.
fn walk_and_look<D: Devices + Drop>(rt: &impl Abort, alloc: Global, rack: D, slots: usize)
    requires few { slots ≤ 8 }
    requires fresh { IsFresh slots (D.state rack) }
{
    let mut walker = walker(rt, alloc, rack, slots);
    let mut out = sink(rt, alloc, 8);
    let mut trace = sink(rt, alloc, 256);
    assert_eq!(rt; walker.machine().active.pc(), 0x10000);
    let _end = walker.forward(Until::Stopped, 100, &mut out, &mut trace);
    assert_eq!(rt; walker.machine().active.pc(), 0x10016);
    assert_eq!(rt; walker.debug().kept(), 9);
    assert_eq!(rt; walker.back(Until::Stopped, 4), Ok(Halt::Spent));
    assert_eq!(rt; walker.machine().active.pc(), 0x1000E);
    assert_eq!(rt; walker.debug().kept(), 5);
}

#[test]
fn places_to_stop_at_are_told_apart(rt: HostRuntime) {
    let alloc = rt.alloc();
    let rack = Rack::new(alloc, Vec::new(alloc)).expect(&rt, "no rack");
    set_and_clear(&rt, alloc, rack, 0);
}

/// Sets and clears places to stop at.
fn set_and_clear<D: Devices + Drop>(rt: &impl Abort, alloc: Global, rack: D, slots: usize)
    requires few { slots ≤ 8 }
    requires fresh { IsFresh slots (D.state rack) }
{
    let mut walker = walker(rt, alloc, rack, slots);
    assert!(rt; walker.set_break(0x10004));
    assert!(rt; !walker.set_break(0x10004));
    assert!(rt; walker.set_break(0x10804));
    assert!(rt; walker.clear_break(0x10004));
    assert!(rt; !walker.clear_break(0x10004));
    assert!(rt; !walker.set_watch(0x10100, 0));
    assert!(rt; !walker.set_watch(0x10100, 65));
    assert!(rt; walker.set_watch(0x10100, 64));
    assert!(rt; !walker.set_watch(0x10100, 64));
    assert!(rt; !walker.clear_watch(0x10100, 2));
    assert!(rt; walker.clear_watch(0x10100, 64));
}

/// A walker before the first step of the code, with devices in so many slots.
fn walker<D: Devices + Drop>(rt: &impl Abort, alloc: Global, rack: D, slots: usize) -> Walker<D>
    requires few { slots ≤ 8 }
    requires fresh { IsFresh slots (D.state rack) }
{
    walker_of(rt, alloc, &CODE, rack, slots)
}

/// A walker before the first step of other code.
pub fn walker_of<D: Devices + Drop>(
    rt: &impl Abort,
    alloc: Global,
    code: &[u8],
    rack: D,
    slots: usize,
) -> Walker<D>
    requires few { slots ≤ 8 }
    requires fresh { IsFresh slots (D.state rack) }
{
    let Ok(machine) = Machine::start(alloc, program(rt, alloc, code)) else {
        panic!(rt; "no machine")
    };
    let input = b"A".to_vec(alloc).expect(rt, "no input");
    Walker::new(alloc, machine, input, rack, slots, 31).expect(rt, "no walker")
}

/// The program of the code, in 128 KiB of RAM.
fn program(rt: &impl Abort, alloc: Global, code: &[u8]) -> Program
    ensures { IsProgram result }
{
    let files = Files {
        flat: Some(FileBytes::of(image(rt, alloc, code))),
        rsrc: None,
        pef: None,
    };
    let Ok(program) = load(alloc, &files, Isa::M68, 128) else {
        panic!(rt; "no program")
    };
    program
}

/// The code, and room behind it.
fn image(rt: &impl Abort, alloc: Global, code: &[u8]) -> Vec<u8>
    ensures { vec_len result ≤ 16777216 }
{
    let mut bytes = code.to_vec(alloc).expect(rt, "no image");
    bytes.resize(0x200, 0).expect(rt, "no room");
    bytes
}

/// An output with room for so many bytes.
pub fn sink(rt: &impl Abort, alloc: Global, room: u32) -> MemSink {
    MemSink::new(alloc, room, Vec::new(alloc)).expect(rt, "no output")
}
