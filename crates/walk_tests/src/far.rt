// Far back in a run that is longer than the steps that can be taken back.
ghost use Rattle.std.specs.Prelude.{◌≤◌};
ghost use Rattle.gdb_steps.specs.Walkers.{IsFresh};

use crate::walks::{sink, walker_of};
use dev_rack::{Devices, Rack};
use gdb_steps::{Halt, Until};
use mix_engine::Stop;
use mix_io::{Counter, Device};
use std::alloc::Global;
use std::process::Abort;

/// 68K code that takes a byte and puts it, asks the device in slot 0 with 5, stores 5 at $10104 by its eighth step, and then
/// stores a count from 10000 down to 1 at $10102, by the first of each three steps. It exits with 7: 30010 steps, and the exit.
const CODE: [u8; 46] = [
    0xAA, 0x81, 0xAA, 0x80, 0x70, 0x00, 0x72, 0x05, 0xAA, 0x83, 0x70, 0x00, 0xAA, 0x84, 0x33, 0xFC,
    0x00, 0x05, 0x00, 0x01, 0x01, 0x04, 0x20, 0x3C, 0x00, 0x00, 0x27, 0x10, 0x33, 0xC0, 0x00, 0x01,
    0x01, 0x02, 0x53, 0x80, 0x66, 0xF6, 0x70, 0x07, 0xAA, 0x85, 0x00, 0x00, 0x00, 0x00,
];

/// How many steps the program has.
const STEPS: u64 = 30_010;

/// More steps than any walk here needs.
const MANY: u32 = 1_000_000;

#[test]
fn a_long_run_goes_back_to_its_first_step(rt: HostRuntime) {
    let alloc = rt.alloc();
    let counter: Box<dyn Device> = Box::new(
        alloc,
        Counter::new(alloc).expect(&rt, "no counter"),
    ).expect(&rt, "no box");
    let devices = vec![in alloc; counter].expect(&rt, "no devices");
    let rack = Rack::new(alloc, devices).expect(&rt, "no rack");
    walk_out_and_far_back(&rt, alloc, rack, 1);
}

/// Walks to the end and back, three times.
fn walk_out_and_far_back<D: Devices + Drop>(rt: &impl Abort, alloc: Global, rack: D, slots: usize)
    requires few { slots ≤ 8 }
    requires fresh { IsFresh slots (D.state rack) }
{
    let mut walker = walker_of(rt, alloc, &CODE, rack, slots);
    let mut out = sink(rt, alloc, 8);
    let mut trace = sink(rt, alloc, 256);
    let end = Halt::End(Stop::Exit(7));
    for _ in 0..3 {
        let halt = walker.forward(Until::Stopped, MANY, &mut out, &mut trace);
        assert_eq!(rt; halt, end);
        assert_eq!(rt; walker.steps(), STEPS);
        assert!(rt; out.held() == b"A".as_slice());
        assert!(rt; trace.held() == b"ask 0 00000005 00000005\n".as_slice());
        assert_eq!(rt; walker.journal().len(), 1);
        assert_eq!(rt;
            walker.back(Until::Stopped, u64::from(MANY)),
            Ok(Halt::Beginning)
        );
        assert_eq!(rt; walker.steps(), 0);
        assert_eq!(rt; walker.machine().active.pc(), 0x10000);
        assert_eq!(rt; walker.furthest(), STEPS);
    }
}

#[test]
fn a_walk_far_back_stops(rt: HostRuntime) {
    let alloc = rt.alloc();
    let rack = Rack::new(alloc, Vec::new(alloc)).expect(&rt, "no rack");
    walk_far_back_to_stops(&rt, alloc, rack, 0);
}

/// Walks to places at which it is stopped.
fn walk_far_back_to_stops<D: Devices + Drop>(rt: &impl Abort, alloc: Global, rack: D, slots: usize)
    requires few { slots ≤ 8 }
    requires fresh { IsFresh slots (D.state rack) }
{
    let mut walker = walker_of(rt, alloc, &CODE, rack, slots);
    let mut out = sink(rt, alloc, 8);
    let mut trace = sink(rt, alloc, 256);
    let _end = walker.forward(Until::Stopped, MANY, &mut out, &mut trace);
    assert!(rt; walker.set_watch(0x10104, 2));
    assert_eq!(rt;
        walker.back(Until::Stopped, u64::from(MANY)),
        Ok(Halt::Watched(0x10104))
    );
    assert_eq!(rt; walker.steps(), 7);
    assert_eq!(rt; walker.machine().active.pc(), 0x1000E);
    let again = walker.forward(Until::Stopped, MANY, &mut out, &mut trace);
    assert_eq!(rt; again, Halt::Watched(0x10104));
    assert_eq!(rt; walker.steps(), 8);
    let end = walker.forward(Until::Stopped, MANY, &mut out, &mut trace);
    assert_eq!(rt; end, Halt::End(Stop::Exit(7)));
    assert!(rt; walker.set_break(0x10016));
    assert_eq!(rt;
        walker.back(Until::Stopped, u64::from(MANY)),
        Ok(Halt::Breakpoint)
    );
    assert_eq!(rt; walker.steps(), 8);
    assert!(rt; out.held() == b"A".as_slice());
}

#[test]
fn each_place_far_back_is_that_of_the_run(rt: HostRuntime) {
    let alloc = rt.alloc();
    let rack = Rack::new(alloc, Vec::new(alloc)).expect(&rt, "no rack");
    walk_far_back_by_steps(&rt, alloc, rack, 0);
}

/// Goes back by so many steps.
fn walk_far_back_by_steps<D: Devices + Drop>(rt: &impl Abort, alloc: Global, rack: D, slots: usize)
    requires few { slots ≤ 8 }
    requires fresh { IsFresh slots (D.state rack) }
{
    let mut walker = walker_of(rt, alloc, &CODE, rack, slots);
    let mut out = sink(rt, alloc, 8);
    let mut trace = sink(rt, alloc, 256);
    let _end = walker.forward(Until::Stopped, MANY, &mut out, &mut trace);
    assert_eq!(rt; walker.back(Until::Stopped, 20_002), Ok(Halt::Spent));
    assert_eq!(rt; walker.steps(), 10_008);
    assert_eq!(rt; walker.machine().active.pc(), 0x1001C);
    assert_eq!(rt; walker.back(Until::Stopped, 1), Ok(Halt::Spent));
    assert_eq!(rt; walker.machine().active.pc(), 0x10024);
    assert_eq!(rt; walker.back(Until::Stopped, 9_998), Ok(Halt::Spent));
    assert_eq!(rt; walker.steps(), 9);
    assert_eq!(rt; walker.back(Until::Stopped, 9), Ok(Halt::Spent));
    assert_eq!(rt; walker.back(Until::Stopped, 1), Ok(Halt::Beginning));
    assert!(rt; walker.set_watch(0x10102, 2));
    for turn in 0..4 {
        let halt = walker.forward(Until::Stopped, MANY, &mut out, &mut trace);
        assert_eq!(rt; halt, Halt::Watched(0x10102));
        assert_eq!(rt; walker.steps(), 10 + 3 * turn);
    }
    assert!(rt; out.held() == b"A".as_slice());
}
