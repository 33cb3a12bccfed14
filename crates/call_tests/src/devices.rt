// Asks and ejects.
use crate::bench::Step::{Call, Notes};
use crate::bench::{Bench, Step, host_with};
use crate::case::Case::{Asks, Kept, Ppc, PpcAsks};
use crate::errors::{DEVICE_FAILED, NO_ROOM, NO_SLOT};
use crate::functions::EJECT_DEVICE;
use dev_rack::{Answer, Rack};
use mix_io::{Counter, Device, ScriptDevice};
use std::alloc::Global;
use std::process::Abort;

/// A counter at 0.
fn counter(rt: &impl Abort, alloc: Global) -> Counter {
    Counter::new(alloc).expect(rt, "no counter")
}

/// A device that answers its first ask with 9, and then fails.
fn script(rt: &impl Abort, alloc: Global) -> ScriptDevice {
    let answers = vec![in alloc; Some(9), None].expect(rt, "no answers");
    ScriptDevice::new(alloc, answers).expect(rt, "no script")
}

/// A host with a counter in slot 0.
fn host_with_counter(rt: &impl Abort, alloc: Global) -> Bench<Rack> {
    let counter: Box<dyn Device> = Box::new(alloc, counter(rt, alloc)).expect(rt, "no device");
    let devices = vec![in alloc; counter].expect(rt, "no devices");
    host_with(rt, alloc, devices)
}

/// A host with a counter in slot 0, and a script in slot 1.
fn host_with_both(rt: &impl Abort, alloc: Global) -> Bench<Rack> {
    let counter: Box<dyn Device> = Box::new(alloc, counter(rt, alloc)).expect(rt, "no device");
    let script: Box<dyn Device> = Box::new(alloc, script(rt, alloc)).expect(rt, "no device");
    let devices = vec![in alloc; counter, script].expect(rt, "no devices");
    host_with(rt, alloc, devices)
}

/// Asks and ejects, and their entries in the journal.
static ASKS: &[Step] = &[
    Call(Asks([1, 2, 0, 5], Answer::Word(5), [1, 2, 0, 5])),
    Call(PpcAsks([0, 7, 9], Answer::Word(12), [0, 12, 9])),
    Call(PpcAsks([1, 7, 9], Answer::Word(9), [0, 9, 9])),
    Call(PpcAsks([1, 8, 9], Answer::Failed, [DEVICE_FAILED, 0, 9])),
    Call(Asks([1, 2, 1, 5], Answer::Failed, [1, 2, DEVICE_FAILED, 0])),
    Call(Asks([1, 2, 2, 5], Answer::Empty, [1, 2, NO_SLOT, 0])),
    Call(Ppc(EJECT_DEVICE, [2, 4, 5], [NO_SLOT, 4, 5])),
    Call(Kept(EJECT_DEVICE, [1, 2, 0, 4], [1, 2, 0, 4])),
    Call(Kept(EJECT_DEVICE, [1, 2, 0, 4], [1, 2, NO_SLOT, 4])),
    Call(PpcAsks([0, 7, 9], Answer::Empty, [NO_SLOT, 0, 9])),
    Notes(&[
        (0, 5, Some(5)),
        (0, 7, Some(12)),
        (1, 7, Some(9)),
        (1, 8, None),
        (1, 5, None),
    ]),
];

#[test]
fn devices_are_asked(rt: HostRuntime) {
    host_with_both(&rt, rt.alloc()).plays(&rt, ASKS);
}

/// Asks once the journal is full.
static LAST_ASKS: &[Step] = &[
    Call(Asks([1, 2, 0, 1], Answer::Full, [1, 2, NO_ROOM, 0])),
    Call(PpcAsks([1, 1, 5], Answer::Empty, [NO_SLOT, 0, 5])),
    Call(Ppc(EJECT_DEVICE, [0, 1, 5], [0, 1, 5])),
    Call(PpcAsks([0, 1, 5], Answer::Empty, [NO_SLOT, 0, 5])),
];

#[test]
fn the_4097th_ask_finds_no_room(rt: HostRuntime) {
    let mut host = host_with_counter(&rt, rt.alloc());
    for total in 1..4097 {
        let case = Asks([1, 2, 0, 1], Answer::Word(total), [1, 2, 0, total]);
        host.run_one(&rt, total, case);
    }
    host.plays(&rt, LAST_ASKS);
}
