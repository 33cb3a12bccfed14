// What no clause says: that the calls succeed with ample memory, and that an ejected device is dropped.
ghost use Rattle.std.specs.Prelude.{None};

use crate::checks::{same, vector};
use crate::equal::must;
use dev_rack::{Answer, Asked, Devices, Rack};
use mix_io::{Counter, Device, Failed, ScriptDevice};
use std::alloc::Global;
use std::cell::Cell;
use std::process::Abort;
use std::rc::Rc;

/// What is done with a slot, and what comes of it.
#[derive(Clone, Copy)]
enum Step {
    /// Its device is asked a word, and this is the answer.
    Ask(u32, u32, Answer),
    /// It held a device that is ejected, or none.
    Eject(u32, bool),
}

/// Asks and ejects as the layers above do, which know the trait alone.
fn take_steps<D: Devices>(rt: &impl Abort, devices: &mut D, steps: &[Step]) {
    for step in steps {
        match *step {
            Step::Ask(slot, word, answer) => {
                let asked = (slot, word, devices.ask(slot, word));
                same(rt, asked, (slot, word, answer));
            }
            Step::Eject(slot, held) => {
                same(rt, (slot, devices.eject(slot)), (slot, held));
            }
        }
    }
}

/// After these steps the journal holds these asks, each with the answer of a device.
fn check_rack<D: Devices>(rt: &impl Abort, devices: &mut D, steps: &[Step], journal: &[Asked]) {
    take_steps(rt, devices, steps);
    same(rt, devices.journal(), journal);
}

/// A device with these answers.
pub fn script(rt: &impl Abort, alloc: Global, answers: &[Option<u32>]) -> Box<ScriptDevice> {
    let answers = vector(rt, alloc, answers);
    let script = ScriptDevice::new(alloc, answers).expect(rt, "no script");
    Box::new(alloc, script).expect(rt, "no device")
}

pub fn counter(rt: &impl Abort, alloc: Global) -> Box<Counter> {
    let counter = Counter::new(alloc).expect(rt, "no counter");
    Box::new(alloc, counter).expect(rt, "no device")
}

/// A rack with these devices.
fn rack_of(rt: &impl Abort, alloc: Global, devices: Vec<Box<dyn Device>>) -> Rack {
    must(rt, devices.len() <= 8);
    Rack::new(alloc, devices).expect(rt, "no rack")
}

/// A rack with one device.
fn rack_with(rt: &impl Abort, alloc: Global, device: Box<dyn Device>) -> Rack {
    let devices = vec![in alloc; device].expect(rt, "no devices");
    rack_of(rt, alloc, devices)
}

/// A script that fails between two answers, and a counter.
const SCRIPT_AND_COUNTER: [Step; 11] = [
    Step::Ask(0, 5, Answer::Word(9)),
    Step::Ask(1, 0xffff_ffff, Answer::Word(0xffff_ffff)),
    Step::Ask(0, 6, Answer::Failed),
    Step::Ask(1, 3, Answer::Word(2)),
    Step::Ask(2, 1, Answer::Empty),
    Step::Ask(0, 7, Answer::Word(8)),
    Step::Eject(0, true),
    Step::Eject(0, false),
    Step::Eject(2, false),
    Step::Ask(0, 5, Answer::Empty),
    Step::Ask(1, 4, Answer::Word(6)),
];

const SCRIPT_AND_COUNTER_JOURNAL: [Asked; 6] = [
    Asked {
        slot: 0,
        word: 5,
        answer: Some(9),
    },
    Asked {
        slot: 1,
        word: 0xffff_ffff,
        answer: Some(0xffff_ffff),
    },
    Asked {
        slot: 0,
        word: 6,
        answer: None,
    },
    Asked {
        slot: 1,
        word: 3,
        answer: Some(2),
    },
    Asked {
        slot: 0,
        word: 7,
        answer: Some(8),
    },
    Asked {
        slot: 1,
        word: 4,
        answer: Some(6),
    },
];

#[test]
fn a_device_that_fails_between_answers(rt: HostRuntime) {
    let alloc = rt.alloc();
    let script: Box<dyn Device> = script(&rt, alloc, &[Some(9), None, Some(8)]);
    let counter: Box<dyn Device> = counter(&rt, alloc);
    let devices = vec![in alloc; script, counter].expect(&rt, "no devices");
    let mut rack = rack_of(&rt, alloc, devices);
    check_rack(
        &rt,
        &mut rack,
        &SCRIPT_AND_COUNTER,
        &SCRIPT_AND_COUNTER_JOURNAL,
    );
}

const LAST_SLOT: [Step; 5] = [
    Step::Ask(7, 2, Answer::Word(2)),
    Step::Ask(8, 2, Answer::Empty),
    Step::Ask(0xffff_ffff, 2, Answer::Empty),
    Step::Eject(8, false),
    Step::Eject(7, true),
];

const LAST_SLOT_JOURNAL: [Asked; 1] = [Asked {
    slot: 7,
    word: 2,
    answer: Some(2),
}];

#[test]
fn the_last_of_eight_slots(rt: HostRuntime) {
    let alloc = rt.alloc();
    let mut devices: Vec<Box<dyn Device>> = Vec::new(alloc);
    for _ in 0..8 {
        devices
            .push(counter(&rt, alloc))
            .expect(&rt, "no room for a counter");
    }
    must(&rt, devices.len() == 8);
    let mut rack = rack_of(&rt, alloc, devices);
    check_rack(&rt, &mut rack, &LAST_SLOT, &LAST_SLOT_JOURNAL);
}

#[test]
fn the_4097th_ask_finds_the_journal_full(rt: HostRuntime) {
    let counter = counter(&rt, rt.alloc());
    fill_journal(&rt, &mut rack_with(&rt, rt.alloc(), counter));
}

const FULL_JOURNAL: [Step; 4] = [
    Step::Ask(0, 1, Answer::Full),
    Step::Ask(1, 1, Answer::Empty),
    Step::Eject(0, true),
    Step::Ask(0, 1, Answer::Empty),
];

/// A counter is asked as often as the journal has room for, and once more.
fn fill_journal<D: Devices>(rt: &impl Abort, rack: &mut D) {
    for total in 1..4097 {
        take_steps(rt, rack, &[Step::Ask(0, 1, Answer::Word(total))]);
    }
    take_steps(rt, rack, &FULL_JOURNAL);
    same(rt, rack.journal().len(), 4096);
}

/// Raises a flag when it is dropped.
struct Flagged {
    is_dropped: Rc<Cell<bool>>,
}

impl Drop for Flagged {
    fn drop(self) {
        self.is_dropped.set(true);
        let Flagged { is_dropped: _ } = self;
    }
}

impl Device for Flagged {
    ghost told = { λ _. None };

    ghost faults = { λ _. 0 };

    fn ask(&mut self, word: u32) -> Result<u32, Failed> {
        Ok(word)
    }
}

#[test]
fn an_ejected_device_is_dropped_at_once(rt: HostRuntime) {
    let alloc = rt.alloc();
    let flag = Rc::new(alloc, Cell::new(false)).expect(&rt, "no flag");
    let device = device_with(&rt, alloc, &flag);
    eject_flagged(&rt, &mut rack_with(&rt, alloc, device), &flag);
}

/// A device that raises this flag.
fn device_with(rt: &impl Abort, alloc: Global, flag: &Rc<Cell<bool>>) -> Box<Flagged> {
    let is_dropped = flag.clone().expect(rt, "no share of the flag");
    Box::new(alloc, Flagged { is_dropped }).expect(rt, "no device")
}

/// The flag is raised by the eject, and not before it.
fn eject_flagged<D: Devices>(rt: &impl Abort, rack: &mut D, flag: &Cell<bool>) {
    take_steps(rt, rack, &[Step::Ask(0, 4, Answer::Word(4))]);
    same(rt, flag.get(), false);
    take_steps(rt, rack, &[Step::Eject(0, true)]);
    same(rt, flag.get(), true);
    take_steps(rt, rack, &[Step::Ask(0, 4, Answer::Empty)]);
}
