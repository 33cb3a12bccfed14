// Lines of the documents, read; and texts that are no lines.
use crate::equal::equal;
use call_trace::End;
use dev_rack::Answer;
use mix_bits::{Fault, FaultKind, Isa, Size};
use std::process::Abort;
use switch_frame::Kind;
use trace_lines::{Crossing, Event, read_event};

/// The call that a line tells.
fn call(rt: &impl Abort, text: &str) -> Crossing {
    match read_event(text.as_bytes()) {
        Some(Event::Called(call)) => call,
        _ => panic!(rt; "no call: {text}"),
    }
}

#[test]
fn calls_of_the_samples(rt: HostRuntime) {
    let c = call(&rt, "call 68k ppc 00010040 00000E71 07 BEEF 00012345");
    equal(&rt, "the kind", c.kind, Kind::M68ToPpc);
    let words = (c.target, c.info, c.selector);
    equal(&rt, "the words", words, (0x1_0040, 0xE71, 0));
    equal(&rt, "how many arguments", c.count, 3);
    let arguments = [7, 0xBEEF, 0x1_2345, 0];
    equal(&rt, "the arguments", &c.args[..4], arguments.as_slice());
    let c = call(&rt, "call ppc 68k 00010020 000003C8 #00000002 ABCDEF01");
    equal(&rt, "the kind", c.kind, Kind::PpcToM68);
    let words = (c.selector, c.count, c.args[0]);
    equal(
        &rt,
        "the selector and the argument",
        words,
        (2, 1, 0xABCD_EF01),
    );
}

fn is_nothing(rt: &impl Abort, text: &str) {
    assert!(rt; read_event(text.as_bytes()).is_none(), "a line: {text}");
}

#[test]
fn texts_that_are_no_lines(rt: HostRuntime) {
    is_nothing(&rt, "");
    is_nothing(&rt, "call 68k ppc 00010040 00000E71 07 BEEF");
    is_nothing(&rt, "call 68k ppc 00010040 00000E71 07 BEEF 00012345 ");
    is_nothing(&rt, "call 68k ppc 00010040 0000000F");
    is_nothing(&rt, "call 68k ppc 0001004g 00000031");
    is_nothing(&rt, "ret 123");
    is_nothing(&rt, "exit 01");
    is_nothing(&rt, "ask 0 00000005 none");
    is_nothing(&rt, "limit ");
    is_nothing(&rt, "fault odd 68k 00000001 00000001");
}

/// A line tells of a return with this result.
fn returns(rt: &impl Abort, text: &str, size: Size, value: u32) {
    let found = match read_event(text.as_bytes()) {
        Some(Event::Returned(size, value)) => Some((size, value)),
        _ => None,
    };
    equal(rt, text, found, Some((size, value)));
}

/// A line tells of an ask: this slot, this word, and what came of it.
fn asks(rt: &impl Abort, text: &str, slot: u32, word: u32, answer: Answer) {
    let found = match read_event(text.as_bytes()) {
        Some(Event::Asked(slot, word, answer)) => Some((slot, word, answer)),
        _ => None,
    };
    equal(rt, text, found, Some((slot, word, answer)));
}

/// A line tells of this end.
fn ends(rt: &impl Abort, text: &str, end: End) {
    let found = match read_event(text.as_bytes()) {
        Some(Event::Ended(end)) => Some(end),
        _ => None,
    };
    equal(rt, text, found, Some(end));
}

#[test]
fn returns_asks_and_ends(rt: HostRuntime) {
    returns(&rt, "ret", Size::Zero, 0);
    returns(&rt, "ret 12AF6683", Size::Four, 0x12AF_6683);
    asks(&rt, "ask 10 ABCDEF01 fail", 10, 0xABCD_EF01, Answer::Failed);
    ends(&rt, "exit 313484932", End::Exit(313_484_932));
    ends(&rt, "limit", End::Limit);
    let unmatched = Fault {
        kind: FaultKind::Unmatched,
        pc: 0x1008,
        detail: 0xF_FEF6,
        also: 0xF_FEFC,
    };
    ends(
        &rt,
        "fault unmatched 68k 00001008 000FFEF6 000FFEFC",
        End::Fault(Isa::M68, unmatched),
    );
}
