// A talk by hand: what each of its bytes completes, and packets as gdb's manual has them.
use crate::{Decoder, Event, append_packet};
use std::alloc::Global;
use std::process::Abort;

/// The events of a stream, in order, and the data of its last packet.
fn check_talk(rt: &impl Abort, alloc: Global, talk: &[u8], events: &[Event], last: &[u8]) {
    let mut decoder = Decoder::new(alloc).expect(rt, "no decoder");
    let mut wanted = events;
    for byte in talk {
        if let Some(event) = decoder.take(*byte) {
            match wanted {
                [first, rest @ ..] => {
                    assert_eq!(rt; event, *first);
                    wanted = rest;
                }
                [] => assert!(rt; false),
            }
        }
    }
    assert!(rt; wanted.is_empty());
    assert!(rt; decoder.packet() == last);
}

#[test]
fn talks_are_read(rt: HostRuntime) {
    let alloc = rt.alloc();
    check_talk(
        &rt,
        alloc,
        b"+$g#67",
        &[Event::Acknowledged, Event::Packet],
        b"g",
    );
    check_talk(
        &rt,
        alloc,
        b"x$g#66-$?#3f",
        &[Event::BadSum, Event::Refused, Event::Packet],
        b"?",
    );
    check_talk(
        &rt,
        alloc,
        b"\x03$m10$k#6b",
        &[Event::Interrupt, Event::Packet],
        b"k",
    );
    check_talk(&rt, alloc, b"$a}\x03#E1", &[Event::Packet], b"a#");
}

#[test]
fn packets_are_put(rt: HostRuntime) {
    let mut buffer = Vec::new(rt.alloc());
    append_packet(&mut buffer, b"OK").expect(&rt, "no packet");
    append_packet(&mut buffer, b"a#").expect(&rt, "no packet");
    assert!(&rt; buffer.as_slice() == b"$OK#9a$a}\x03#e1".as_slice());
}
