// Packets that gdb sends, and what they ask for.
use crate::{Action, Features, Id, Point, Request, Thread, read_request};
use std::process::Abort;

fn check(rt: &impl Abort, text: &[u8], wanted: Request) {
    assert_eq!(rt; read_request(text), wanted);
}

fn knowing(processes: bool, breakpoints: bool) -> Request {
    Request::Supported(Features {
        processes,
        breakpoints,
    })
}

#[test]
fn packets_are_requests(rt: HostRuntime) {
    let first = Thread {
        process: Id::Number(1),
        thread: Id::Number(1),
    };
    let any = Thread {
        process: Id::Any,
        thread: Id::Any,
    };
    let step = Action {
        is_step: true,
        thread: first,
    };
    let go_on = Action {
        is_step: false,
        thread: any,
    };
    check(
        &rt,
        b"qSupported:multiprocess+;swbreak+",
        knowing(true, true),
    );
    check(&rt, b"qSupported:swbreak+", knowing(false, true));
    check(&rt, b"qSupported:hwbreak+", knowing(false, false));
    check(&rt, b"Hgp1.1", Request::SelectForRegisters(first));
    check(&rt, b"Hc-1", Request::SelectForRunning(any));
    check(&rt, b"p40", Request::Register(0x40));
    check(&rt, b"m1A0f,4", Request::Memory(0x1A0F, 4));
    check(&rt, b"m100000000,4", Request::Unknown);
    check(&rt, b"vCont;s:p1.1;c", Request::Resume(step, Some(go_on)));
    check(&rt, b"vCont;C05", Request::Resume(go_on, None));
    check(&rt, b"Z2,2000,4", Request::Insert(Point::Write, 0x2000, 4));
    check(
        &rt,
        b"z0,2000,2",
        Request::Remove(Point::Software, 0x2000, 2),
    );
    check(&rt, b"Z3,2000,4", Request::Unknown);
    check(
        &rt,
        b"qXfer:features:read:target.xml:0,ffb",
        Request::Description(0, 0xFFB),
    );
    check(&rt, b"D;2", Request::Detach(Id::Number(2)));
    check(&rt, b"G00", Request::Change);
    check(&rt, b"vMustReplyEmpty", Request::Unknown);
}
