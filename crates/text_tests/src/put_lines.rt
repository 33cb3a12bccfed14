// Whole lines, from the descriptions of the machine; and that each is one put.
use crate::equal::{equal, must};
use call_trace::{End, put_ask, put_call, put_end, put_ret};
use dev_rack::Answer;
use m68_isa::Regs68;
use mix_bits::{Fault, FaultKind, Isa};
use mix_io::{Failed, MemSink};
use proc_info::{Sig, read};
use std::alloc::Global;
use std::process::Abort;
use switch_frame::{Active, Held, Kind};

/// What a line tells.
#[derive(Clone, Copy)]
enum Told<'a> {
    /// A call: between which sets, the procInfo, the selector, the target and the arguments.
    Call(Kind, u32, u32, u32, &'a [u32]),
    /// A return: the procInfo and the result.
    Return(u32, u32),
    /// An ask: the slot, the word and what came of it.
    Ask(u32, u32, Answer),
    /// The end of a run.
    Ending(End),
}

/// The signature of a procInfo.
fn signature(rt: &impl Abort, info: u32) -> Sig {
    read(info).ok().expect(rt, "no procInfo")
}

/// The frame of a call.
fn held(kind: Kind, info: u32, selector: u32, target: u32) -> Held {
    Held {
        kind,
        caller: Active::M68(Regs68::cleared()),
        info,
        selector,
        target,
        lo: 0xF_FF70,
        hi: 0xF_FFE0,
        want_sp: 0xF_FF30,
        depth: 1,
    }
}

/// Puts the line of a call.
fn call(rt: &impl Abort, sink: &mut MemSink, held: &Held, args: &[u32]) -> Result<(), Failed> {
    let sig = signature(rt, held.info);
    must(rt, args.len() == sig.params().len());
    put_call(sink, held, &sig, args)
}

/// Puts a line.
fn put(rt: &impl Abort, sink: &mut MemSink, told: Told) -> Result<(), Failed> {
    match told {
        Told::Call(kind, info, selector, target, args) => {
            call(rt, sink, &held(kind, info, selector, target), args)
        }
        Told::Return(info, value) => put_ret(sink, &signature(rt, info), value),
        Told::Ask(slot, word, answer) => put_ask(sink, slot, word, answer),
        Told::Ending(end) => put_end(sink, &end),
    }
}

/// What a sink holds is this line, and its line feed.
fn holds_line(rt: &impl Abort, sink: &MemSink, line: &str) {
    let held = sink.held();
    let (text, feed) = held.split_at(held.len().saturating_sub(1));
    equal(rt, line, text, line.as_bytes());
    equal(rt, line, feed, b"\n".as_slice());
}

/// A put into a sink has this answer, and the sink then holds this line.
fn puts(rt: &impl Abort, sink: &mut MemSink, told: Told, line: &str, answer: Result<(), Failed>) {
    equal(rt, line, put(rt, sink, told), answer);
    holds_line(rt, sink, line);
}

/// A sink whose second put fails, so that a line in two puts would not be there whole.
fn one_put(rt: &impl Abort, alloc: Global) -> MemSink {
    let fails = vec![in alloc; 2].expect(rt, "no numbers");
    MemSink::new(alloc, 160, fails).expect(rt, "no sink")
}

/// What is told has this line, in one put.
fn is_line(rt: &impl Abort, alloc: Global, told: Told, line: &str) {
    let mut sink = one_put(rt, alloc);
    puts(rt, &mut sink, told, line, Ok(()));
    puts(rt, &mut sink, told, line, Err(Failed));
}

/// Each row has its line, in one put.
fn are_lines(rt: &impl Abort, alloc: Global, rows: &[(Told, &str)]) {
    for (told, line) in rows {
        is_line(rt, alloc, *told, line);
    }
}

#[test]
fn calls_between_the_sets(rt: HostRuntime) {
    are_lines(
        &rt,
        rt.alloc(),
        &[
            (
                Told::Call(Kind::M68ToPpc, 0x3B0, 0, 0x1_0040, &[0xFFFE, 0x1_0002]),
                "call 68k ppc 00010040 000003B0 FFFE 00010002",
            ),
            (
                Told::Call(Kind::M68ToPpc, 0x71, 0, 0x1_0040, &[0xFF]),
                "call 68k ppc 00010040 00000071 FF",
            ),
            (
                Told::Call(
                    Kind::M68ToPpc,
                    0x5555_5570,
                    0,
                    0x1_0060,
                    &[1, 2, 3, 4, 5, 6, 7, 8, 9, 10, 11, 12, 13],
                ),
                "call 68k ppc 00010060 55555570 01 02 03 04 05 06 07 08 09 0A 0B 0C 0D",
            ),
            (
                Told::Call(Kind::PpcToM68, 0x31, 0, 0x1_0020, &[]),
                "call ppc 68k 00010020 00000031",
            ),
            (
                Told::Call(Kind::M68ToM68, 0xF1, 0, 0x1_0040, &[5]),
                "call 68k 68k 00010040 000000F1 00000005",
            ),
        ],
    );
}

#[test]
fn selectors_in_the_digits_of_their_size(rt: HostRuntime) {
    are_lines(
        &rt,
        rt.alloc(),
        &[
            (
                Told::Call(Kind::M68ToPpc, 0x4C, 0x12AB, 0x1_0040, &[]),
                "call 68k ppc 00010040 0000004C #AB",
            ),
            (
                Told::Call(Kind::M68ToPpc, 0xB9, 2, 0x1_0040, &[]),
                "call 68k ppc 00010040 000000B9 #0002",
            ),
            (
                Told::Call(Kind::PpcToM68, 0x3C8, 2, 0x1_0040, &[0xABCD_EF01]),
                "call ppc 68k 00010040 000003C8 #00000002 ABCDEF01",
            ),
        ],
    );
}

/// The line of a call between PowerPC code whose selector, target and arguments have only ones is this one.
fn is_long(rt: &impl Abort, alloc: Global, info: u32, args: &[u32], line: &str) {
    let told = Told::Call(Kind::PpcToPpc, info, 0xFFFF_FFFF, 0xFFFF_FFFF, args);
    is_line(rt, alloc, told, line);
}

#[test]
fn the_longest_lines(rt: HostRuntime) {
    is_long(
        &rt,
        rt.alloc(),
        0xFFFF_FFF9,
        &[0xFFFF_FFFF; 12],
        "call ppc ppc FFFFFFFF FFFFFFF9 #FFFFFFFF FFFFFFFF FFFFFFFF FFFFFFFF FFFFFFFF FFFFFFFF FFFFFFFF FFFFFFFF FFFFFFFF FFFFFFFF FFFFFFFF FFFFFFFF FFFFFFFF",
    );
    is_long(
        &rt,
        rt.alloc(),
        0xFFFF_FFF1,
        &[0xFFFF_FFFF; 13],
        "call ppc ppc FFFFFFFF FFFFFFF1 FFFFFFFF FFFFFFFF FFFFFFFF FFFFFFFF FFFFFFFF FFFFFFFF FFFFFFFF FFFFFFFF FFFFFFFF FFFFFFFF FFFFFFFF FFFFFFFF FFFFFFFF",
    );
}

#[test]
fn results_of_every_size(rt: HostRuntime) {
    are_lines(
        &rt,
        rt.alloc(),
        &[
            (Told::Return(0x3B0, 0x2_0000), "ret 00020000"),
            (Told::Return(0x3A0, 0x1234_5678), "ret 5678"),
            (Told::Return(0x10, 0x107), "ret 07"),
            (Told::Return(0, 0x107), "ret"),
        ],
    );
}

#[test]
fn asks_and_what_came_of_them(rt: HostRuntime) {
    are_lines(
        &rt,
        rt.alloc(),
        &[
            (Told::Ask(0, 5, Answer::Word(5)), "ask 0 00000005 00000005"),
            (
                Told::Ask(10, 0xABCD_EF01, Answer::Failed),
                "ask 10 ABCDEF01 fail",
            ),
            (Told::Ask(0, 5, Answer::Empty), "ask 0 00000005 empty"),
            (
                Told::Ask(0xFFFF_FFFF, 0, Answer::Full),
                "ask 4294967295 00000000 full",
            ),
        ],
    );
}

#[test]
fn ends_of_every_kind(rt: HostRuntime) {
    let mismatch = Fault {
        kind: FaultKind::Mismatch,
        pc: 0x1_0000,
        detail: 0xABCD_EF01,
        also: 0x31,
    };
    are_lines(
        &rt,
        rt.alloc(),
        &[
            (Told::Ending(End::Exit(0)), "exit 0"),
            (Told::Ending(End::Exit(0xFFFF_FFEB)), "exit 4294967275"),
            (Told::Ending(End::Limit), "limit"),
            (
                Told::Ending(End::Fault(Isa::M68, mismatch)),
                "fault mismatch 68k 00010000 ABCDEF01 00000031",
            ),
        ],
    );
}

/// Each fault of PowerPC code, without a number, has its line.
fn are_faults(rt: &impl Abort, alloc: Global, rows: &[(FaultKind, &str)]) {
    for (kind, line) in rows {
        let fault = Fault {
            kind: *kind,
            pc: 0,
            detail: 0,
            also: 0,
        };
        is_line(rt, alloc, Told::Ending(End::Fault(Isa::Ppc, fault)), line);
    }
}

#[test]
fn faults_by_their_names(rt: HostRuntime) {
    are_faults(
        &rt,
        rt.alloc(),
        &[
            (
                FaultKind::Illegal,
                "fault illegal ppc 00000000 00000000 00000000",
            ),
            (
                FaultKind::Privileged,
                "fault privileged ppc 00000000 00000000 00000000",
            ),
            (
                FaultKind::BadInstr,
                "fault badinstr ppc 00000000 00000000 00000000",
            ),
            (FaultKind::Trap, "fault trap ppc 00000000 00000000 00000000"),
            (FaultKind::Odd, "fault odd ppc 00000000 00000000 00000000"),
            (
                FaultKind::Outside,
                "fault outside ppc 00000000 00000000 00000000",
            ),
            (
                FaultKind::GateStore,
                "fault gatestore ppc 00000000 00000000 00000000",
            ),
            (
                FaultKind::FrameStore,
                "fault framestore ppc 00000000 00000000 00000000",
            ),
            (
                FaultKind::GateFetch,
                "fault gatefetch ppc 00000000 00000000 00000000",
            ),
            (
                FaultKind::Vector,
                "fault vector ppc 00000000 00000000 00000000",
            ),
            (
                FaultKind::NoTrap,
                "fault notrap ppc 00000000 00000000 00000000",
            ),
            (
                FaultKind::BadDesc,
                "fault baddesc ppc 00000000 00000000 00000000",
            ),
            (
                FaultKind::Info,
                "fault badinfo ppc 00000000 00000000 00000000",
            ),
            (
                FaultKind::Mismatch,
                "fault mismatch ppc 00000000 00000000 00000000",
            ),
            (
                FaultKind::NoRecord,
                "fault norecord ppc 00000000 00000000 00000000",
            ),
            (
                FaultKind::FramesFull,
                "fault framesfull ppc 00000000 00000000 00000000",
            ),
            (
                FaultKind::StackOutside,
                "fault stackoutside ppc 00000000 00000000 00000000",
            ),
            (
                FaultKind::StackCrossed,
                "fault stackcrossed ppc 00000000 00000000 00000000",
            ),
            (
                FaultKind::StackFull,
                "fault stackfull ppc 00000000 00000000 00000000",
            ),
            (
                FaultKind::Unmatched,
                "fault unmatched ppc 00000000 00000000 00000000",
            ),
        ],
    );
}
