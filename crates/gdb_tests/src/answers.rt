// Answers as gdb's manual has them, from a machine with nothing in it but a few registers and bytes.
use crate::still::has_no_frame;
use big_memory::Ram;
use gdb_answers::{Answer, Reason, ThreadName, append_answer, append_console};
use m68_isa::{Ccr, Regs68};
use mix_bits::{Fault, FaultKind, Isa};
use std::alloc::Global;
use std::process::Abort;
use switch_frame::Active;

fn check(rt: &impl Abort, alloc: Global, answer: Answer, wanted: &[u8]) {
    let mut regs = Regs68::cleared();
    regs.d[1] = 0x0102_0304;
    regs.ccr = Ccr::from_bits(5);
    regs.pc = 0x1_0000;
    let mut ram = Ram::new(alloc, 131_072).expect(rt, "no memory");
    ram.fix(0x1_FFFE, &[0xAB, 0xCD]);
    let mut buffer = Vec::new(alloc);
    has_no_frame(&ram);
    append_answer(&mut buffer, answer, &Active::M68(regs), &ram, 0).expect(rt, "no memory");
    assert!(rt; buffer.as_slice() == wanted);
}

#[test]
fn words_are_answered(rt: HostRuntime) {
    let alloc = rt.alloc();
    check(&rt, alloc, Answer::Unknown, b"");
    check(&rt, alloc, Answer::Done, b"OK");
    check(&rt, alloc, Answer::Thread(ThreadName::Only), b"m1");
    check(
        &rt,
        alloc,
        Answer::Current(ThreadName::Of(Isa::Ppc)),
        b"QCp2.2",
    );
    check(
        &rt,
        alloc,
        Answer::Exited(ThreadName::Only, 0x1_0002),
        b"W02",
    );
    check(
        &rt,
        alloc,
        Answer::Exited(ThreadName::Of(Isa::Ppc), 0x1_0002),
        b"W02;process:2",
    );
    let fault = Fault {
        kind: FaultKind::Odd,
        pc: 1,
        detail: 1,
        also: 0,
    };
    let odd = Answer::Stopped(ThreadName::Of(Isa::M68), Reason::Faults(fault));
    check(&rt, alloc, odd, b"T0athread:p1.1;");
    let changed = Answer::Stopped(ThreadName::Only, Reason::Changed(0x20));
    check(&rt, alloc, changed, b"T05thread:1;watch:20;");
}

#[test]
fn registers_and_memory_are_answered(rt: HostRuntime) {
    let alloc = rt.alloc();
    check(&rt, alloc, Answer::Register(Isa::M68, 1), b"01020304");
    check(&rt, alloc, Answer::Register(Isa::M68, 16), b"00000005");
    check(&rt, alloc, Answer::Register(Isa::M68, 18), b"E01");
    check(&rt, alloc, Answer::Register(Isa::Ppc, 0x40), b"00000000");
    check(&rt, alloc, Answer::Memory(0x1_FFFE, 4), b"abcd");
    check(&rt, alloc, Answer::Memory(0x2_0000, 4), b"E01");
    check(&rt, alloc, Answer::Description(Isa::M68, 0, 5), b"m<?xml");
    let mut buffer = Vec::new(alloc);
    append_console(&mut buffer, b"hi\n").expect(&rt, "no memory");
    assert!(&rt; buffer.as_slice() == b"O68690a".as_slice());
}
