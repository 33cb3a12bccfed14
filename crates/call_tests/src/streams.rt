// Bytes in and out, the ends of programs, and what goes on elsewhere.
use crate::bench::Step::{Call, Store, Wrote};
use crate::bench::{Step, quiet_host, reading_host, writing_host};
use crate::case::Case::{Kept, Ppc, PpcStays, Stays, Unloads};
use crate::case::PC;
use crate::errors::AT_END;
use crate::functions::{
    CALL_UNIVERSAL_PROC, EXIT_TO_SHELL, EXIT_WITH, GET_BYTE, PUT_BLOCK, PUT_BYTE,
};
use mix_bits::{Fault, FaultKind};
use toolbox::HostOut;

/// The last byte of a block of two is outside memory.
const OUTSIDE: HostOut = HostOut::Stop(Fault {
    kind: FaultKind::Outside,
    pc: PC,
    detail: 0x1_FFFF,
    also: 0,
});

/// Bytes and blocks that are put.
static PUTS: &[Step] = &[
    Store(0x3000, &[0x6162_6364]),
    Call(Kept(PUT_BYTE, [1, 2, 0xFFFF_FF48, 4], [1, 2, 0xFFFF_FF48, 4])),
    Call(Ppc(PUT_BYTE, [0x149, 4, 5], [0, 4, 5])),
    Call(Kept(PUT_BLOCK, [0x3001, 2, 2, 4], [0x3001, 2, 2, 4])),
    Call(Ppc(PUT_BLOCK, [0x3000, 4, 5], [0, 4, 5])),
    Wrote(b"HIbcabcd"),
    // No bytes are at any address.
    Call(Kept(PUT_BLOCK, [0xFFFF_FFFF, 2, 0, 4], [0xFFFF_FFFF, 2, 0, 4])),
    Call(Stays(PUT_BLOCK, [0x1_FFFF, 2, 2, 4], OUTSIDE)),
    Wrote(b"HIbcabcd"),
];

#[test]
fn bytes_are_put(rt: HostRuntime) {
    writing_host(&rt, rt.alloc(), 16, &[]).plays(&rt, PUTS);
}

/// Bytes that are taken.
static TAKES: &[Step] = &[
    Call(Kept(GET_BYTE, [1, 2, 0x1234_5678, 4], [1, 2, 0x61, 4])),
    Call(Ppc(GET_BYTE, [3, 4, 5], [0xFF, 4, 5])),
    Call(Kept(GET_BYTE, [1, 2, 3, 4], [1, 2, AT_END, 4])),
    Call(Ppc(GET_BYTE, [3, 4, 5], [AT_END, 4, 5])),
];

#[test]
fn bytes_are_taken_to_the_end(rt: HostRuntime) {
    reading_host(&rt, rt.alloc(), &[0x61, 0xFF], &[]).plays(&rt, TAKES);
}

/// The second take fails.
static FAILING_TAKES: &[Step] = &[
    Call(Kept(GET_BYTE, [1, 2, 3, 4], [1, 2, 0x61, 4])),
    Call(Stays(GET_BYTE, [1, 2, 3, 4], HostOut::ReadFault)),
    Call(Kept(GET_BYTE, [1, 2, 3, 4], [1, 2, 0x62, 4])),
];

#[test]
fn an_input_that_fails_takes_nothing(rt: HostRuntime) {
    reading_host(&rt, rt.alloc(), b"ab", &[2]).plays(&rt, FAILING_TAKES);
}

/// The first put fails, and the room ends within the second.
static FAILING_PUTS: &[Step] = &[
    Store(0x3000, &[0x6162_6364]),
    Call(Stays(PUT_BYTE, [0x3000, 2, 4, 4], HostOut::OutFault)),
    Wrote(b""),
    // A block of no bytes is not put, so it can't fail.
    Call(Kept(PUT_BLOCK, [0x3000, 2, 0, 4], [0x3000, 2, 0, 4])),
    Call(Stays(PUT_BLOCK, [0x3000, 2, 4, 4], HostOut::OutFault)),
    Wrote(b"abc"),
];

#[test]
fn an_output_that_fails_keeps_a_part_at_most(rt: HostRuntime) {
    writing_host(&rt, rt.alloc(), 3, &[1]).plays(&rt, FAILING_PUTS);
}

/// The registers of code that ends or crosses.
const BY_68K: [u32; 4] = [1, 2, 0xFFFF_FFEB, 4];

const BY_POWERPC: [u32; 3] = [0x1_0020, 0x31, 5];

/// It crosses to the routine in r3.
const CROSSES: HostOut = HostOut::Cross {
    pointer: 0x1_0020,
    info: 0x31,
};

/// How programs end, and one that crosses.
static ENDS: &[Step] = &[
    Call(Stays(EXIT_TO_SHELL, BY_68K, HostOut::Exit(0))),
    Call(Stays(EXIT_WITH, BY_68K, HostOut::Exit(0xFFFF_FFEB))),
    Call(PpcStays(EXIT_TO_SHELL, BY_POWERPC, HostOut::Exit(0))),
    Call(PpcStays(EXIT_WITH, BY_POWERPC, HostOut::Exit(0x1_0020))),
    Call(PpcStays(CALL_UNIVERSAL_PROC, BY_POWERPC, CROSSES)),
    Call(Unloads([1, 2, 3, 4])),
];

#[test]
fn programs_end_and_cross(rt: HostRuntime) {
    quiet_host(&rt, rt.alloc()).plays(&rt, ENDS);
}
