// The heap, descriptors in it, and BlockMove.
use crate::bench::Step::{Call, Guard, Holds, RefusedMove, Store};
use crate::bench::{Step, quiet_host};
use crate::case::Case::{Kept, Negative, Ppc, Zero};
use crate::errors::{NO_BLOCK, NO_ROOM};
use crate::functions::{
    BLOCK_MOVE, DISPOSE_PTR, DISPOSE_ROUTINE_DESCRIPTOR, NEW_FAT_ROUTINE_DESCRIPTOR, NEW_PTR,
    NEW_PTR_CLEAR, NEW_ROUTINE_DESCRIPTOR,
};
use mix_bits::FaultKind;

/// The first long of a descriptor: the trap word, and version 7.
const HEAD: u32 = 0xAAFE_0700;

/// A long that nothing was stored over.
const FILL: u32 = 0xFFFF_FFFF;

/// Blocks that 68K code gets and gives up.
static M68_BLOCKS: &[Step] = &[
    // NewPtr of 24 and of 0 bytes.
    Call(Zero(NEW_PTR, [9, 8, 24, 6], [0x1_0000, 8, 0, 6])),
    Call(Zero(NEW_PTR, [9, 8, 0, 6], [0x1_0018, 8, 0, 6])),
    // NewPtrClear of 5 bytes, in a block of 8.
    Store(0x1_0020, &[FILL; 2]),
    Call(Zero(NEW_PTR_CLEAR, [9, 8, 5, 6], [0x1_0020, 8, 0, 6])),
    Holds(0x1_0020, &[0, 0x00FF_FFFF]),
    // DisposePtr, twice, and where no block begins.
    Call(Zero(DISPOSE_PTR, [0x1_0000, 8, 7, 6], [0x1_0000, 8, 0, 6])),
    Call(Negative(DISPOSE_PTR, [0x1_0000, 8, 7, 6], [0x1_0000, 8, NO_BLOCK, 6])),
    Call(Negative(DISPOSE_PTR, [0, 8, 7, 6], [0, 8, NO_BLOCK, 6])),
    // What is given up is given again, as far as it fits.
    Call(Zero(NEW_PTR, [9, 8, 25, 6], [0x1_0028, 8, 0, 6])),
    Call(Zero(NEW_PTR, [9, 8, 17, 6], [0x1_0000, 8, 0, 6])),
    // A heap without room.
    Call(Negative(NEW_PTR, [9, 8, 0x8000, 6], [0, 8, NO_ROOM, 6])),
    Call(Negative(NEW_PTR_CLEAR, [9, 8, 0xFFFF_FFFF, 6], [0, 8, NO_ROOM, 6])),
    Call(Kept(NEW_ROUTINE_DESCRIPTOR, [9, 8, 7, 0], [0x1_0048, 8, 7, 0])),
    // DisposeRoutineDescriptor leaves the condition codes.
    Call(Kept(
        DISPOSE_ROUTINE_DESCRIPTOR,
        [0x1_0048, 8, 7, 6],
        [0x1_0048, 8, 0, 6],
    )),
    Call(Kept(
        DISPOSE_ROUTINE_DESCRIPTOR,
        [0x1_0048, 8, 7, 6],
        [0x1_0048, 8, NO_BLOCK, 6],
    )),
];

#[test]
fn blocks_of_68k_code(rt: HostRuntime) {
    quiet_host(&rt, rt.alloc()).plays(&rt, M68_BLOCKS);
}

/// Blocks that PowerPC code gets and gives up.
static POWERPC_BLOCKS: &[Step] = &[
    Call(Ppc(NEW_PTR, [0x7FF0, 4, 5], [0x1_0000, 4, 5])),
    Call(Ppc(NEW_PTR_CLEAR, [17, 4, 5], [0, 4, 5])),
    Call(Ppc(NEW_PTR, [16, 4, 5], [0x1_7FF0, 4, 5])),
    Call(Ppc(NEW_ROUTINE_DESCRIPTOR, [3, 4, 5], [0, 4, 5])),
    Call(Ppc(NEW_FAT_ROUTINE_DESCRIPTOR, [3, 4, 5], [0, 4, 5])),
    Call(Ppc(DISPOSE_PTR, [0x1_0008, 4, 5], [NO_BLOCK, 4, 5])),
    Call(Ppc(DISPOSE_PTR, [0x1_0000, 4, 5], [0, 4, 5])),
    Call(Ppc(DISPOSE_ROUTINE_DESCRIPTOR, [0x1_7FF0, 4, 5], [0, 4, 5])),
];

#[test]
fn blocks_of_powerpc_code(rt: HostRuntime) {
    quiet_host(&rt, rt.alloc()).plays(&rt, POWERPC_BLOCKS);
}

/// Descriptors that are made in the heap.
static DESCRIPTORS: &[Step] = &[
    Store(0x1_0000, &[FILL; 21]),
    Call(Kept(
        NEW_ROUTINE_DESCRIPTOR,
        [0x12345, 8, 0x3B0, 0xFF01],
        [0x1_0000, 8, 0x3B0, 0xFF01],
    )),
    Holds(
        0x1_0000,
        &[HEAD, 0, 0, 0x3B0, 0x1_0000, 0x12345, 0, 0, FILL],
    ),
    Call(Ppc(
        NEW_FAT_ROUTINE_DESCRIPTOR,
        [0x111, 0x222, 0x31],
        [0x1_0020, 0x222, 0x31],
    )),
    Holds(0x1_0020, &[HEAD, 0, 1, 0x31, 0, 0x111, 0, 0]),
    Holds(0x1_0040, &[0x31, 0x1_0000, 0x222, 0, 0]),
    // The next block lies behind the 52 bytes, rounded up to a multiple of 8.
    Call(Ppc(NEW_PTR, [8, 4, 5], [0x1_0058, 4, 5])),
    // Neither procInfo nor isa is looked at.
    Call(Ppc(
        NEW_ROUTINE_DESCRIPTOR,
        [5, 0xFFFF_FFFF, 0x1FF],
        [0x1_0060, 0xFFFF_FFFF, 0x1FF],
    )),
    Holds(0x1_0060, &[HEAD, 0, 0, 0xFFFF_FFFF, 0xFF_0000, 5, 0, 0]),
];

#[test]
fn descriptors_of_one_and_two_records(rt: HostRuntime) {
    quiet_host(&rt, rt.alloc()).plays(&rt, DESCRIPTORS);
}

/// Moves within memory.
static MOVES: &[Step] = &[
    Store(0x3000, &[0x0102_0304, 0x0506_0708]),
    Call(Zero(BLOCK_MOVE, [0x3000, 0x3002, 6, 1], [0x3000, 0x3002, 0, 1])),
    Holds(0x3000, &[0x0102_0102, 0x0304_0506]),
    Call(Ppc(BLOCK_MOVE, [0x3002, 0x3000, 6], [0, 0x3000, 6])),
    Holds(0x3000, &[0x0102_0304, 0x0506_0506]),
    // No bytes are moved from nowhere to the gate page.
    Call(Ppc(BLOCK_MOVE, [0xFFFF_FFFF, 0x1000, 0], [0, 0x1000, 0])),
];

#[test]
fn blocks_are_moved(rt: HostRuntime) {
    quiet_host(&rt, rt.alloc()).plays(&rt, MOVES);
}

/// Moves out of memory, into the gate page and into a frame.
static REFUSED_MOVES: &[Step] = &[
    Store(0x3000, &[FILL; 4]),
    Guard,
    // The source is tested first.
    RefusedMove([0x1_FFFE, 0x1000, 4], FaultKind::Outside, 0x1_FFFE),
    RefusedMove([0x3000, 0x1_FFFE, 4], FaultKind::Outside, 0x1_FFFE),
    RefusedMove([0x3000, 0xFFFF_FFFE, 4], FaultKind::Outside, 0xFFFF_FFFE),
    RefusedMove([0x3000, 0xFFE, 4], FaultKind::GateStore, 0xFFE),
    RefusedMove([0x3000, 0x1FFF, 1], FaultKind::GateStore, 0x1FFF),
    RefusedMove([0x3000, 0x1_F00F, 1], FaultKind::FrameStore, 0x1_F00F),
    RefusedMove([0x3000, 0x1_EFFE, 4], FaultKind::FrameStore, 0x1_EFFE),
    Holds(0xFFE, &[0]),
    Holds(0x1_EFFE, &[0]),
    // A guarded unit is read.
    Call(Zero(
        BLOCK_MOVE,
        [0x1_F000, 0x3000, 4, 1],
        [0x1_F000, 0x3000, 0, 1],
    )),
    Holds(0x3000, &[0, FILL]),
];

#[test]
fn moves_that_are_refused(rt: HostRuntime) {
    quiet_host(&rt, rt.alloc()).plays(&rt, REFUSED_MOVES);
}
