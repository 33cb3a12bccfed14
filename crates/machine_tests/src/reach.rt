// The words are those that GNU as gives.
use crate::equal::equal;
use big_memory::Ram;
use m68_isa::{Ccr, Regs68};
use mix_reach::{Reach, Stores, Told, next_stores, step_reach, told_68k, told_ppc};
use ppc_isa::RegsPpc;
use std::alloc::Global;
use std::process::Abort;
use switch_frame::Active;

/// Where the code stands.
const CODE: u32 = 0x1_0000;

/// Two words of code, and where the instruction that they begin stores.
type Case = (u32, u32, (usize, usize));

/// 68K code.
const M68_CASES: [Case; 9] = [
    // move.l d0,(a0); move.b d0,-(sp); add.w d1,4(a0)
    (0x2080, 0, (0x1_1000, 0x1_1004)),
    (0x1F00, 0, (0x1_BFFE, 0x1_C002)),
    (0xD368, 4, (0x1_1004, 0x1_1008)),
    // link a6,#-8; addi.w #16,(a0)
    (0x4E56, 0xFFF8, (0x1_BFFC, 0x1_C000)),
    (0x0650, 0x10, (0x1_1000, 0x1_1004)),
    // movem.l d0-d7/a0-a6,-(sp); bsr.s; moveq #1,d0
    (0x48E7, 0xFFFE, (0x1_BFBC, 0x1_C000)),
    (0x6102, 0, (0x1_BFFC, 0x1_C000)),
    (0x7001, 0, (0, 0)),
    // the trap BlockMove
    (0xA02E, 0, (0x1_2000, 0x1_2040)),
];

/// PowerPC code.
const PPC_CASES: [Case; 4] = [
    // stw r0,4(r3); stwx r7,r3,r4; stmw r26,16(r3); addi r7,r7,-1
    (0x9003, 4, (0x1_1004, 0x1_1008)),
    (0x7CE3, 0x212E, (0x1_1040, 0x1_1044)),
    (0xBF43, 0x10, (0x1_1010, 0x1_1090)),
    (0x38E7, 0xFFFF, (0, 0)),
];

/// D0 is $40, D1 is 8, A0 is $11000, A1 is $12000, and the stack pointer is $1C000.
fn m68() -> Active {
    Active::M68(Regs68 {
        d: [0x40, 8, 0, 0, 0, 0, 0, 0],
        a: [0x1_1000, 0x1_2000, 0, 0, 0, 0, 0, 0x1_C000],
        pc: CODE,
        ccr: Ccr {
            x: false,
            n: false,
            z: false,
            v: false,
            c: false,
        },
    })
}

/// r3 is $11000, r4 is $40, and r1 is $1C000.
fn ppc() -> Active {
    let mut gpr = [0; 32];
    gpr[1] = 0x1_C000;
    gpr[3] = 0x1_1000;
    gpr[4] = 0x40;
    Active::Ppc(RegsPpc {
        gpr,
        cr: 0,
        lr: 0,
        ctr: 0,
        xer: 0,
        pc: CODE,
    })
}

/// Memory of 128 KiB.
fn memory(rt: &impl Abort, alloc: Global) -> Ram {
    Ram::new(alloc, 131_072).expect(rt, "no memory")
}

/// Stores two words where the code stands.
fn put(rt: &impl Abort, ram: &mut Ram, first: u32, second: u32) {
    equal(rt, "the first word", ram.store_word(CODE, first), Ok(()));
    equal(
        rt,
        "the second word",
        ram.store_word(CODE + 2, second),
        Ok(()),
    );
}

/// The bounds of a range, for which there is no comparison.
fn bounds(reach: Reach) -> (usize, usize) {
    (reach.low, reach.high)
}

/// Each instruction stores where it is to.
fn store_there(rt: &impl Abort, ram: &mut Ram, active: &Active, cases: &[Case]) {
    for (first, second, wanted) in cases {
        put(rt, ram, *first, *second);
        let reach = next_stores(ram, active).reach;
        equal(rt, *first, bounds(reach), *wanted);
    }
}

#[test]
fn instructions_of_68k_code(rt: HostRuntime) {
    let mut ram = memory(&rt, rt.alloc());
    store_there(&rt, &mut ram, &m68(), &M68_CASES);
}

#[test]
fn instructions_of_powerpc_code(rt: HostRuntime) {
    let mut ram = memory(&rt, rt.alloc());
    store_there(&rt, &mut ram, &ppc(), &PPC_CASES);
}

/// Two words of code, and whether the instruction that they begin is told to store nowhere.
type Still = (u32, u32, bool);

/// 68K code.
const M68_STILL: [Still; 7] = [
    // move.l (a0),d0; addi.w #16,d1; addq.l #1,d2; clr.l d3; tst.w (a0)
    (0x2010, 0, true),
    (0x0641, 0x10, true),
    (0x5282, 0, true),
    (0x4283, 0, true),
    (0x4A50, 0, true),
    // addq.l #1,(a0); link a6,#-8
    (0x5290, 0, false),
    (0x4E56, 0xFFF8, false),
];

/// PowerPC code.
const PPC_STILL: [Still; 2] = [
    // addi r7,r7,-1; stw r0,4(r3)
    (0x38E7, 0xFFFF, true),
    (0x9003, 4, false),
];

/// Whether it is told at once that the next step stores nowhere.
fn is_still(ram: &Ram, active: &Active) -> bool {
    let told = match active {
        Active::M68(regs) => told_68k(ram, regs),
        Active::Ppc(regs) => told_ppc(ram, regs),
    };
    matches!(told, Told::Nowhere)
}

/// Each instruction is told to store nowhere, or is not.
fn are_still(rt: &impl Abort, ram: &mut Ram, active: &Active, cases: &[Still]) {
    for (first, second, wanted) in cases {
        put(rt, ram, *first, *second);
        equal(rt, *first, is_still(ram, active), *wanted);
    }
}

#[test]
fn instructions_that_store_nowhere(rt: HostRuntime) {
    let mut ram = memory(&rt, rt.alloc());
    are_still(&rt, &mut ram, &m68(), &M68_STILL);
    are_still(&rt, &mut ram, &ppc(), &PPC_STILL);
}

/// A step whose innermost frame was at `old` and is at `new` stores there.
fn reaches(rt: &impl Abort, next: Stores, old: u32, new: u32, wanted: (usize, usize)) {
    let found = bounds(step_reach(next, old, new, &m68()));
    equal(rt, new, found, wanted);
}

#[test]
fn frames(rt: HostRuntime) {
    let ram = memory(&rt, rt.alloc());
    let next = next_stores(&ram, &m68());
    // None is made or given up, one is made, and one is given up.
    reaches(&rt, next, 0x1_D000, 0x1_D000, bounds(next.reach));
    reaches(&rt, next, 0x1_D000, 0x1_C100, (0x1_C000, 0x1_C1C0));
    reaches(&rt, next, 0x1_B000, 0x1_D000, (0x1_B000, 0x1_C004));
}
