// Callers that wait in their frames while their callees write.
ghost use Rattle.switch_frame.specs.Records.{isa_of};
ghost use Rattle.mixed_machine.specs.Machine.{IsWhole};

use crate::bench::{Outside, Trial, innermost, run_on, waiting};
use crate::equal::equal;
use m68_isa::{Ccr, Regs68};
use mix_bits::{Fault, FaultKind, Isa, Size};
use mix_engine::{Machine, Stop};
use ppc_isa::RegsPpc;
use std::alloc::Global;
use std::process::Abort;
use switch_frame::{Active, Held};

/// 68K code that fills its registers from a table, and calls a descriptor. The frame lies from $1FF80 to $1FFF0.
const M68_CALLER: &str = "
4CFA7FFF 00FC44FC 001F4EB9 00010040 AA85
@100 D0000000 D1000000 D2000000 D3000000 D4000000 D5000000 D6000000 D7000000
A0000000 A1000000 A2000000 A3000000 A4000000 A5000000 A6000000
";

/// PowerPC code that fills its registers from a table, and calls by CallUniversalProc. The frame lies from
/// $1FF00 to $1FFC0.
const PPC_CALLER: &str = "
3C800001 60840100 B8A40000 38000123 7CA903A6 7CCFF120 7CE103A6 3C600001
60630040 38800001 4800180F 4800183A
@100 05050505 12345678 E0000007 08080808 09090909 0A0A0A0A 0B0B0B0B 0C0C0C0C
0D0D0D0D 0E0E0E0E 0F0F0F0F 10101010 11111111 12121212 13131313 14141414
15151515 16161616 17171717 18181818 19191919 1A1A1A1A 1B1B1B1B 1C1C1C1C
1D1D1D1D 1E1E1E1E 1F1F1F1F
";

/// The descriptor of PowerPC code at $10068.
const DESCRIPTOR: &str = "
@40 AAFE0700 00000000 00000000 00000001 00010000 00010060 00000000 00000000
00010068 00000000
";

/// What makes of it the descriptor of CFM-68K code at that place.
const CFM: &str = "@50 0010";

/// 68K code that sets all bits in ranges, then mends its return address, and returns.
const M68_FILLS: &str = "
2C7C0001 018070FF 205E225E B3C86708 20C0B3C8 66FA60F0 2EBC0000 10084E75
";

/// PowerPC code that sets all bits in ranges, and returns.
const PPC_FILLS: &str = "
@68 38A0FFFF 3CC00001 60C60180 80660000 80860004 38C60008 7C032040 4D820020
90A30000 38630004 7C032040 4082FFF4 4BFFFFDC
";

/// All that may be written but the program, around the frame of each caller.
const AROUND_M68: &str = "
@180 00000000 00001000 00002000 00010000 00010200 0001FF80 0001FFF0 00020000 00000000 00000000
";

const AROUND_PPC: &str = "
@180 00000000 00001000 00002000 00010000 00010200 0001FF00 0001FFC0 00020000 00000000 00000000
";

/// More steps than any callee here does.
const ALL: u32 = 1_000_000;

/// The registers of the 68K caller at its call.
fn m68_file(a7: u32) -> Active {
    Active::M68(Regs68 {
        d: [
            0xD000_0000,
            0xD100_0000,
            0xD200_0000,
            0xD300_0000,
            0xD400_0000,
            0xD500_0000,
            0xD600_0000,
            0xD700_0000,
        ],
        a: [
            0xA000_0000,
            0xA100_0000,
            0xA200_0000,
            0xA300_0000,
            0xA400_0000,
            0xA500_0000,
            0xA600_0000,
            a7,
        ],
        pc: 0x1_0010,
        ccr: Ccr {
            x: true,
            n: true,
            z: true,
            v: true,
            c: true,
        },
    })
}

/// The registers of the PowerPC caller at its call.
fn ppc_file() -> Active {
    let mut gpr = [0; 32];
    for (k, register) in gpr.iter_mut().enumerate() {
        *register = 0x0101_0101 * (k % 32) as u32;
    }
    gpr[0] = 0x123;
    gpr[1] = 0x1_FFC0;
    gpr[2] = 0;
    gpr[3] = 0x1_0040;
    gpr[4] = 1;
    gpr[6] = 0x1234_5678;
    gpr[7] = 0xE000_0007;
    Active::Ppc(RegsPpc {
        gpr,
        cr: 0x1234_5678,
        lr: 0x1_002C,
        ctr: 0x0505_0505,
        xer: 0xE000_0007,
        pc: 0x1_002C,
    })
}

/// Does single steps until so many callers wait. The answer is the innermost caller before the last step.
fn step_to(rt: &impl Abort, m: &mut Machine, around: &mut Outside, callers: u32) -> Option<Held>
    requires { IsWhole m.old.body (isa_of m.old.active) }
    ensures { IsWhole m.new.body (isa_of m.new.active) }
{
    'steps: for _ in 0..ALL {
        let before = innermost(m);
        let _ = run_on(m, around, 1);
        if waiting(m) == callers {
            return before;
        }
    }
    panic!(rt; "the callee does not return")
}

/// Goes on until a first caller waits, and answers it.
fn call(rt: &impl Abort, m: &mut Machine, around: &mut Outside) -> Held
    requires { IsWhole m.old.body (isa_of m.old.active) }
    ensures { IsWhole m.new.body (isa_of m.new.active) }
{
    let _ = step_to(rt, m, around, 1);
    innermost(m).expect(rt, "no caller waits")
}

/// Goes on with the callee, and then to its return. The caller waits all the time.
fn come_back(rt: &impl Abort, m: &mut Machine, around: &mut Outside, held: Held)
    requires { IsWhole m.old.body (isa_of m.old.active) }
    ensures { IsWhole m.new.body (isa_of m.new.active) }
{
    equal(rt, "the cut", run_on(m, around, 90_000), Stop::Limit);
    equal(rt, "the caller that waits", innermost(m), Some(held));
    let returning = step_to(rt, m, around, 0);
    equal(rt, "the caller at the return", returning, Some(held));
}

/// The callee wrote all that it may: the long at each of these places.
fn are_written(rt: &impl Abort, m: &Machine, places: &[u32], long: u32) {
    for a in places {
        equal(rt, *a, m.body.ram.load(*a, Size::Four), Ok(long));
    }
}

/// All around a frame is written, and nothing in it.
fn is_written_around(rt: &impl Abort, m: &Machine, held: Held) {
    let places = [0, 0xFFC, 0x2000, 0x1_8000, 0x1_FFFC];
    are_written(rt, m, &places, u32::MAX);
    let beside = [held.lo.saturating_sub(8), held.hi];
    are_written(rt, m, &beside, u32::MAX);
    let inside = [held.lo, held.hi.saturating_sub(4)];
    are_written(rt, m, &inside, 0);
}

/// A caller waits with these registers while its callee writes all that it may, and goes on with those.
fn waits(rt: &impl Abort, alloc: Global, main: Isa, text: &str, caller: Active, after: Active) {
    let around = Outside::calm(rt, alloc, b"");
    let mut trial = Trial::begin(rt, alloc, main, 128, text, around);
    let held = call(rt, &mut trial.machine, &mut trial.around);
    equal(rt, "the caller", held.caller, caller);
    come_back(rt, &mut trial.machine, &mut trial.around, held);
    equal(rt, "the registers", trial.machine.active, after);
    is_written_around(rt, &trial.machine, held);
    trial.end();
}

/// A 68K caller waits while its callee writes.
fn m68_waits(rt: &impl Abort, alloc: Global, text: &str) {
    let (before, after) = (m68_file(0x1_FFF8), m68_file(0x1_FFFC));
    waits(rt, alloc, Isa::M68, text, before, after);
}

/// A PowerPC caller does.
fn ppc_waits(rt: &impl Abort, alloc: Global, text: &str) {
    waits(rt, alloc, Isa::Ppc, text, ppc_file(), ppc_file());
}

/// Pieces of a text, one behind the other.
fn joined(rt: &impl Abort, alloc: Global, pieces: &[&str]) -> String {
    let mut text = String::new(alloc);
    for piece in pieces {
        text.push_str(piece).expect(rt, "no text");
    }
    text
}

#[test]
fn callers_wait_while_callees_write_all_that_they_may(rt: HostRuntime) {
    let alloc = rt.alloc();
    let text = joined(&rt, alloc, &[M68_CALLER, DESCRIPTOR, PPC_FILLS, AROUND_M68]);
    m68_waits(&rt, alloc, &text);
    let text = joined(&rt, alloc, &[PPC_CALLER, DESCRIPTOR, PPC_FILLS, AROUND_PPC]);
    ppc_waits(&rt, alloc, &text);
}

#[test]
fn callers_wait_while_68k_code_writes_all_that_it_may(rt: HostRuntime) {
    let alloc = rt.alloc();
    let pieces = [M68_CALLER, DESCRIPTOR, CFM, " @68 ", M68_FILLS, AROUND_M68];
    m68_waits(&rt, alloc, &joined(&rt, alloc, &pieces));
    let pieces = [PPC_CALLER, " @40 ", M68_FILLS, AROUND_PPC];
    ppc_waits(&rt, alloc, &joined(&rt, alloc, &pieces));
}

/// A store that is refused.
fn refused(pc: u32, a: u32) -> Stop {
    Stop::Fault(Fault {
        kind: FaultKind::FrameStore,
        pc,
        detail: a,
        also: 0,
    })
}

/// A callee stores once and goes to this end; where it is refused, the caller waits as before.
fn ends(rt: &impl Abort, m: &mut Machine, around: &mut Outside, text: &str, wanted: Stop)
    requires { IsWhole m.old.body (isa_of m.old.active) }
    ensures { IsWhole m.new.body (isa_of m.new.active) }
{
    let held = call(rt, m, around);
    let stop = run_on(m, around, ALL);
    equal(rt, text, stop, wanted);
    if let Stop::Fault(_) = stop {
        equal(rt, text, innermost(m), Some(held));
    }
}

/// The same of a program from its start on.
fn stores(rt: &impl Abort, alloc: Global, main: Isa, text: &str, wanted: Stop) {
    let around = Outside::calm(rt, alloc, b"");
    let mut trial = Trial::begin(rt, alloc, main, 128, text, around);
    ends(rt, &mut trial.machine, &mut trial.around, text, wanted);
    trial.end();
}

/// PowerPC code stores once, and returns to 68K code.
fn ppc_stores(rt: &impl Abort, alloc: Global, code: &str, wanted: Stop) {
    let pieces = [M68_CALLER, DESCRIPTOR, " @68 ", code];
    let text = joined(rt, alloc, &pieces);
    stores(rt, alloc, Isa::M68, &text, wanted);
}

/// It returns, and the 68K code ends.
fn ppc_may_store(rt: &impl Abort, alloc: Global, code: &str) {
    ppc_stores(rt, alloc, code, Stop::Exit(0xD000_0000));
}

/// Its store at this address is refused.
fn ppc_may_not_store(rt: &impl Abort, alloc: Global, code: &str, a: u32) {
    ppc_stores(rt, alloc, code, refused(0x1_0070, a));
}

#[test]
fn stores_into_a_live_frame_are_refused(rt: HostRuntime) {
    let alloc = rt.alloc();
    // Bytes.
    ppc_may_store(&rt, alloc, "3CA00001 60A5FF7F 98650000 4E800020");
    ppc_may_not_store(&rt, alloc, "3CA00001 60A5FF80 98650000 4E800020", 0x1_FF80);
    ppc_may_not_store(&rt, alloc, "3CA00001 60A5FFEF 98650000 4E800020", 0x1_FFEF);
    ppc_may_store(&rt, alloc, "3CA00001 60A5FFF0 98650000 4E800020");
    // Words.
    ppc_may_store(&rt, alloc, "3CA00001 60A5FF7E B0650000 4E800020");
    ppc_may_not_store(&rt, alloc, "3CA00001 60A5FF7F B0650000 4E800020", 0x1_FF7F);
    // Longs.
    ppc_may_store(&rt, alloc, "3CA00001 60A5FF7C 90650000 4E800020");
    ppc_may_not_store(&rt, alloc, "3CA00001 60A5FF7D 90650000 4E800020", 0x1_FF7D);
    ppc_may_not_store(&rt, alloc, "3CA00001 60A5FFEF 90650000 4E800020", 0x1_FFEF);
    ppc_may_store(&rt, alloc, "3CA00001 60A5FFF0 90650000 4E800020");
}

/// 68K code stores once, and returns to PowerPC code.
fn m68_stores(rt: &impl Abort, alloc: Global, code: &str, wanted: Stop) {
    let text = joined(rt, alloc, &[PPC_CALLER, " @40 ", code]);
    stores(rt, alloc, Isa::Ppc, &text, wanted);
}

/// It returns, and the PowerPC code ends.
fn m68_may_store(rt: &impl Abort, alloc: Global, code: &str) {
    m68_stores(rt, alloc, code, Stop::Exit(0x1_0040));
}

/// Its store at this address is refused.
fn m68_may_not_store(rt: &impl Abort, alloc: Global, code: &str, a: u32) {
    m68_stores(rt, alloc, code, refused(0x1_0040, a));
}

#[test]
fn stores_of_68k_code_into_a_live_frame_are_refused(rt: HostRuntime) {
    let alloc = rt.alloc();
    // Bytes.
    m68_may_store(&rt, alloc, "13FC0008 0001FEFF 4E75");
    m68_may_not_store(&rt, alloc, "13FC0008 0001FF00 4E75", 0x1_FF00);
    m68_may_not_store(&rt, alloc, "13FC0008 0001FFBF 4E75", 0x1_FFBF);
    m68_may_store(&rt, alloc, "13FC0008 0001FFC0 4E75");
    // Words.
    m68_may_store(&rt, alloc, "33FC1008 0001FEFE 4E75");
    m68_may_not_store(&rt, alloc, "33FC1008 0001FF00 4E75", 0x1_FF00);
    // Longs.
    m68_may_store(&rt, alloc, "23FC0000 10080001 FEFC4E75");
    m68_may_not_store(&rt, alloc, "23FC0000 10080001 FEFE4E75", 0x1_FEFE);
    m68_may_not_store(&rt, alloc, "23FC0000 10080001 FFBE4E75", 0x1_FFBE);
    m68_may_store(&rt, alloc, "23FC0000 10080001 FFC04E75");
}
