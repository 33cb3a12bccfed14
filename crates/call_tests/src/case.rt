// Calls by code of both sets, each a row of a table: the function, the registers before the call, and all
// that it leaves. Registers of 68K code stand in the order A0, A1, D0, D1, those of PowerPC code from r3 on.
use crate::functions::{ASK_DEVICE, UNLOAD_SEG};
use dev_rack::Answer;
use m68_isa::{Ccr, Regs68};
use mix_bits::{Fault, FaultKind};
use ppc_isa::RegsPpc;
use switch_frame::Active;
use toolbox::HostOut;

/// Where the code runs.
pub const PC: u32 = 0x1_8000;

/// Where PowerPC code goes on, but for the low two bits.
const LINK: u32 = 0x1_9003;

/// One call of a function, as a row of a table: the function, the registers before it, and what it leaves.
#[derive(Clone, Copy)]
pub enum Case {
    /// 68K code goes on behind the trap, with the condition codes that it had, those of a 0, and those of a
    /// negative number.
    Kept(u32, [u32; 4], [u32; 4]),
    Zero(u32, [u32; 4], [u32; 4]),
    Negative(u32, [u32; 4], [u32; 4]),
    /// A call of 68K code goes so, and leaves each register as it was.
    Stays(u32, [u32; 4], HostOut),
    /// 68K code asks the device in slot D0 with the word in D1.
    Asks([u32; 4], Answer, [u32; 4]),
    /// 68K code unloads a segment, which removes its operand.
    Unloads([u32; 4]),
    /// PowerPC code goes on at its link, without the low two bits.
    Ppc(u32, [u32; 3], [u32; 3]),
    /// A call of PowerPC code goes so, and leaves each register as it was.
    PpcStays(u32, [u32; 3], HostOut),
    /// PowerPC code asks the device in slot r3 with the word in r4.
    PpcAsks([u32; 3], Answer, [u32; 3]),
}

/// One call of a function, how it goes, and the registers that it leaves.
#[derive(Clone, Copy)]
pub struct Call {
    pub function: u32,
    pub before: Active,
    pub out: HostOut,
    pub after: Active,
}

impl Case {
    pub fn call(self) -> Call {
        match self {
            Case::Kept(function, before, after) => m68_done(function, before, m68_behind(after)),
            Case::Zero(function, before, after) => {
                m68_coded(function, before, after, codes(false, true))
            }
            Case::Negative(function, before, after) => {
                m68_coded(function, before, after, codes(true, false))
            }
            Case::Stays(function, before, out) => stays(
                function,
                Active::M68(m68_regs(before)),
                out,
            ),
            Case::Asks(before, answer, after) => m68_asks(before, answer, after),
            Case::Unloads(before) => unloads(before),
            Case::Ppc(function, before, after) => ppc_done(function, before, after),
            Case::PpcStays(function, before, out) => {
                stays(function, Active::Ppc(ppc_regs(before)), out)
            }
            Case::PpcAsks(before, answer, after) => ppc_asks(before, answer, after),
        }
    }
}

/// 68K code goes on behind the trap, with these condition codes.
fn m68_coded(function: u32, before: [u32; 4], after: [u32; 4], ccr: Ccr) -> Call {
    let mut regs = m68_behind(after);
    regs.ccr = ccr;
    m68_done(function, before, regs)
}

/// A call of 68K code is done, and leaves this register file.
fn m68_done(function: u32, before: [u32; 4], after: Regs68) -> Call {
    Call {
        function,
        before: Active::M68(m68_regs(before)),
        out: HostOut::Done,
        after: Active::M68(after),
    }
}

fn m68_asks(before: [u32; 4], answer: Answer, after: [u32; 4]) -> Call {
    let mut call = m68_done(ASK_DEVICE, before, m68_behind(after));
    call.out = asked(before[2], before[3], answer);
    call
}

fn ppc_asks(before: [u32; 3], answer: Answer, after: [u32; 3]) -> Call {
    let mut call = ppc_done(ASK_DEVICE, before, after);
    call.out = asked(before[0], before[1], answer);
    call
}

fn asked(slot: u32, word: u32, answer: Answer) -> HostOut {
    HostOut::Asked { slot, word, answer }
}

fn unloads(before: [u32; 4]) -> Call {
    let mut regs = m68_behind(before);
    regs.a[7] = 0x1_F004;
    m68_done(UNLOAD_SEG, before, regs)
}

fn ppc_done(function: u32, before: [u32; 3], after: [u32; 3]) -> Call {
    let mut regs = ppc_regs(after);
    regs.pc = 0x1_9000;
    Call {
        function,
        before: Active::Ppc(ppc_regs(before)),
        out: HostOut::Done,
        after: Active::Ppc(regs),
    }
}

fn stays(function: u32, active: Active, out: HostOut) -> Call {
    Call {
        function,
        before: active,
        out,
        after: active,
    }
}

/// A refused access.
pub fn refused(kind: FaultKind, detail: u32) -> HostOut {
    HostOut::Stop(Fault {
        kind,
        pc: PC,
        detail,
        also: 0,
    })
}

/// 68K registers behind a trap, with the condition codes from before it.
fn m68_behind(four: [u32; 4]) -> Regs68 {
    let mut regs = m68_regs(four);
    regs.pc = PC + 2;
    regs
}

/// 68K registers with these four, and others that no call may touch.
fn m68_regs(four: [u32; 4]) -> Regs68 {
    let [a0, a1, d0, d1] = four;
    Regs68 {
        d: [d0, d1, 0xD2, 0xD3, 0xD4, 0xD5, 0xD6, 0xD7],
        a: [a0, a1, 0xA2, 0xA3, 0xA4, 0xA5, 0xA6, 0x1_F000],
        pc: PC,
        ccr: Ccr {
            x: true,
            n: true,
            z: true,
            v: true,
            c: true,
        },
    }
}

/// The condition codes with N and Z set so, V and C cleared, and X from before.
fn codes(n: bool, z: bool) -> Ccr {
    Ccr {
        x: true,
        n,
        z,
        v: false,
        c: false,
    }
}

/// PowerPC registers with r3 to r5, and others that no call may touch.
fn ppc_regs(three: [u32; 3]) -> RegsPpc {
    let mut gpr = [0x100; 32];
    gpr[3] = three[0];
    gpr[4] = three[1];
    gpr[5] = three[2];
    RegsPpc {
        gpr,
        cr: 0x2000_0000,
        lr: LINK,
        ctr: 0x304,
        xer: 0xE000_0005,
        pc: PC,
    }
}
