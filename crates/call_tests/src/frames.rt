// Switch frames: their layout, the callers that they give back, and where there is room for them.
ghost use Rattle.std.specs.Prelude.{◌≡◌, ◌+◌, ◌*◌, ◌%◌, ◌^◌, ◌<◌, ◌≤◌, [], length, IfOk, OnOk};
ghost use Rattle.switch_frame.specs.CallsClauses.{IsCalled};
ghost use Rattle.switch_frame.specs.Chain.{Chain, Links, records};
ghost use Rattle.switch_frame.specs.Records.{isa_of};
ghost use Rattle.switch_frame.specs.Sets.{caller_isa, callee_isa};
ghost use Rattle.switch_frame.specs.declared.active.Active.{Active};

use big_memory::{NoMemory, Ram};
use m68_isa::{Ccr, Regs68};
use mix_bits::{Isa, Size};
use ppc_isa::RegsPpc;
use std::process::Abort;
use std::test::Fail;
use switch_frame::{Active, Full, Held, Kind, depth, outer_lo, pop, push, room, top};

fn memory(rt: &HostRuntime, bytes: u32) -> Result<Ram, NoMemory>
    requires least { 131072 ≤ bytes }
    requires most { bytes ≤ 16777216 }
    requires whole { bytes % 1024 ≡ 0 }
    ensures chain { IfOk result (λ ram. Chain ram 0 (records ram.bytes 0)) }
    ensures empty { IfOk result (λ ram. records ram.bytes 0 ≡ []) }
{
    Ram::new(rt.alloc(), bytes)
}

fn m68_caller() -> Active
    ensures { isa_of result ≡ Isa.M68 }
{
    Active::M68(Regs68 {
        d: [0xD0, 0xD1, 0xD2, 0xD3, 0xD4, 0xD5, 0xD6, 0xFFFF_FFD7],
        a: [0xA0, 0xA1, 0xA2, 0xA3, 0xA4, 0xA5, 0xA6, 0xF_FFEE],
        pc: 0x1_0014,
        ccr: Ccr {
            x: true,
            n: false,
            z: false,
            v: true,
            c: false,
        },
    })
}

fn ppc_caller() -> Active
    ensures { isa_of result ≡ Isa.Ppc }
{
    Active::Ppc(RegsPpc {
        gpr: [
            0x100,
            0x101,
            0x102,
            0x103,
            0x104,
            0x105,
            0x106,
            0x107,
            0x108,
            0x109,
            0x10A,
            0x10B,
            0x10C,
            0x10D,
            0x10E,
            0x10F,
            0x110,
            0x111,
            0x112,
            0x113,
            0x114,
            0x115,
            0x116,
            0x117,
            0x118,
            0x119,
            0x11A,
            0x11B,
            0x11C,
            0x11D,
            0x11E,
            0xFFFF_FF1F,
        ],
        cr: 0x2000_0000,
        lr: 0x1_0203,
        ctr: 0x304,
        xer: 0xE000_0005,
        pc: 0x1_0200,
    })
}

/// Suspends a caller where there is room for it, in a call of two Pascal parameters.
fn suspend(
    ram: &mut Ram,
    innermost: &mut u32,
    sp: u32,
    kind: Kind,
    caller: Active,
) -> Result<Held, Full>
    requires chain { Chain ram.old innermost.old (records ram.old.bytes innermost.old) }
    requires kind { caller_isa kind ≡ isa_of caller }
    requires called { IsCalled caller (records ram.old.bytes innermost.old) }
    ensures chain { Chain ram.new innermost.new (records ram.new.bytes innermost.new) }
    ensures called { OnOk result ((next : Active) → callee_isa kind ≡ isa_of next → IsCalled next (records ram.new.bytes innermost.new)) }
{
    let (lo, hi) = room(ram, *innermost, sp, kind, 64)?;
    let depth = depth(ram, *innermost) + 1;
    let held = Held {
        kind,
        caller,
        info: 0x3B0,
        selector: 0x0A0B,
        target: 0x1_0040,
        lo,
        hi,
        want_sp: 0xF_FF30,
        depth,
    };
    push(ram, innermost, &held);
    Ok(held)
}

/// Whether these longs stand from `a` on.
fn holds(ram: &Ram, a: u32, longs: &[u32]) -> bool
    requires { a + 4 * length longs.now < 2 ^ 32 }
{
    for (k, long) in longs.iter().enumerate() {
        if ram.load(a + 4 * k as u32, Size::Four) != Ok(*long) {
            return false;
        }
    }
    true
}

/// Whether a caller is this one. Its contract says nothing, so that callers' proofs stay small.
fn is_held(held: Option<Held>, wanted: &Held) -> bool {
    held == Some(*wanted)
}

/// Whether a frame has this range and depth.
fn lies(held: &Held, lo: u32, hi: u32, depth: u32) -> bool {
    held.lo == lo && held.hi == hi && held.depth == depth
}

/// Whether the frame at `innermost` and the three outside it hold these callers.
fn reads(rt: &impl Abort, ram: &Ram, innermost: u32, callers: [&Held; 4])
    requires { Links ram.now innermost (records ram.now.bytes innermost) }
{
    let mut lo = innermost;
    for held in callers {
        assert!(rt; is_held(top(ram, lo), held));
        assert!(rt; lo > 0);
        lo = outer_lo(ram, lo);
    }
    assert!(rt; top(ram, lo).is_none());
}

/// Pops the innermost frame, which holds this caller.
fn pops(rt: &impl Abort, ram: &mut Ram, innermost: &mut u32, wanted: &Held)
    requires { Chain ram.old innermost.old (records ram.old.bytes innermost.old) }
    ensures { Chain ram.new innermost.new (records ram.new.bytes innermost.new) }
{
    assert!(rt; *innermost > 0);
    let held = pop(ram, innermost);
    assert!(rt; is_held(Some(held), wanted));
}

#[test]
fn a_frame_of_each_kind_is_read_and_popped(rt: HostRuntime) -> Result<(), Fail> {
    let mut ram = memory(&rt, 0x10_0000)?;
    let mut innermost = 0;
    let first = suspend(
        &mut ram,
        &mut innermost,
        0xF_FFEE,
        Kind::M68ToPpc,
        m68_caller(),
    )?;
    let second = suspend(
        &mut ram,
        &mut innermost,
        0xF_FF30,
        Kind::PpcToPpc,
        ppc_caller(),
    )?;
    let third = suspend(
        &mut ram,
        &mut innermost,
        0xF_FE3F,
        Kind::PpcToM68,
        ppc_caller(),
    )?;
    assert!(rt; lies(&first, 0xF_FF70, 0xF_FFE0, 1));
    assert!(rt; lies(&second, 0xF_FE70, 0xF_FF30, 2));
    let fourth = suspend(
        &mut ram,
        &mut innermost,
        0xF_FD70,
        Kind::M68ToM68,
        m68_caller(),
    )?;
    assert!(rt; lies(&third, 0xF_FD70, 0xF_FE30, 3));
    assert!(rt; lies(&fourth, 0xF_FD00, 0xF_FD70, 4));
    reads(&rt, &ram, innermost, [&fourth, &third, &second, &first]);
    pops(&rt, &mut ram, &mut innermost, &fourth);
    pops(&rt, &mut ram, &mut innermost, &third);
    pops(&rt, &mut ram, &mut innermost, &second);
    pops(&rt, &mut ram, &mut innermost, &first);
    assert!(rt; innermost == 0);
    assert!(rt; holds(&ram, 0xF_FD00, &[0; 184]));
    Ok(())
}

/// The frame of the 68K caller above, as it lies outermost.
fn m68_frame() -> [u32; 28] {
    [
        0,
        1,
        0x3B0,
        0x0A0B,
        0x1_0040,
        0xF_FFE0,
        0xF_FF30,
        1,
        0xD0,
        0xD1,
        0xD2,
        0xD3,
        0xD4,
        0xD5,
        0xD6,
        0xFFFF_FFD7,
        0xA0,
        0xA1,
        0xA2,
        0xA3,
        0xA4,
        0xA5,
        0xA6,
        0xF_FFEE,
        0x1_0014,
        0b10010,
        0,
        0,
    ]
}

/// The first and the last nine longs of the frame of the PowerPC caller, as it lies inside that one.
fn ppc_frame() -> ([u32; 9], [u32; 9]) {
    (
        [
            0xF_FF70, 2, 0x3B0, 0x0A0B, 0x1_0040, 0xF_FF30, 0xF_FF30, 2, 0x100,
        ],
        [
            0xFFFF_FF1F,
            0x2000_0000,
            0x1_0203,
            0x304,
            0xE000_0005,
            0x1_0200,
            0,
            0,
            0,
        ],
    )
}

#[test]
fn a_frame_has_its_fields_where_the_layout_says(rt: HostRuntime) -> Result<(), Fail> {
    let mut ram = memory(&rt, 0x10_0000)?;
    let mut innermost = 0;
    suspend(
        &mut ram,
        &mut innermost,
        0xF_FFEE,
        Kind::M68ToPpc,
        m68_caller(),
    )?;
    suspend(
        &mut ram,
        &mut innermost,
        0xF_FF30,
        Kind::PpcToM68,
        ppc_caller(),
    )?;
    suspend(
        &mut ram,
        &mut innermost,
        0xF_FE70,
        Kind::M68ToM68,
        m68_caller(),
    )?;
    let (head, tail) = ppc_frame();
    assert!(rt; holds(&ram, 0xF_FF70, &m68_frame()));
    assert!(rt; holds(&ram, 0xF_FE70, &head));
    assert!(rt; holds(&ram, 0xF_FF0C, &tail));
    assert!(rt;
        holds(
            &ram,
            0xF_FE00,
            &[
                0xF_FE70, 4, 0x3B0, 0x0A0B, 0x1_0040, 0xF_FE70, 0xF_FF30, 3, 0xD0
            ]
        )
    );
    Ok(())
}

/// Suspends as many PowerPC callers, each where the one outside it ends.
fn fill(ram: &mut Ram, innermost: &mut u32, count: u32) -> Result<(), Full>
    requires chain { Chain ram.old innermost.old (records ram.old.bytes innermost.old) }
    requires called { (next : Active) → callee_isa (Kind.PpcToPpc) ≡ isa_of next → IsCalled next (records ram.old.bytes innermost.old) }
    ensures { Chain ram.new innermost.new (records ram.new.bytes innermost.new) }
{
    let mut sp = 0x10_0000;
    for _ in 0..count {
        suspend(ram, innermost, sp, Kind::PpcToPpc, ppc_caller())?;
        sp = *innermost;
    }
    Ok(())
}

#[test]
fn a_kind_names_the_sets_of_caller_and_callee(rt: HostRuntime) -> Result<(), Fail> {
    let kinds = [
        (Kind::M68ToPpc, Isa::M68, Isa::Ppc),
        (Kind::PpcToM68, Isa::Ppc, Isa::M68),
        (Kind::PpcToPpc, Isa::Ppc, Isa::Ppc),
        (Kind::M68ToM68, Isa::M68, Isa::M68),
    ];
    for (kind, caller, callee) in kinds {
        assert_eq!(rt; kind.caller(), caller);
        assert_eq!(rt; kind.callee(), callee);
        assert_eq!(rt; Kind::of(caller, callee), kind);
    }
    Ok(())
}

#[test]
fn after_256_frames_there_is_no_room(rt: HostRuntime) -> Result<(), Fail> {
    let mut ram = memory(&rt, 0x10_0000)?;
    let mut innermost = 0;
    fill(&mut ram, &mut innermost, 256)?;
    assert!(rt; innermost == 0xF_4000);
    let more = [
        (innermost, Kind::PpcToPpc, 64, Err(Full::Frames)),
        (0, Kind::PpcToPpc, 64, Err(Full::Frames)),
    ];
    gives(&rt, &ram, innermost, &more);
    Ok(())
}

/// Whether two answers are one.
fn is_room(found: Result<(u32, u32), Full>, wanted: &Result<(u32, u32), Full>) -> bool {
    found == *wanted
}

/// Tries `room` for stack pointers, kinds and bytes below the frame.
fn gives(
    rt: &impl Abort,
    ram: &Ram,
    innermost: u32,
    cases: &[(u32, Kind, u32, Result<(u32, u32), Full>)],
)
    requires { Chain ram.now innermost (records ram.now.bytes innermost) }
{
    for (sp, kind, below, wanted) in cases {
        assert!(rt; *below <= 128);
        assert!(rt; is_room(room(ram, innermost, *sp, *kind, *below), wanted));
    }
}

fn without_a_frame() -> [(u32, Kind, u32, Result<(u32, u32), Full>); 10] {
    [
        (0xB_FFFF, Kind::M68ToPpc, 0, Err(Full::Outside(0xB_FFFF))),
        (0x10_0001, Kind::M68ToPpc, 0, Err(Full::Outside(0x10_0001))),
        (0x10_0000, Kind::M68ToPpc, 128, Ok((0xF_FF90, 0x10_0000))),
        (0xC_0000, Kind::M68ToPpc, 0, Err(Full::Stack(0xB_FF90))),
        (0xC_006F, Kind::M68ToPpc, 0, Err(Full::Stack(0xB_FFF0))),
        (0xC_0070, Kind::M68ToPpc, 0, Ok((0xC_0000, 0xC_0070))),
        (0xC_0070, Kind::M68ToPpc, 1, Err(Full::Stack(0xB_FFFF))),
        (0xC_00FF, Kind::M68ToPpc, 128, Ok((0xC_0080, 0xC_00F0))),
        (0xC_00BF, Kind::PpcToM68, 0, Err(Full::Stack(0xB_FFF0))),
        (0xC_00CF, Kind::PpcToM68, 0, Ok((0xC_0000, 0xC_00C0))),
    ]
}

fn inside_a_frame() -> [(u32, Kind, u32, Result<(u32, u32), Full>); 4] {
    [
        (0xF_FF70, Kind::PpcToPpc, 64, Ok((0xF_FEB0, 0xF_FF70))),
        (0xF_FF71, Kind::PpcToPpc, 64, Err(Full::Crossed(0xF_FF70))),
        (0x10_0000, Kind::PpcToPpc, 64, Err(Full::Crossed(0xF_FF70))),
        (0x10_0001, Kind::PpcToPpc, 64, Err(Full::Outside(0x10_0001))),
    ]
}

#[test]
fn room_ends_where_it_should(rt: HostRuntime) -> Result<(), Fail> {
    let mut ram = memory(&rt, 0x10_0000)?;
    let mut innermost = 0;
    gives(&rt, &ram, innermost, &without_a_frame());
    suspend(
        &mut ram,
        &mut innermost,
        0xF_FFEE,
        Kind::M68ToPpc,
        m68_caller(),
    )?;
    gives(&rt, &ram, innermost, &inside_a_frame());
    Ok(())
}
