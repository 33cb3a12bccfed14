//! Runs programs over byte slices, as the C library does: one whose output is a byte, PowerPC code that calls 68K code, the
//! same with buffers that are too small, and the same cut after 9 steps and run on from its image.
//!
//! What it must print was worked out by hand from the programs.
#![tactic(auto)]

use slice_runs::{
    Lent, Program, Seen, Told, VERSION, advance, assemble, explain, list, look, resume, run,
};
use std::alloc::Global;

/// 68K code: `moveq #'H',d0`, PutByte, ExitToShell.
const HELLO: [u8; 6] = [0x70, 0x48, 0xAA, 0x80, 0xA9, 0xF4];

/// PowerPC code that calls 68K code through a descriptor at $10030, by CallUniversalProc, and exits with the result.
const CROSSING: [u8; 86] = [
    0x3C, 0x60, 0x00, 0x01, 0x60, 0x63, 0x00, 0x30, 0x3C, 0x80, 0x00, 0x13, 0x60, 0x84, 0x10, 0x72,
    0x3C, 0xA0, 0x7F, 0xFF, 0x60, 0xA5, 0x12, 0x34, 0x3C, 0xC0, 0x00, 0x02, 0x60, 0xC6, 0xDC, 0xBA,
    0x48, 0x00, 0x18, 0x0F, 0x48, 0x00, 0x18, 0x3A, 0x60, 0x00, 0x00, 0x00, 0x60, 0x00, 0x00, 0x00,
    0xAA, 0xFE, 0x07, 0x00, 0x00, 0x00, 0x00, 0x00, 0x00, 0x00, 0x00, 0x00, 0x00, 0x13, 0x10, 0x72,
    0x00, 0x00, 0x00, 0x00, 0x00, 0x01, 0x00, 0x50, 0x00, 0x00, 0x00, 0x00, 0x00, 0x00, 0x00, 0x00,
    0x22, 0x08, 0xD2, 0x80, 0x4E, 0x75,
];

/// A flat file of the usual set, and one of PowerPC code.
const FLAT: Program = Program {
    kind: 0,
    main: 0,
    kib: 128,
};

const POWERPC: Program = Program {
    kind: 0,
    main: 2,
    kib: 128,
};

/// Room for an image of 128 KiB of RAM.
const IMAGE_ROOM: usize = 200_000;

fn main(rt: HostRuntime) -> anyhow::Result<()> {
    let alloc = rt.alloc();
    runs(&rt, alloc)?;
    refusals(&rt, alloc)?;
    continued(&rt, alloc)?;
    in_steps(&rt, alloc)?;
    texts(&rt, alloc)?;
    versions(&rt)
}

/// The files of a call, and no input.
fn lent(first: &[u8]) -> Lent<'_> {
    Lent {
        first,
        second: &[],
        input: &[],
    }
}

fn runs(rt: &HostRuntime, alloc: Global) -> anyhow::Result<()> {
    tell_run(rt, alloc, "hello", FLAT, &HELLO, 64, 64)?;
    tell_run(rt, alloc, "crossing", POWERPC, &CROSSING, 64, 96)?;
    tell_run(rt, alloc, "no room for output", FLAT, &HELLO, 0, 64)?;
    tell_run(
        rt,
        alloc,
        "no room for the trace",
        POWERPC,
        &CROSSING,
        64,
        9,
    )
}

fn refusals(rt: &HostRuntime, alloc: Global) -> anyhow::Result<()> {
    let other = Program {
        kind: 0,
        main: 3,
        kib: 128,
    };
    tell_run(rt, alloc, "no set", other, &HELLO, 64, 64)?;
    tell_run(rt, alloc, "no file", FLAT, &[], 64, 64)
}

/// Runs a program with so much room for its output and its trace, and prints what they hold.
fn tell_run(
    rt: &HostRuntime,
    alloc: Global,
    name: &str,
    program: Program,
    file: &[u8],
    out_room: usize,
    trace_room: usize,
) -> anyhow::Result<()> {
    let mut out = Vec::from_elem(alloc, b'.', out_room)?;
    let mut trace = Vec::from_elem(alloc, b'.', trace_room)?;
    let mut told = Told::default();
    let status = run(
        alloc,
        program,
        1000,
        lent(file),
        &mut out,
        &mut trace,
        &mut [],
        &mut told,
    );
    println!(rt; "{name}: status {status}, {told:?}")?;
    print(rt, alloc, &out, told.out)?;
    print(rt, alloc, &trace, told.trace)
}

/// Runs the crossing for 9 steps, keeps its machine, and runs that on.
fn continued(rt: &HostRuntime, alloc: Global) -> anyhow::Result<()> {
    let mut image = kept_after(rt, alloc, "cut", 9)?;
    print(rt, alloc, &image, 8)?;
    tell_look(rt, alloc, &image)?;
    tell_rest(rt, alloc, "continued", &image)?;
    let _ = image.pop();
    tell_rest(rt, alloc, "a byte fewer", &image)
}

/// The image of the crossing after so many steps.
fn kept_after(rt: &HostRuntime, alloc: Global, name: &str, steps: u32) -> anyhow::Result<Vec<u8>> {
    let mut trace = Vec::from_elem(alloc, b'.', 96)?;
    let mut image = Vec::from_elem(alloc, 0u8, IMAGE_ROOM)?;
    let mut told = Told::default();
    let status = run(
        alloc,
        POWERPC,
        steps,
        lent(&CROSSING),
        &mut [],
        &mut trace,
        &mut image,
        &mut told,
    );
    println!(rt; "{name}: status {status}, {} steps", told.steps)?;
    print(rt, alloc, &trace, told.trace)?;
    image.truncate(told.kept);
    Ok(image)
}

/// Reads registers and memory of a machine.
fn tell_look(rt: &HostRuntime, alloc: Global, image: &[u8]) -> anyhow::Result<()> {
    let mut longs = [0; 40];
    let mut bytes = [0; 4];
    let mut seen = Seen::default();
    let status = look(alloc, image, 0x10020, &mut longs, &mut bytes, &mut seen);
    println!(rt; "look: status {status}, {seen:?}")?;
    println!(rt; "r5 {:08X}, pc {:08X}, {bytes:?}", longs[5], longs[36])?;
    Ok(())
}

/// Runs a machine on to its end.
fn tell_rest(rt: &HostRuntime, alloc: Global, name: &str, image: &[u8]) -> anyhow::Result<()> {
    let mut trace = Vec::from_elem(alloc, b'.', 96)?;
    let mut told = Told::default();
    let status = resume(
        alloc,
        1000,
        lent(image),
        &mut [],
        &mut trace,
        &mut [],
        &mut told,
    );
    println!(rt; "{name}: status {status}, {} steps", told.steps)?;
    print(rt, alloc, &trace, told.trace)
}

/// Runs the crossing from the image of its start, 10 steps at a time.
fn in_steps(rt: &HostRuntime, alloc: Global) -> anyhow::Result<()> {
    let start = kept_after(rt, alloc, "start", 0)?;
    let first = ten_more(rt, alloc, &start)?;
    let second = ten_more(rt, alloc, &first)?;
    let _ = ten_more(rt, alloc, &second)?;
    Ok(())
}

/// The image of a machine after 10 more steps.
fn ten_more(rt: &HostRuntime, alloc: Global, image: &[u8]) -> anyhow::Result<Vec<u8>> {
    let mut trace = Vec::from_elem(alloc, b'.', 96)?;
    let mut next = Vec::from_elem(alloc, 0u8, IMAGE_ROOM)?;
    let mut told = Told::default();
    let mut left = 0;
    let status = advance(
        alloc,
        image,
        10,
        &[],
        &mut [],
        &mut trace,
        &mut next,
        &mut told,
        &mut left,
    );
    println!(rt;
        "10 steps: status {status}, {} done, {left} left",
        told.steps
    )?;
    print(rt, alloc, &trace, told.trace)?;
    next.truncate(told.kept);
    Ok(next)
}

/// Lists a program, assembles the listing, and tells what a procInfo word says.
fn texts(rt: &HostRuntime, alloc: Global) -> anyhow::Result<()> {
    let listing = listed(rt, alloc)?;
    tell_bytes(rt, alloc, 1, 0x10000, &listing)?;
    tell_bytes(rt, alloc, 2, 0xABCDEF12, &listing)?;
    let mut words = Vec::from_elem(alloc, b'.', 512)?;
    let mut told = Told::default();
    let status = explain(alloc, 0x0013_1072, &mut words, &mut told);
    println!(rt; "explain: status {status}, {told:?}")?;
    print(rt, alloc, &words, told.out)
}

/// The listing of the first program.
fn listed(rt: &HostRuntime, alloc: Global) -> anyhow::Result<Vec<u8>> {
    let mut text = Vec::from_elem(alloc, b'.', 96)?;
    let mut told = Told::default();
    let status = list(
        alloc,
        FLAT,
        0x10000,
        3,
        lent(&HELLO),
        &mut text,
        &mut [],
        &mut told,
    );
    println!(rt; "list: status {status}, {told:?}")?;
    print(rt, alloc, &text, told.out)?;
    text.truncate(told.out);
    Ok(text)
}

/// Assembles a text, and says whether its bytes are those of the first program.
fn tell_bytes(
    rt: &HostRuntime,
    alloc: Global,
    set: u32,
    at: u32,
    text: &[u8],
) -> anyhow::Result<()> {
    let mut bytes = [b'.'; 8];
    let mut trace = Vec::from_elem(alloc, b'.', 64)?;
    let mut told = Told::default();
    let status = assemble(
        alloc,
        set,
        at,
        lent(text),
        &mut bytes,
        &mut trace,
        &mut told,
    );
    let is_same = bytes.starts_with(&HELLO);
    println!(rt; "assemble: status {status}, {told:?}, the same: {is_same}")?;
    print(rt, alloc, &trace, told.trace)
}

/// Prints the version of the library, and that of the program mixedrun.
fn versions(rt: &HostRuntime) -> anyhow::Result<()> {
    let [_, major, minor, change] = VERSION.to_be_bytes();
    print!(rt; "version {major}.{minor}.{change}, {}", mix_main::VERSION)?;
    Ok(())
}

/// Prints the first bytes of a buffer as text, at most so many.
fn print(rt: &HostRuntime, alloc: Global, buffer: &[u8], count: usize) -> anyhow::Result<()> {
    let front = &buffer[..count.min(buffer.len())];
    let text = String::from_utf8(Vec::from_slice(alloc, front)?)?;
    println!(rt; "{text}")?;
    Ok(())
}
