// An input, an output or a trace that fails while a machine runs.
ghost use Rattle.switch_frame.specs.Records.{isa_of};
ghost use Rattle.mixed_machine.specs.Machine.{IsWhole};

use crate::bench::{Faults, Outside, Trial, waiting};
use crate::equal::equal;
use mix_bits::Isa;
use mix_engine::{Machine, Stop};
use std::alloc::Global;
use std::process::Abort;
use switch_frame::Active;

/// Puts its input.
const ECHO_68K: &str = "AA814A80 6B04AA80 60F6AA85";

const ECHO_PPC: &str = "4800182B 2C030000 4180000C 48001827 4BFFFFF0 4800183A";

/// Puts eight bytes.
const BLOCK: &str = "41FA0008 7008AA82 AA856162 63646566 6768";

/// 68K code that calls PowerPC code, which adds 1 to its long.
const CALL: &str = "
2F3C0000 00414EB9 00010020 588FAA85
@20 AAFE0700 00000000 00000000 000000F1 00010000 00010040 00000000 00000000
00010048 00000000 38630001 4E800020
";

/// The lines of that call.
const FIRST: &str = "call 68k ppc 00010040 000000F1 00000041
";

const SECOND: &str = "ret 00000042
";

/// Asks the counter with 5, and ends with its answer.
const ASK: &str = "70007205 AA832001 AA85";

/// The place of code, and its register D0 or r3.
fn place(active: &Active) -> (u32, u32) {
    match active {
        Active::M68(regs) => (regs.pc, regs.d[0]),
        Active::Ppc(regs) => (regs.pc, regs.gpr[3]),
    }
}

/// A run that stops as its outside fails.
#[derive(Clone, Copy)]
struct Row<'a> {
    main: Isa,
    text: &'a str,
    /// The call of the input that fails, and those of the output and of the trace; 0 where none does.
    input: u32,
    out: u32,
    trace: u32,
    /// How much the output takes.
    room: u32,
    stop: Stop,
    /// How many steps are done then.
    steps: u32,
    pc: u32,
    /// What D0 or r3 holds then.
    value: u32,
    /// The output, the trace and the end once the run went on.
    bytes: &'a [u8],
    lines: &'a str,
    end: Stop,
}

/// The first byte is not read.
const READ_68K: Row<'static> = Row {
    main: Isa::M68,
    text: ECHO_68K,
    input: 1,
    out: 0,
    trace: 0,
    room: 8,
    stop: Stop::ReadFault,
    steps: 0,
    pc: 0x1_0000,
    value: 0,
    bytes: b"abc",
    lines: "",
    end: Stop::Exit(u32::MAX),
};

const READ_PPC: Row<'static> = Row {
    main: Isa::Ppc,
    text: ECHO_PPC,
    steps: 1,
    pc: 0x1828,
    ..READ_68K
};

/// No byte of the block is put.
const BLOCK_PUT: Row<'static> = Row {
    text: BLOCK,
    input: 0,
    out: 1,
    stop: Stop::OutFault,
    steps: 2,
    pc: 0x1_0006,
    value: 8,
    bytes: b"abcdefgh",
    end: Stop::Exit(8),
    ..READ_68K
};

/// The line of the call is not told.
const CALL_TOLD: Row<'static> = Row {
    text: CALL,
    input: 0,
    trace: 1,
    stop: Stop::TraceFault,
    steps: 3,
    pc: 0x1_0048,
    value: 0x41,
    bytes: b"",
    lines: SECOND,
    end: Stop::Exit(66),
    ..READ_68K
};

/// Where a calm run of a row's program is after the row's steps, and how many callers wait then.
fn calm(rt: &impl Abort, alloc: Global, row: &Row) -> (Active, u32) {
    let around = Outside::calm(rt, alloc, b"abc");
    let mut trial = Trial::begin(rt, alloc, row.main, 128, row.text, around);
    let _ = trial.run(row.steps);
    let at = (trial.machine.active, waiting(&trial.machine));
    trial.end();
    at
}

/// What is outside of a row's run.
fn outside(rt: &impl Abort, alloc: Global, row: &Row) -> Outside {
    let faults = Faults {
        input: &[row.input],
        out: &[row.out],
        trace: &[row.trace],
        room: row.room,
    };
    Outside::new(rt, alloc, b"abc", faults)
}

/// A run stops as a row says, at a place of code, with the registers and the callers of a calm run at that step.
fn is_at(rt: &impl Abort, m: &Machine, row: &Row, calm: (Active, u32))
    requires { IsWhole m.now.body (isa_of m.now.active) }
{
    equal(rt, "the place", place(&m.active), (row.pc, row.value));
    equal(rt, "the step", (m.active, waiting(m)), calm);
}

/// Output and trace have what a row says.
fn puts(rt: &impl Abort, around: &Outside, row: &Row) {
    equal(rt, "the output", around.out.held(), row.bytes);
    equal(rt, "the trace", around.trace.held(), row.lines.as_bytes());
}

/// A run stops and goes on as a row says.
fn stops(rt: &impl Abort, alloc: Global, row: &Row) {
    let here = calm(rt, alloc, row);
    let around = outside(rt, alloc, row);
    let mut trial = Trial::begin(rt, alloc, row.main, 128, row.text, around);
    equal(rt, "the stop", trial.run(1000), row.stop);
    is_at(rt, &trial.machine, row, here);
    equal(rt, "the end", trial.run(1000), row.end);
    puts(rt, &trial.around, row);
    trial.end();
}

/// All rows are so.
fn all_stop(rt: &impl Abort, alloc: Global, rows: &[Row]) {
    for row in rows {
        stops(rt, alloc, row);
    }
}

/// A byte is not read, by code of both sets.
static READS: [Row<'static>; 5] = [
    READ_68K,
    Row {
        input: 2,
        steps: 5,
        value: 0x61,
        ..READ_68K
    },
    Row {
        input: 4,
        steps: 15,
        value: 0x63,
        ..READ_68K
    },
    READ_PPC,
    Row {
        input: 2,
        steps: 8,
        ..READ_PPC
    },
];

#[test]
fn a_run_stops_where_its_outside_fails_and_goes_on(rt: HostRuntime) {
    all_stop(&rt, rt.alloc(), &READS);
}

/// A byte is not put.
const PUT: Row<'static> = Row {
    input: 0,
    out: 2,
    stop: Stop::OutFault,
    value: 0x62,
    ..READ_68K
};

/// A byte is not put, by code of both sets, nor a block, nor all of it.
static PUTS: [Row<'static>; 4] = [
    Row {
        steps: 8,
        pc: 0x1_0006,
        ..PUT
    },
    Row {
        main: Isa::Ppc,
        text: ECHO_PPC,
        steps: 12,
        pc: 0x1824,
        ..PUT
    },
    BLOCK_PUT,
    Row {
        out: 0,
        room: 5,
        bytes: b"abcde",
        end: Stop::OutFault,
        ..BLOCK_PUT
    },
];

#[test]
fn a_put_that_fails_is_tried_again(rt: HostRuntime) {
    all_stop(&rt, rt.alloc(), &PUTS);
}

/// The line of a call is not told, that of a return, and that of an ask.
static LINES: [Row<'static>; 3] = [
    CALL_TOLD,
    Row {
        trace: 2,
        steps: 6,
        pc: 0x1_000C,
        value: 0x42,
        lines: FIRST,
        ..CALL_TOLD
    },
    Row {
        text: ASK,
        pc: 0x1_0006,
        value: 0,
        lines: "",
        end: Stop::Exit(5),
        ..CALL_TOLD
    },
];

#[test]
fn a_step_is_done_though_its_line_is_not_told(rt: HostRuntime) {
    all_stop(&rt, rt.alloc(), &LINES);
}
