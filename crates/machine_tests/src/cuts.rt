// Runs that are cut and continued.
ghost use Rattle.switch_frame.specs.Records.{isa_of};
ghost use Rattle.mixed_machine.specs.Machine.{IsWhole};

use crate::bench::{Left, Outside, Trial, innermost, same, waiting};
use crate::equal::equal;
use crate::programs::{CFM_ALONE, CFM_BETWEEN, INPUT_68K, INPUT_PPC, MIXED_CALLS, SAMPLE};
use crate::text::count_lines;
use mix_bits::{Fault, FaultKind, Isa};
use mix_engine::{Machine, Stop};
use std::alloc::Global;
use std::process::Abort;

/// Letters, and bytes beside them.
const LETTERS: &[u8] = b"Aaz[`\x00\xFF";

/// More steps than any program here does.
const ALL: u32 = 100_000;

/// A program and its input.
#[derive(Clone, Copy)]
struct Sample<'a> {
    main: Isa,
    text: &'a str,
    input: &'a [u8],
}

/// A program at its start.
fn begin(rt: &impl Abort, alloc: Global, sample: Sample) -> Trial
    ensures { IsWhole result.machine.body (isa_of result.machine.active) }
{
    let around = Outside::calm(rt, alloc, sample.input);
    Trial::begin(rt, alloc, sample.main, 128, sample.text, around)
}

/// Runs a program for so many steps, and then to its end. The first answer is how it stopped at the cut.
fn cut(rt: &impl Abort, alloc: Global, sample: Sample, steps: u32) -> (Stop, Left) {
    let mut trial = begin(rt, alloc, sample);
    let first = trial.run(steps);
    let last = match first {
        Stop::Limit => trial.run(ALL),
        stop => stop,
    };
    (first, trial.leave(rt, alloc, last))
}

/// Runs a machine in pieces of so many steps each, and answers how it stops.
fn run_pieces(trial: &mut Trial, steps: u32) -> Stop
    requires { IsWhole trial.old.machine.body (isa_of trial.old.machine.active) }
    ensures { IsWhole trial.new.machine.body (isa_of trial.new.machine.active) }
{
    'pieces: for _ in 0..ALL {
        let stop = trial.run(steps);
        if stop != Stop::Limit {
            return stop;
        }
    }
    Stop::Limit
}

/// Runs a program in pieces of so many steps each.
fn cut_often(rt: &impl Abort, alloc: Global, sample: Sample, steps: u32) -> Left {
    let mut trial = begin(rt, alloc, sample);
    let stop = run_pieces(&mut trial, steps);
    trial.leave(rt, alloc, stop)
}

/// A run that is cut into pieces of so many steps leaves what the run in one piece left.
fn is_cut_often(rt: &impl Abort, alloc: Global, sample: Sample, whole: &Left, steps: u32) {
    let pieces = cut_often(rt, alloc, sample, steps);
    same(rt, &pieces, whole, steps);
}

/// The same of a run that is cut once, after so many steps. The answer is how it stopped there.
fn is_cut(rt: &impl Abort, alloc: Global, sample: Sample, whole: &Left, steps: u32) -> Stop {
    let (first, pieces) = cut(rt, alloc, sample, steps);
    same(rt, &pieces, whole, steps);
    first
}

/// The same of a run that is cut once, after each of its steps.
fn is_cut_after_each(rt: &impl Abort, alloc: Global, sample: Sample, whole: &Left) {
    for steps in 0..ALL {
        let first = is_cut(rt, alloc, sample, whole, steps);
        if first != Stop::Limit {
            return;
        }
    }
    panic!(rt; "the program does not end");
}

/// Cuts a program into pieces, and after each of its steps, and compares with the run in one piece.
fn cut_each(rt: &impl Abort, alloc: Global, main: Isa, text: &str, input: &[u8]) {
    let sample = Sample { main, text, input };
    let (first, whole) = cut(rt, alloc, sample, ALL);
    assert!(rt; first != Stop::Limit);
    is_cut_often(rt, alloc, sample, &whole, 1);
    is_cut_often(rt, alloc, sample, &whole, 2);
    is_cut_often(rt, alloc, sample, &whole, 3);
    is_cut_often(rt, alloc, sample, &whole, 7);
    is_cut_after_each(rt, alloc, sample, &whole);
}

#[test]
fn a_run_that_is_cut_goes_on_as_if_it_were_not(rt: HostRuntime) {
    let alloc = rt.alloc();
    cut_each(&rt, alloc, Isa::M68, INPUT_68K, LETTERS);
    cut_each(&rt, alloc, Isa::Ppc, INPUT_PPC, LETTERS);
    cut_each(&rt, alloc, Isa::M68, MIXED_CALLS, b"");
}

/// The same of the sample with a change, to a depth of 3.
fn cut_sample(rt: &impl Abort, alloc: Global, change: &str) {
    let text = sample_to(rt, alloc, 3, change);
    cut_each(rt, alloc, Isa::M68, &text, b"");
}

#[test]
fn a_run_of_cfm_68k_code_that_is_cut_goes_on_as_if_it_were_not(rt: HostRuntime) {
    cut_sample(&rt, rt.alloc(), CFM_BETWEEN);
    cut_sample(&rt, rt.alloc(), CFM_ALONE);
}

/// The sample, with a change, calls one routine, and so on to this depth.
fn sample_to(rt: &impl Abort, alloc: Global, deep: u32, change: &str) -> String {
    format!(in alloc; "{SAMPLE} @A {deep:08X} {change}").expect(rt, "no text")
}

/// How many lines of a trace are calls, and how many returns.
fn crossings(trace: &[u8]) -> (u32, u32) {
    (count_lines(trace, b'c'), count_lines(trace, b'r'))
}

/// A program of 68K code at its start, with room for the most frames.
fn begin_deep(rt: &impl Abort, alloc: Global, text: &str) -> Trial
    ensures { IsWhole result.machine.body (isa_of result.machine.active) }
{
    let around = Outside::calm(rt, alloc, b"");
    Trial::begin(rt, alloc, Isa::M68, 1024, text, around)
}

/// The sample calls to this depth, and stops so after so many steps, with so many lines of calls and of returns.
fn calls_to(
    rt: &impl Abort,
    alloc: Global,
    deep: u32,
    change: &str,
    steps: u32,
    wanted: Stop,
    lines: (u32, u32),
) {
    let text = sample_to(rt, alloc, deep, change);
    let mut trial = begin_deep(rt, alloc, &text);
    equal(rt, steps, trial.run(steps), wanted);
    equal(rt, steps, crossings(trial.around.trace.held()), lines);
    trial.end();
}

/// The sample calls to this depth and returns, and ends in its last step but not in the one before.
fn ends(rt: &impl Abort, alloc: Global, deep: u32, change: &str, steps: u32) {
    let lines = (deep, deep);
    calls_to(
        rt,
        alloc,
        deep,
        change,
        steps.saturating_sub(1),
        Stop::Limit,
        lines,
    );
    calls_to(rt, alloc, deep, change, steps, Stop::Exit(deep), lines);
}

/// The sample calls to a depth of 257, and in this step finds no room for a frame.
fn is_full(rt: &impl Abort, alloc: Global, change: &str, steps: u32) {
    let full = Stop::Fault(Fault {
        kind: FaultKind::FramesFull,
        pc: 0x1_0080,
        detail: 256,
        also: 0,
    });
    calls_to(rt, alloc, 257, change, steps, full, (256, 0));
}

/// In the step before, it does not stop.
fn is_open(rt: &impl Abort, alloc: Global, change: &str, steps: u32) {
    calls_to(rt, alloc, 257, change, steps, Stop::Limit, (256, 0));
}

#[test]
fn calls_go_to_the_most_frames(rt: HostRuntime) {
    let alloc = rt.alloc();
    ends(&rt, alloc, 2, "", 34);
    ends(&rt, alloc, 256, "", 3463);
    is_open(&rt, alloc, "", 2180);
    is_full(&rt, alloc, "", 2181);
    ends(&rt, alloc, 256, CFM_BETWEEN, 3463);
    is_full(&rt, alloc, CFM_BETWEEN, 2181);
    ends(&rt, alloc, 2, CFM_ALONE, 27);
    ends(&rt, alloc, 256, CFM_ALONE, 2567);
    is_open(&rt, alloc, CFM_ALONE, 1540);
    is_full(&rt, alloc, CFM_ALONE, 1541);
}

/// As many callers wait as the trace has calls without a return.
fn callers_wait(rt: &impl Abort, m: &Machine, trace: &[u8], steps: u32)
    requires { IsWhole m.now.body (isa_of m.now.active) }
{
    let (calls, returns) = crossings(trace);
    let open = calls.checked_sub(returns);
    equal(rt, steps, Some(waiting(m)), open);
    let held = innermost(m).map_or(0, |held| held.depth);
    equal(rt, steps, Some(held), open);
}

/// They do after so many steps of a program, which then goes on and leaves what its uncut run left.
fn callers_wait_at(rt: &impl Abort, alloc: Global, text: &str, whole: &Left, steps: u32) {
    let mut trial = begin_deep(rt, alloc, text);
    equal(rt, steps, trial.run(steps), Stop::Limit);
    callers_wait(rt, &trial.machine, trial.around.trace.held(), steps);
    let last = trial.run(ALL);
    equal(rt, steps, last, Stop::Exit(256));
    let left = trial.leave(rt, alloc, last);
    same(rt, &left, whole, steps);
}

/// What the uncut run of a program leaves.
fn uncut(rt: &impl Abort, alloc: Global, text: &str) -> Left {
    let mut trial = begin_deep(rt, alloc, text);
    let end = trial.run(ALL);
    trial.leave(rt, alloc, end)
}

#[test]
fn as_many_callers_wait_as_calls_have_not_returned(rt: HostRuntime) {
    let alloc = rt.alloc();
    let text = sample_to(&rt, alloc, 256, "");
    let whole = uncut(&rt, alloc, &text);
    equal(&rt, "the uncut run", crossings(&whole.trace), (256, 256));
    for hundred in 0..35 {
        callers_wait_at(&rt, alloc, &text, &whole, 100 * hundred);
    }
}
