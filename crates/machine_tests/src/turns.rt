// The ways into a run of each set, and into one step, entered by themselves.
ghost use Rattle.switch_frame.specs.Records.{isa_of};
ghost use Rattle.mixed_machine.specs.Machine.{IsWhole};

use crate::bench::{Outside, Trial, run_set};
use crate::equal::equal;
use mix_bits::Isa;
use mix_engine::{Stop, Turn};
use std::process::Abort;
use switch_frame::Active;

/// PowerPC code adds two numbers that 68K code passes on its stack; the sum is the exit code.
const ADDS: &str = "598F 3F3C FFFE 2F3C 0001 0002 4EB9 0001 0020 201F AA85
    @20 AAFE0700 00000000 00000000 000003B0 00010000 00010040 00000000 00000000
    @40 00010048 00000000 7C632214 4E800020";

/// `moveq #7, d0`.
const MOVES: &str = "7007";

/// The code of the active set runs with so many steps, and leaves so many. The answer is how its turn ends.
fn turn(rt: &impl Abort, trial: &mut Trial, steps: u32, left: u32) -> Turn
    requires { IsWhole trial.old.machine.body (isa_of trial.old.machine.active) }
    ensures { IsWhole trial.new.machine.body (isa_of trial.new.machine.active) }
{
    let mut steps = steps;
    let turn = run_set(&mut trial.machine, &mut trial.around, &mut steps);
    equal(rt, "the steps that are left", steps, left);
    turn
}

/// Its turn ends as its 68K caller goes on.
fn goes_back(rt: &impl Abort, trial: &mut Trial, steps: u32, left: u32)
    requires { IsWhole trial.old.machine.body (isa_of trial.old.machine.active) }
    ensures { IsWhole trial.new.machine.body (isa_of trial.new.machine.active) }
{
    let turn = turn(rt, trial, steps, left);
    assert!(rt; matches!(turn, Turn::Back(Active::M68(_))));
}

/// Its turn ends as 68K code stops so.
fn stops(rt: &impl Abort, trial: &mut Trial, steps: u32, left: u32, wanted: Stop)
    requires { IsWhole trial.old.machine.body (isa_of trial.old.machine.active) }
    ensures { IsWhole trial.new.machine.body (isa_of trial.new.machine.active) }
{
    match turn(rt, trial, steps, left) {
        Turn::Stop(Active::M68(_), stop) => equal(rt, "the stop", stop, wanted),
        _ => panic!(rt; "no 68K code stops"),
    }
}

#[test]
fn a_callee_comes_back_and_its_caller_stops(rt: HostRuntime) {
    let around = Outside::calm(&rt, rt.alloc(), b"");
    let mut trial = Trial::begin(&rt, rt.alloc(), Isa::M68, 128, ADDS, around);
    equal(&rt, "the cut", trial.run(5), Stop::Limit);
    goes_back(&rt, &mut trial, 100, 97);
    stops(&rt, &mut trial, 97, 95, Stop::Exit(0x20000));
    stops(&rt, &mut trial, 0, 0, Stop::Limit);
    trial.end();
}

#[test]
fn a_step_does_one_instruction(rt: HostRuntime) {
    let around = Outside::calm(&rt, rt.alloc(), b"");
    let mut trial = Trial::begin(&rt, rt.alloc(), Isa::M68, 128, MOVES, around);
    equal(&rt, "the stop", trial.step(), Stop::Limit);
    match trial.machine.active {
        Active::M68(regs) => equal(&rt, "D0 and pc", (regs.d[0], regs.pc), (7, 0x1_0002)),
        Active::Ppc(_) => panic!(&rt; "no 68K code"),
    }
    trial.end();
}
