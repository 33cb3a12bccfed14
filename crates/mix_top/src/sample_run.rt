// The run, step by step.
ghost use Rattle.std.specs.Prelude.{◌≡◌, ◌≤◌, IfOk, Ok, length};
ghost use Rattle.switch_frame.specs.ProgramClauses.{IsProgram};
ghost use Rattle.switch_frame.specs.Records.{isa_of};
ghost use Rattle.mixed_machine.specs.Machine.{IsWhole, callers_of, flat};
ghost use Rattle.mix_top.specs.Samples.{IsSample, CountedRun, nothing, sample_program, sample_ram, sample_steps};
ghost use Rattle.mix_top.specs.inner.Samples.{Steps};

use super::nothing::{NoDevices, NoInput, Nowhere};
use super::sampled::Sampled;
use call_trace::End;
use mix_bits::{Isa, NoMemory};
use mix_engine::{Machine, Stop, run};
use mix_gen::sample;
use mix_load::{LoadError, load};
use std::alloc::Global;
use switch_frame::{Program, depth as live_frames};

/// The RAM of the sample, in KiB.
const RAM: u32 = 1024;

/// How many steps are done at most.
const STEPS: u32 = 4_294_967_295;

/// Runs the sample image: its main part calls a routine of depth `depth` `n` times.
pub fn run_sample(alloc: Global, n: u32, depth: u32) -> Result<Sampled, NoMemory>
    ensures { IfOk result (IsSample sample_ram sample_steps n depth) }
{
    run_in(alloc, n, depth, RAM, STEPS)
}

/// Runs the sample image in `kib` KiB of RAM for at most `steps` steps.
fn run_in(alloc: Global, n: u32, depth: u32, kib: u32, steps: u32) -> Result<Sampled, NoMemory>
    requires least { 128 ≤ kib }
    requires most { kib ≤ 16384 }
    ensures { IfOk result (IsSample kib steps n depth) }
{
    let program = load_sample(alloc, n, depth, kib)?;
    let mut machine = Machine::start(alloc, program)?;
    Ok(count_crossings(&mut machine, steps))
}

/// The sample image as a program.
fn load_sample(alloc: Global, n: u32, depth: u32, kib: u32) -> Result<Program, NoMemory>
    requires least { 128 ≤ kib }
    requires most { kib ≤ 16384 }
    ensures is { IfOk result (λ program. sample_program kib n depth ≡ Ok program) }
    ensures program { IfOk result IsProgram }
{
    let files = sample(alloc, n, depth)?;
    match load(alloc, &files, Isa::M68, kib) {
        Ok(program) => Ok(program),
        Err(error) => Err(want_of_memory(error)),
    }
}

/// What the loader can answer where it does not load the sample.
fn want_of_memory(error: LoadError) -> NoMemory
    requires { error ≡ LoadError.NoMemory }
{
    match error {
        LoadError::NoMemory => NoMemory,
        _ => unreachable!(),
    }
}

/// Runs a machine a step at a time, and counts the steps that make a frame and those that give one up.
fn count_crossings(machine: &mut Machine, steps: u32) -> Sampled
    requires { IsWhole machine.old.body (isa_of machine.old.active) }
    ensures { CountedRun steps (flat machine.old.body machine.old.active nothing) result }
{
    let mut left = steps;
    let mut calls = 0;
    let mut returns = 0;
    let mut frames = live(machine);
    'steps: while left > 0 {
        match step_alone(machine) {
            End::Limit => {
                let after = live(machine);
                left -= 1;
                calls += u32::from(frames < after);
                returns += u32::from(after < frames);
                frames = after;
            }
            End::Exit(code) => {
                return Sampled {
                    calls,
                    returns,
                    steps: steps - left + 1,
                    end: End::Exit(code),
                };
            }
            End::Fault(set, fault) => {
                return Sampled {
                    calls,
                    returns,
                    steps: steps - left,
                    end: End::Fault(set, fault),
                };
            }
        }
    }
    Sampled {
        calls,
        returns,
        steps,
        end: End::Limit,
    }
}

/// One step of a machine to which nothing outside is given.
fn step_alone(machine: &mut Machine) -> End
    requires { IsWhole machine.old.body (isa_of machine.old.active) }
    ensures whole { IsWhole machine.new.body (isa_of machine.new.active) }
    ensures step { Steps (flat machine.old.body machine.old.active nothing) (flat machine.new.body machine.new.active nothing) result }
{
    match run(
        machine,
        &mut NoInput,
        &mut Nowhere,
        &mut Nowhere,
        &mut NoDevices,
        1,
    ) {
        Stop::Exit(code) => End::Exit(code),
        Stop::Fault(fault) => End::Fault(machine.active.isa(), fault),
        Stop::Limit => End::Limit,
        Stop::ReadFault => unreachable!(),
        Stop::OutFault => unreachable!(),
        Stop::TraceFault => unreachable!(),
    }
}

/// How many frames are live.
#[tactic(auto, unfolding(mixed_machine::specs::Machine::callers_of))]
pub fn live(machine: &Machine) -> u32
    requires { IsWhole machine.now.body (isa_of machine.now.active) }
    ensures { result ≡ length (callers_of machine.now.body) }
{
    live_frames(&machine.body.ram, machine.body.top)
}
