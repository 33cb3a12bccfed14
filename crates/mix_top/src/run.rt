// A program from its files to its end, and a machine from where it is to its end.
ghost use Rattle.std.specs.Prelude.{option_copied};
ghost use Rattle.mix_load.specs.LoadClauses.{AreLoadable};
ghost use Rattle.job_words.specs.JobsClauses.{IsProperJob};
ghost use Rattle.switch_frame.specs.ProgramClauses.{IsProgram};
ghost use Rattle.switch_frame.specs.Records.{isa_of};
ghost use Rattle.mixed_machine.specs.Machine.{IsWhole, flat};
ghost use Rattle.mix_engine.specs.Beside.{AreSame};
ghost use Rattle.mix_top.specs.inner.World.{EndsIn};
ghost use Rattle.mix_top.specs.WorldClauses.{keeping};
ghost use Rattle.mix_top.specs.Running.{MachineRan};
ghost use Rattle.mix_top.specs.Ends.{ProgramWay, RunsWay};
ghost use Rattle.mix_top.specs.inner.Parts.{beside_lent};

use super::checkpoint::{due, keep_machine};
use super::close::{close_unloaded, close_without_memory, finish};
use super::ending::Ending;
use super::status::NOT_KEPT;
use dev_rack::Devices;
use job_words::Job;
use mix_engine::{Machine, Outside, run_counted};
use mix_io::{Keeper, Sink, Source};
use mix_load::{Files, load};
use std::alloc::Global;
use switch_frame::Program;

/// Loads the files of a job, and runs their program.
pub fn run_files_beside<'i, 'o, 't, 'd, I: Source, O: Sink, T: Sink, D: Devices, K: Keeper>(
    alloc: Global,
    files: &Files,
    job: Job,
    save: Option<&str>,
    outside: &mut Outside<'i, 'o, 't, 'd, I, O, T, D>,
    keep: &mut K,
) -> Ending
    requires files { AreLoadable files.now job.main }
    requires job { IsProperJob job }
    ensures ends { EndsIn (option_copied save.entry) (RunsWay (option_copied save.entry) job files.now)
        (beside_lent I.left I.faults O.held O.faults T.held T.faults D.state outside.old (keeping (K.kept keep.old) (K.faults keep.old)))
        (beside_lent I.left I.faults O.held O.faults T.held T.faults D.state outside.new (keeping (K.kept keep.new) (K.faults keep.new)))
        result }
    ensures same { AreSame outside.old outside.new }
{
    match load(alloc, files, job.main, job.kib) {
        Ok(program) => run_program(alloc, program, job.steps, save, outside, keep),
        Err(error) => Ending::without_steps(close_unloaded(error, outside.trace)),
    }
}

/// Runs a program from its start, for at most `steps` steps.
fn run_program<'i, 'o, 't, 'd, I: Source, O: Sink, T: Sink, D: Devices, K: Keeper>(
    alloc: Global,
    program: Program,
    steps: u32,
    save: Option<&str>,
    outside: &mut Outside<'i, 'o, 't, 'd, I, O, T, D>,
    keep: &mut K,
) -> Ending
    requires { IsProgram program }
    ensures ends { EndsIn (option_copied save.entry) (ProgramWay (option_copied save.entry) program steps)
        (beside_lent I.left I.faults O.held O.faults T.held T.faults D.state outside.old (keeping (K.kept keep.old) (K.faults keep.old)))
        (beside_lent I.left I.faults O.held O.faults T.held T.faults D.state outside.new (keeping (K.kept keep.new) (K.faults keep.new)))
        result }
    ensures same { AreSame outside.old outside.new }
{
    match Machine::start(alloc, program) {
        Ok(mut machine) => run_machine_beside(&mut machine, steps, save, outside, keep),
        Err(_) => Ending::without_steps(close_without_memory(outside.trace)),
    }
}

/// Runs a machine from where it is, for at most `steps` steps, keeps it under a name where these were done, and puts the end
/// line.
pub fn run_machine_beside<'i, 'o, 't, 'd, I: Source, O: Sink, T: Sink, D: Devices, K: Keeper>(
    machine: &mut Machine,
    steps: u32,
    save: Option<&str>,
    outside: &mut Outside<'i, 'o, 't, 'd, I, O, T, D>,
    keep: &mut K,
) -> Ending
    requires { IsWhole machine.old.body (isa_of machine.old.active) }
    ensures ends { EndsIn (option_copied save.entry) (MachineRan (option_copied save.entry) (flat machine.old.body machine.old.active) steps)
        (beside_lent I.left I.faults O.held O.faults T.held T.faults D.state outside.old (keeping (K.kept keep.old) (K.faults keep.old)))
        (beside_lent I.left I.faults O.held O.faults T.held T.faults D.state outside.new (keeping (K.kept keep.new) (K.faults keep.new)))
        result }
    ensures same { AreSame outside.old outside.new }
    ensures whole { IsWhole machine.new.body (isa_of machine.new.active) }
{
    let mut left = steps;
    let stop = run_counted(
        machine,
        outside.input,
        outside.out,
        outside.trace,
        outside.rack,
        &mut left,
    );
    let steps = steps - left;
    match keep_machine(machine, due(stop, save), keep) {
        Ok(()) => Ending {
            status: finish(stop, &machine.active, outside.trace),
            steps,
        },
        Err(_) => Ending {
            status: NOT_KEPT,
            steps,
        },
    }
}
