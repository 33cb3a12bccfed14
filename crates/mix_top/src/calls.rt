// Runs without the words of a command line.
ghost use Rattle.std.specs.Prelude.{option_copied};
ghost use Rattle.toolbox.specs.CallsClauses.{outside as outside_of};
ghost use Rattle.job_words.specs.JobsClauses.{IsProperJob};
ghost use Rattle.mix_io.specs.StreamsClauses.{output};
ghost use Rattle.mix_load.specs.LoadClauses.{AreLoadable};
ghost use Rattle.mixed_machine.specs.Machine.{IsWhole, flat};
ghost use Rattle.switch_frame.specs.Records.{isa_of};
ghost use Rattle.mix_top.specs.Ends.{RunsWay, WithStatus};
ghost use Rattle.mix_top.specs.Running.{MachineRan};
ghost use Rattle.mix_top.specs.World.{Accounted, beside};
ghost use Rattle.mix_top.specs.WorldClauses.{keeping};

use super::ending::Ending;
use super::run::{run_files_beside, run_machine_beside};
use dev_rack::Devices;
use job_words::Job;
use mix_engine::{Machine, Outside};
use mix_io::{Keeper, Sink, Source};
use mix_load::Files;
use std::alloc::Global;

/// Loads the files of a job and runs their program, as `run` does once the files were fetched: the places of words in the job
/// mean nothing here, but that they say which files there are. With a name in `save` the machine is kept under it at the
/// step limit. The answer is the status.
pub fn run_files<I: Source, O: Sink, T: Sink, D: Devices, K: Keeper>(
    alloc: Global,
    files: &Files,
    job: Job,
    save: Option<&str>,
    input: &mut I,
    out: &mut O,
    trace: &mut T,
    rack: &mut D,
    keep: &mut K,
) -> u8
    requires files { AreLoadable files.now job.main }
    requires job { IsProperJob job }
    ensures accounted { Accounted (option_copied save.entry)
        (beside (outside_of (I.left input.old) (I.faults input.old) (D.state rack.old) (O.held out.old) (O.faults out.old)) (output (T.held trace.old) (T.faults trace.old)) (keeping (K.kept keep.old) (K.faults keep.old)))
        (beside (outside_of (I.left input.new) (I.faults input.new) (D.state rack.new) (O.held out.new) (O.faults out.new)) (output (T.held trace.new) (T.faults trace.new)) (keeping (K.kept keep.new) (K.faults keep.new)))
        result }
    ensures way { WithStatus (RunsWay (option_copied save.entry) job files.now
        (beside (outside_of (I.left input.old) (I.faults input.old) (D.state rack.old) (O.held out.old) (O.faults out.old)) (output (T.held trace.old) (T.faults trace.old)) (keeping (K.kept keep.old) (K.faults keep.old)))
        (beside (outside_of (I.left input.new) (I.faults input.new) (D.state rack.new) (O.held out.new) (O.faults out.new)) (output (T.held trace.new) (T.faults trace.new)) (keeping (K.kept keep.new) (K.faults keep.new))))
        result }
{
    run_files_counted(alloc, files, job, save, input, out, trace, rack, keep).status
}

/// Does the same, and tells the number of steps beside the status.
pub fn run_files_counted<I: Source, O: Sink, T: Sink, D: Devices, K: Keeper>(
    alloc: Global,
    files: &Files,
    job: Job,
    save: Option<&str>,
    input: &mut I,
    out: &mut O,
    trace: &mut T,
    rack: &mut D,
    keep: &mut K,
) -> Ending
    requires files { AreLoadable files.now job.main }
    requires job { IsProperJob job }
    ensures accounted { Accounted (option_copied save.entry)
        (beside (outside_of (I.left input.old) (I.faults input.old) (D.state rack.old) (O.held out.old) (O.faults out.old)) (output (T.held trace.old) (T.faults trace.old)) (keeping (K.kept keep.old) (K.faults keep.old)))
        (beside (outside_of (I.left input.new) (I.faults input.new) (D.state rack.new) (O.held out.new) (O.faults out.new)) (output (T.held trace.new) (T.faults trace.new)) (keeping (K.kept keep.new) (K.faults keep.new)))
        result.status }
    ensures way { RunsWay (option_copied save.entry) job files.now
        (beside (outside_of (I.left input.old) (I.faults input.old) (D.state rack.old) (O.held out.old) (O.faults out.old)) (output (T.held trace.old) (T.faults trace.old)) (keeping (K.kept keep.old) (K.faults keep.old)))
        (beside (outside_of (I.left input.new) (I.faults input.new) (D.state rack.new) (O.held out.new) (O.faults out.new)) (output (T.held trace.new) (T.faults trace.new)) (keeping (K.kept keep.new) (K.faults keep.new)))
        result }
{
    let mut outside = Outside {
        input,
        out,
        trace,
        rack,
    };
    run_files_beside(alloc, files, job, save, &mut outside, keep)
}

/// Runs a machine from where it is, for at most `steps` steps, keeps it under a name in `save` where these were done, and
/// puts the end line, as `continue` does once its image is read. The answer is the status.
pub fn run_machine<I: Source, O: Sink, T: Sink, D: Devices, K: Keeper>(
    machine: &mut Machine,
    steps: u32,
    save: Option<&str>,
    input: &mut I,
    out: &mut O,
    trace: &mut T,
    rack: &mut D,
    keep: &mut K,
) -> u8
    requires { IsWhole machine.old.body (isa_of machine.old.active) }
    ensures accounted { Accounted (option_copied save.entry)
        (beside (outside_of (I.left input.old) (I.faults input.old) (D.state rack.old) (O.held out.old) (O.faults out.old)) (output (T.held trace.old) (T.faults trace.old)) (keeping (K.kept keep.old) (K.faults keep.old)))
        (beside (outside_of (I.left input.new) (I.faults input.new) (D.state rack.new) (O.held out.new) (O.faults out.new)) (output (T.held trace.new) (T.faults trace.new)) (keeping (K.kept keep.new) (K.faults keep.new)))
        result }
    ensures way { WithStatus (MachineRan (option_copied save.entry) (flat machine.old.body machine.old.active) steps
        (beside (outside_of (I.left input.old) (I.faults input.old) (D.state rack.old) (O.held out.old) (O.faults out.old)) (output (T.held trace.old) (T.faults trace.old)) (keeping (K.kept keep.old) (K.faults keep.old)))
        (beside (outside_of (I.left input.new) (I.faults input.new) (D.state rack.new) (O.held out.new) (O.faults out.new)) (output (T.held trace.new) (T.faults trace.new)) (keeping (K.kept keep.new) (K.faults keep.new))))
        result }
    ensures whole { IsWhole machine.new.body (isa_of machine.new.active) }
{
    run_machine_counted(machine, steps, save, input, out, trace, rack, keep).status
}

/// Does the same, and tells the number of steps beside the status.
pub fn run_machine_counted<I: Source, O: Sink, T: Sink, D: Devices, K: Keeper>(
    machine: &mut Machine,
    steps: u32,
    save: Option<&str>,
    input: &mut I,
    out: &mut O,
    trace: &mut T,
    rack: &mut D,
    keep: &mut K,
) -> Ending
    requires { IsWhole machine.old.body (isa_of machine.old.active) }
    ensures accounted { Accounted (option_copied save.entry)
        (beside (outside_of (I.left input.old) (I.faults input.old) (D.state rack.old) (O.held out.old) (O.faults out.old)) (output (T.held trace.old) (T.faults trace.old)) (keeping (K.kept keep.old) (K.faults keep.old)))
        (beside (outside_of (I.left input.new) (I.faults input.new) (D.state rack.new) (O.held out.new) (O.faults out.new)) (output (T.held trace.new) (T.faults trace.new)) (keeping (K.kept keep.new) (K.faults keep.new)))
        result.status }
    ensures way { MachineRan (option_copied save.entry) (flat machine.old.body machine.old.active) steps
        (beside (outside_of (I.left input.old) (I.faults input.old) (D.state rack.old) (O.held out.old) (O.faults out.old)) (output (T.held trace.old) (T.faults trace.old)) (keeping (K.kept keep.old) (K.faults keep.old)))
        (beside (outside_of (I.left input.new) (I.faults input.new) (D.state rack.new) (O.held out.new) (O.faults out.new)) (output (T.held trace.new) (T.faults trace.new)) (keeping (K.kept keep.new) (K.faults keep.new)))
        result }
    ensures whole { IsWhole machine.new.body (isa_of machine.new.active) }
{
    let mut outside = Outside {
        input,
        out,
        trace,
        rack,
    };
    run_machine_beside(machine, steps, save, &mut outside, keep)
}
