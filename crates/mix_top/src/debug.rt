// A script of the debugger over a program, from its first line to its last one.
ghost use Rattle.std.specs.Prelude.{◌≡◌, ◌≤◌, None, Some, length};
ghost use Rattle.mix_bits.specs.declared.file.TheConstants.{MOST_BYTES};
ghost use Rattle.mix_load.specs.LoadClauses.{AreLoadable};
ghost use Rattle.job_words.specs.JobsClauses.{IsProperJob};
ghost use Rattle.switch_frame.specs.ProgramClauses.{IsProgram};
ghost use Rattle.switch_frame.specs.Records.{isa_of};
ghost use Rattle.mixed_machine.specs.Machine.{IsWhole, flat};
ghost use Rattle.mix_top.specs.Places.{stop_in};
ghost use Rattle.mix_engine.specs.Beside.{AreSame};
ghost use Rattle.mix_top.specs.inner.World.{EndsIn};
ghost use Rattle.mix_top.specs.World.{Keep};
ghost use Rattle.mix_top.specs.Debugging.{MachineWay, ScriptWay, script_status as status_by};
ghost use Rattle.mix_top.specs.Ends.{DebugWay, LoadWay};
ghost use Rattle.mix_top.specs.inner.Parts.{beside_lent};

use super::close::{close, close_unloaded, close_without_memory};
use super::ending::Ending;
use super::lines::script_text;
use super::status::{INPUT_FAILED, NOT_LOADED, OUTPUT_FAILED, SUCCESS, TRACE_FAILED};
use crate::{Script, run_script};
use dev_rack::Devices;
use job_words::Job;
use mix_debug::Debug;
use mix_engine::{Machine, Outside};
use mix_io::{Sink, Source};
use mix_load::{Files, load};
use std::alloc::Global;
use switch_frame::Program;
use toolbox::Broken;

/// Reads a script; where each of its lines is a command, loads the files of a job and does the commands.
pub fn debug_files<'i, 'o, 't, 'd, I: Source, O: Sink, T: Sink, D: Devices>(
    alloc: Global,
    files: &Files,
    job: Job,
    text: &[u8],
    outside: &mut Outside<'i, 'o, 't, 'd, I, O, T, D>,
) -> Ending
    requires files { AreLoadable files.now job.main }
    requires job { IsProperJob job }
    requires text { length text.now ≤ MOST_BYTES }
    ensures ends { (k : Keep) → EndsIn None (DebugWay job files.now text.now)
        (beside_lent I.left I.faults O.held O.faults T.held T.faults D.state outside.old k)
        (beside_lent I.left I.faults O.held O.faults T.held T.faults D.state outside.new k)
        result }
    ensures same { AreSame outside.old outside.new }
{
    match Script::read(text) {
        Ok(script) => debug_loaded(alloc, files, job, script, outside),
        Err(bad) => Ending::without_steps(close(
            outside.trace,
            script_text(bad.number).bytes(),
            NOT_LOADED,
        )),
    }
}

/// Loads the files of a job, and does the commands of a script with their program.
fn debug_loaded<'s, 'i, 'o, 't, 'd, I: Source, O: Sink, T: Sink, D: Devices>(
    alloc: Global,
    files: &Files,
    job: Job,
    script: Script<'s>,
    outside: &mut Outside<'i, 'o, 't, 'd, I, O, T, D>,
) -> Ending
    requires files { AreLoadable files.now job.main }
    requires job { IsProperJob job }
    ensures ends { (k : Keep) → EndsIn None (LoadWay job files.now (ScriptWay script.entry))
        (beside_lent I.left I.faults O.held O.faults T.held T.faults D.state outside.old k)
        (beside_lent I.left I.faults O.held O.faults T.held T.faults D.state outside.new k)
        result }
    ensures same { AreSame outside.old outside.new }
{
    match load(alloc, files, job.main, job.kib) {
        Ok(program) => debug_program(alloc, program, script, outside),
        Err(error) => Ending::without_steps(close_unloaded(error, outside.trace)),
    }
}

/// Does the commands of a script with a program, from its start.
fn debug_program<'s, 'i, 'o, 't, 'd, I: Source, O: Sink, T: Sink, D: Devices>(
    alloc: Global,
    program: Program,
    script: Script<'s>,
    outside: &mut Outside<'i, 'o, 't, 'd, I, O, T, D>,
) -> Ending
    requires { IsProgram program }
    ensures ends { (k : Keep) → EndsIn None (ScriptWay script.entry program)
        (beside_lent I.left I.faults O.held O.faults T.held T.faults D.state outside.old k)
        (beside_lent I.left I.faults O.held O.faults T.held T.faults D.state outside.new k)
        result }
    ensures same { AreSame outside.old outside.new }
{
    match Machine::start(alloc, program) {
        Ok(machine) => debug_machine(alloc, machine, script, outside),
        Err(_) => Ending::without_steps(close_without_memory(outside.trace)),
    }
}

/// Does the commands of a script with a machine, from where it is.
fn debug_machine<'s, 'i, 'o, 't, 'd, I: Source, O: Sink, T: Sink, D: Devices>(
    alloc: Global,
    machine: Machine,
    script: Script<'s>,
    outside: &mut Outside<'i, 'o, 't, 'd, I, O, T, D>,
) -> Ending
    requires { IsWhole machine.body (isa_of machine.active) }
    ensures ends { (k : Keep) → EndsIn None (MachineWay script.entry (flat machine.body machine.active))
        (beside_lent I.left I.faults O.held O.faults T.held T.faults D.state outside.old k)
        (beside_lent I.left I.faults O.held O.faults T.held T.faults D.state outside.new k)
        result }
    ensures same { AreSame outside.old outside.new }
{
    match Debug::new(alloc, machine) {
        Ok(mut debug) => Ending::without_steps(script_status(run_script(
            &mut debug, script, outside,
        ))),
        Err(_) => Ending::without_steps(close_without_memory(outside.trace)),
    }
}

/// The status where a script was done, or something of the outside stopped it.
fn script_status(done: Result<(), Broken>) -> u8
    ensures { result ≡ status_by (stop_in done) }
{
    match done {
        Ok(()) => SUCCESS,
        Err(stopped) => stopped_status(stopped),
    }
}

fn stopped_status(stopped: Broken) -> u8
    ensures { result ≡ status_by (Some stopped) }
{
    match stopped {
        Broken::Input => INPUT_FAILED,
        Broken::Output => OUTPUT_FAILED,
        Broken::Trace => TRACE_FAILED,
    }
}
