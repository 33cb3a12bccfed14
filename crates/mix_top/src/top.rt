ghost use Rattle.std.specs.Prelude.{◌≡◌, IfSome, Ok, map, option_copied};
ghost use Rattle.std.specs.String.{string_bytes};
ghost use Rattle.toolbox.specs.CallsClauses.{outside as outside_of};
ghost use Rattle.job_words.specs.JobsClauses.{IsProper, IsProperJob, NamesSave, job_in};
ghost use Rattle.job_words.specs.Words.{command_of};
ghost use Rattle.mix_engine.specs.Beside.{AreSame};
ghost use Rattle.mix_io.specs.StreamsClauses.{output};
ghost use Rattle.mix_top.specs.inner.World.{EndsIn};
ghost use Rattle.mix_top.specs.World.{beside};
ghost use Rattle.mix_top.specs.WorldClauses.{counting, keeping, world};
ghost use Rattle.mix_top.specs.Ends.{Ends, EndsWith, FilesWay, saved_by};
ghost use Rattle.mix_top.specs.inner.Parts.{AreFor, AreShort, beside_lent};

use super::assemble::assemble_text;
use super::close::{close, close_unfetched};
use super::continued::continue_image;
use super::debug::debug_files;
use super::ending::Ending;
use super::files::{Fetched, bytes_of, fetch_files};
use super::lines::words_text;
use super::list::{Span, list_files};
use super::run::run_files_beside;
use super::sampling::write_sample;
use super::status::BAD_WORDS;
use dev_rack::Devices;
use job_words::{Command, file_name, read_words};
use mix_engine::Outside;
use mix_io::{Keeper, Shelf, Sink, Source};
use std::alloc::Global;

/// All that the program does, over words and six objects of the outside. The answer is the status of the
/// program: 0 or 1 for an exit with code 0 or another, 2 for bad words, 3 for a program that is not loaded, or an image or
/// a line of a text or a script that is refused, 4, 5, 6, 7 or 8 for a shelf, an input, an output, a trace or a keeper
/// that failed, 9 for want of memory, 10 for a fault, 11 where all steps were done; 0 also for a listing, for a text that
/// was assembled, for a script that came to its end, and for a sample that ended with an exit.
pub fn mixed_main<F: Shelf, I: Source, O: Sink, T: Sink, D: Devices, K: Keeper>(
    alloc: Global,
    words: &[String],
    shelf: &mut F,
    input: &mut I,
    out: &mut O,
    trace: &mut T,
    rack: &mut D,
    keep: &mut K,
) -> u8
    ensures { Ends (map string_bytes words.now)
        (world (F.contents shelf.old) (counting (F.faults shelf.old) (F.excesses shelf.old))
        (beside (outside_of (I.left input.old) (I.faults input.old) (D.state rack.old) (O.held out.old) (O.faults out.old)) (output (T.held trace.old) (T.faults trace.old)) (keeping (K.kept keep.old) (K.faults keep.old))))
        (world (F.contents shelf.new) (counting (F.faults shelf.new) (F.excesses shelf.new))
        (beside (outside_of (I.left input.new) (I.faults input.new) (D.state rack.new) (O.held out.new) (O.faults out.new)) (output (T.held trace.new) (T.faults trace.new)) (keeping (K.kept keep.new) (K.faults keep.new))))
        result }
{
    mixed_main_counted(alloc, words, shelf, input, out, trace, rack, keep).status
}

/// Does the same, and tells beside the status how many steps of a run were done: those of `run` and `continue`, also where the
/// outside stopped them, and 0 for all else.
pub fn mixed_main_counted<F: Shelf, I: Source, O: Sink, T: Sink, D: Devices, K: Keeper>(
    alloc: Global,
    words: &[String],
    shelf: &mut F,
    input: &mut I,
    out: &mut O,
    trace: &mut T,
    rack: &mut D,
    keep: &mut K,
) -> Ending
    ensures { EndsWith (map string_bytes words.now)
        (world (F.contents shelf.old) (counting (F.faults shelf.old) (F.excesses shelf.old))
        (beside (outside_of (I.left input.old) (I.faults input.old) (D.state rack.old) (O.held out.old) (O.faults out.old)) (output (T.held trace.old) (T.faults trace.old)) (keeping (K.kept keep.old) (K.faults keep.old))))
        (world (F.contents shelf.new) (counting (F.faults shelf.new) (F.excesses shelf.new))
        (beside (outside_of (I.left input.new) (I.faults input.new) (D.state rack.new) (O.held out.new) (O.faults out.new)) (output (T.held trace.new) (T.faults trace.new)) (keeping (K.kept keep.new) (K.faults keep.new))))
        result }
{
    match read_words(words) {
        Ok(command) => {
            let mut outside = Outside {
                input,
                out,
                trace,
                rack,
            };
            do_command(alloc, words, command, shelf, &mut outside, keep)
        }
        Err(bad) => Ending::without_steps(close(trace, words_text(bad.place).bytes(), BAD_WORDS)),
    }
}

/// Fetches the files that a command wants, and does what it asks for.
fn do_command<'i, 'o, 't, 'd, F: Shelf, I: Source, O: Sink, T: Sink, D: Devices, K: Keeper>(
    alloc: Global,
    words: &[String],
    command: Command,
    shelf: &mut F,
    outside: &mut Outside<'i, 'o, 't, 'd, I, O, T, D>,
    keep: &mut K,
) -> Ending
    requires command { command_of (map string_bytes words.now) ≡ Ok command }
    requires proper { IsProper (map string_bytes words.now) command }
    ensures ends { EndsWith (map string_bytes words.now)
        (world (F.contents shelf.old) (counting (F.faults shelf.old) (F.excesses shelf.old)) (beside_lent I.left I.faults O.held O.faults T.held T.faults D.state outside.old (keeping (K.kept keep.old) (K.faults keep.old))))
        (world (F.contents shelf.new) (counting (F.faults shelf.new) (F.excesses shelf.new)) (beside_lent I.left I.faults O.held O.faults T.held T.faults D.state outside.new (keeping (K.kept keep.new) (K.faults keep.new))))
        result }
    ensures same { AreSame outside.old outside.new }
{
    match fetch_files(alloc, words, command, shelf) {
        Ok(files) => {
            let save = save_name(words, command);
            do_over_files(alloc, command, &files, save, outside, keep)
        }
        Err(missing) => Ending::without_steps(close_unfetched(missing, outside.trace)),
    }
}

/// The name under which a command keeps what it runs, at the step limit.
fn save_name(words: &[String], command: Command) -> Option<&str>
    requires { NamesSave (map string_bytes words.now) command }
    ensures { option_copied result ≡ saved_by (map string_bytes words.now) command }
{
    match command.save() {
        Some(place) => Some(file_name(words, place)),
        None => None,
    }
}

/// Does what a command asks for, over its files.
fn do_over_files<'i, 'o, 't, 'd, I: Source, O: Sink, T: Sink, D: Devices, K: Keeper>(
    alloc: Global,
    command: Command,
    files: &Fetched,
    save: Option<&str>,
    outside: &mut Outside<'i, 'o, 't, 'd, I, O, T, D>,
    keep: &mut K,
) -> Ending
    requires files { AreFor command files.now.program }
    requires short { AreShort files.now }
    requires job { IfSome (job_in command) IsProperJob }
    ensures ends { EndsIn (option_copied save.entry) (FilesWay (option_copied save.entry) command files.now)
        (beside_lent I.left I.faults O.held O.faults T.held T.faults D.state outside.old (keeping (K.kept keep.old) (K.faults keep.old)))
        (beside_lent I.left I.faults O.held O.faults T.held T.faults D.state outside.new (keeping (K.kept keep.new) (K.faults keep.new)))
        result }
    ensures same { AreSame outside.old outside.new }
{
    match command {
        Command::Run(job) => run_files_beside(alloc, &files.program, job, save, outside, keep),
        Command::List(job, at, count) => {
            list_files(alloc, &files.program, job, Span { at, count }, outside)
        }
        Command::Sample(calls, depth) => write_sample(alloc, calls, depth, outside),
        Command::Assemble(set, _, at) => assemble_text(set, at, bytes_of(&files.text), outside),
        Command::Continue(_, steps, _) => {
            continue_image(alloc, bytes_of(&files.image), steps, save, outside, keep)
        }
        Command::Debug(job, _) => debug_files(
            alloc,
            &files.program,
            job,
            bytes_of(&files.script),
            outside,
        ),
    }
}
