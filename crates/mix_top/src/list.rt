// A listing of a program, from its files to its last line.
ghost use Rattle.job_words.specs.JobsClauses.{IsProperJob};
ghost use Rattle.mix_text.specs.Listing.{listing};
ghost use Rattle.mix_load.specs.LoadClauses.{AreLoadable};
ghost use Rattle.mix_engine.specs.Beside.{AreSame};
ghost use Rattle.mix_io.specs.StreamsClauses.{output};
ghost use Rattle.mix_top.specs.inner.World.{EndsIn};
ghost use Rattle.mix_top.specs.World.{Keep, PutsText};
ghost use Rattle.mix_top.specs.Ends.{ListsWay};
ghost use Rattle.mix_top.specs.inner.Parts.{beside_lent};

use super::close::close_unloaded;
use super::ending::Ending;
use super::status::{OUTPUT_FAILED, SUCCESS};
use big_memory::Ram;
use dev_rack::Devices;
use job_words::Job;
use mix_bits::Isa;
use mix_engine::Outside;
use mix_io::{Sink, Source};
use mix_load::{Files, load};
use mix_text::list;
use std::alloc::Global;

/// Where a listing begins, and how many instructions it has at most.
#[derive(Clone, Copy)]
pub struct Span {
    pub at: u32,
    pub count: u32,
}

/// Loads the files of a job, and lists the instructions of its main set.
pub fn list_files<'i, 'o, 't, 'd, I: Source, O: Sink, T: Sink, D: Devices>(
    alloc: Global,
    files: &Files,
    job: Job,
    span: Span,
    outside: &mut Outside<'i, 'o, 't, 'd, I, O, T, D>,
) -> Ending
    requires files { AreLoadable files.now job.main }
    requires job { IsProperJob job }
    ensures ends { (k : Keep) → EndsIn None (ListsWay job span.at span.count files.now)
        (beside_lent I.left I.faults O.held O.faults T.held T.faults D.state outside.old k)
        (beside_lent I.left I.faults O.held O.faults T.held T.faults D.state outside.new k)
        result }
    ensures same { AreSame outside.old outside.new }
{
    match load(alloc, files, job.main, job.kib) {
        Ok(program) => Ending::without_steps(put_listing(
            &program.ram,
            job.main,
            span,
            outside.out,
        )),
        Err(error) => Ending::without_steps(close_unloaded(error, outside.trace)),
    }
}

/// Lists memory, and answers the status.
fn put_listing<O: Sink>(ram: &Ram, set: Isa, span: Span, out: &mut O) -> u8
    ensures { PutsText (output (O.held out.old) (O.faults out.old)) (output (O.held out.new) (O.faults out.new)) (listing span.count set ram.now span.at) 0 result }
{
    match list(ram, set, span.at, span.count, out) {
        Ok(()) => SUCCESS,
        Err(_) => OUTPUT_FAILED,
    }
}
