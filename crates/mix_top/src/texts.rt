// The texts of a script on the trace.
ghost use Rattle.std.specs.Prelude.{◌≡◌, ◌+◌, ◌≤◌, ◌<◌, ◌++◌, [], length};
ghost use Rattle.mix_io.specs.StreamsClauses.{output};
ghost use Rattle.mix_debug.specs.CrawlClauses.{crawl_of};
ghost use Rattle.mix_top.specs.Events.{answer, at_line};
ghost use Rattle.mix_top.specs.inner.ScriptParts.{TellsEnd, TellsTo, traced_of};
ghost use Rattle.mix_top.specs.Places.{stop_in};

use call_trace::{End, put_end, set_name};
use mix_bits::Line;
use mix_debug::Debug;
use mix_io::{Failed, Sink};
use switch_frame::Active;
use toolbox::Broken;

/// Puts the end line of a program that ended.
pub fn tell_end<T: Sink>(end: Option<End>, trace: &mut T) -> Result<(), Broken>
    ensures { TellsEnd end (output (T.held trace.old) (T.faults trace.old)) (output (T.held trace.new) (T.faults trace.new)) (stop_in result) }
{
    match end {
        None => Ok(()),
        Some(end) => traced(put_end(trace, &end)),
    }
}

/// Puts where the code is after so many steps: `at SET PC K`.
pub fn tell_place<T: Sink>(file: &Active, done: u32, trace: &mut T) -> Result<(), Broken>
    ensures { TellsTo (at_line done file.now) (output (T.held trace.old) (T.faults trace.old)) (output (T.held trace.new) (T.faults trace.new)) (stop_in result) }
{
    let mut line = Line::new();
    add_place(&mut line, file, done);
    traced(trace.put(line.bytes()))
}

/// Puts `yes` or `no`.
pub fn tell_answer<T: Sink>(done: bool, trace: &mut T) -> Result<(), Broken>
    ensures { TellsTo (answer done) (output (T.held trace.old) (T.faults trace.old)) (output (T.held trace.new) (T.faults trace.new)) (stop_in result) }
{
    let text: &[u8] = if done { b"yes\n" } else { b"no\n" };
    traced(trace.put(text))
}

/// Puts where the code is, and where each suspended caller.
pub fn tell_crawl<T: Sink>(debug: &Debug, trace: &mut T) -> Result<(), Broken>
    ensures { TellsTo (crawl_of debug.now.machine) (output (T.held trace.old) (T.faults trace.old)) (output (T.held trace.new) (T.faults trace.new)) (stop_in result) }
{
    traced(debug.crawl(trace))
}

/// What a failed put on the trace tells.
fn traced(put: Result<(), Failed>) -> Result<(), Broken>
    ensures { result ≡ traced_of put }
{
    match put {
        Ok(()) => Ok(()),
        Err(_) => Err(Broken::Trace),
    }
}

/// The line of where the code is.
#[tactic(auto, unfolding(crate::specs::Events::at_line))]
fn add_place(line: &mut Line, file: &Active, done: u32)
    requires { line.old ≡ [] }
    ensures { line.new ≡ at_line done file.now }
{
    line.add("at ");
    line.add(set_name(file.isa()));
    line.add(" ");
    line.add_hex(file.pc(), 8);
    line.add(" ");
    line.add_dec(done);
    line.add("\n");
}
