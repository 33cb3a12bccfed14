// The sample, from its run to its line.
ghost use Rattle.std.specs.Prelude.{◌≡◌, ◌+◌, ◌≤◌, ◌++◌, length};
ghost use Rattle.mix_engine.specs.Beside.{AreSame};
ghost use Rattle.mix_io.specs.StreamsClauses.{output};
ghost use Rattle.mix_top.specs.inner.World.{EndsIn};
ghost use Rattle.mix_top.specs.World.{Keep, PutsText};
ghost use Rattle.mix_top.specs.SampleLine.{counted, exit_text, fault_text, sample_head, sample_line};
ghost use Rattle.mix_top.specs.Ends.{PutsSample, SampleWay};
ghost use Rattle.mix_top.specs.inner.Parts.{beside_lent};

use super::close::close_without_memory;
use super::ending::Ending;
use super::status::{FAULTED, LIMIT_REACHED, OUTPUT_FAILED, SUCCESS};
use super::{Sampled, run_sample};
use call_trace::{End, fault_name};
use dev_rack::Devices;
use mix_bits::{Fault, Line};
use mix_engine::Outside;
use mix_io::{Sink, Source};
use std::alloc::Global;

/// Runs the sample image, and writes what it did.
pub fn write_sample<'i, 'o, 't, 'd, I: Source, O: Sink, T: Sink, D: Devices>(
    alloc: Global,
    calls: u32,
    depth: u32,
    outside: &mut Outside<'i, 'o, 't, 'd, I, O, T, D>,
) -> Ending
    ensures ends { (k : Keep) → EndsIn None (SampleWay calls depth)
        (beside_lent I.left I.faults O.held O.faults T.held T.faults D.state outside.old k)
        (beside_lent I.left I.faults O.held O.faults T.held T.faults D.state outside.new k)
        result }
    ensures same { AreSame outside.old outside.new }
{
    match run_sample(alloc, calls, depth) {
        Ok(sampled) => Ending::without_steps(put_sample(calls, depth, sampled, outside.out)),
        Err(_) => Ending::without_steps(close_without_memory(outside.trace)),
    }
}

/// Writes what a sample did, and answers the status.
fn put_sample<O: Sink>(calls: u32, depth: u32, sampled: Sampled, out: &mut O) -> u8
    ensures { PutsSample calls depth sampled sampled.end (output (O.held out.old) (O.faults out.old)) (output (O.held out.new) (O.faults out.new)) result }
{
    match sampled.end {
        End::Exit(code) => put_line(&exit_line(calls, depth, sampled, code), SUCCESS, out),
        End::Fault(_, fault) => put_line(&fault_line(calls, depth, sampled, fault), FAULTED, out),
        End::Limit => LIMIT_REACHED,
    }
}

/// Puts a line on the output, and answers the status, or that the output failed.
fn put_line<O: Sink>(line: &Line, status: u8, out: &mut O) -> u8
    ensures { PutsText (output (O.held out.old) (O.faults out.old)) (output (O.held out.new) (O.faults out.new)) line.now status result }
{
    match out.put(line.bytes()) {
        Ok(()) => status,
        Err(_) => OUTPUT_FAILED,
    }
}

/// The line of a sample that ended with an exit.
fn exit_line(calls: u32, depth: u32, sampled: Sampled, code: u32) -> Line
    ensures { result ≡ sample_line calls depth sampled (exit_text code) }
{
    let mut line = head_of(calls, depth, sampled);
    line.add("exit ");
    line.add_dec(code);
    line.add("\n");
    line
}

/// The line of a sample that ended with a fault.
fn fault_line(calls: u32, depth: u32, sampled: Sampled, fault: Fault) -> Line
    ensures { result ≡ sample_line calls depth sampled (fault_text fault) }
{
    let mut line = head_of(calls, depth, sampled);
    line.add("fault ");
    line.add(fault_name(fault.kind));
    line.add("\n");
    line
}

/// The line of a sample up to how it ended.
fn head_of(calls: u32, depth: u32, sampled: Sampled) -> Line
    ensures text { result ≡ sample_head calls depth sampled }
    ensures short { length result ≤ 90 }
{
    let mut line = Line::new();
    add_counted(&mut line, "sample n=", calls);
    add_counted(&mut line, " depth=", depth);
    add_counted(&mut line, " calls ", sampled.calls);
    add_counted(&mut line, " returns ", sampled.returns);
    add_counted(&mut line, " steps ", sampled.steps);
    line.add(" ");
    line
}

/// Appends a name and a number to a line with room for them.
fn add_counted(line: &mut Line, name: &str, number: u32)
    requires name { length name.now ≤ 9 }
    requires room { length line.old ≤ 76 }
    ensures text { line.new ≡ line.old ++ counted name.now number }
    ensures short { length line.new ≤ length line.old + length name.now + 10 }
{
    line.add(name);
    line.add_dec(number);
}
