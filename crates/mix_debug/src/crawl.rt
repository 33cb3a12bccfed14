// The text of where a machine is.
ghost use Rattle.std.specs.Prelude.{◌≡◌, ◌+◌, ◌≤◌, ◌++◌, [], length};
ghost use Rattle.mix_io.specs.CountsClauses.{HasCause};
ghost use Rattle.mix_io.specs.Told.{Puts};
ghost use Rattle.switch_frame.specs.Chain.{Links, records};
ghost use Rattle.switch_frame.specs.RecordsClauses.{record_of};
ghost use Rattle.mix_debug.specs.Crawl.{caller_line, caller_lines, here_line, place_of};
ghost use Rattle.mix_debug.specs.CrawlClauses.{crawl_of};
ghost use Rattle.mix_debug.specs.Machines.{IsSound};

use big_memory::Ram;
use call_trace::set_name;
use mix_bits::Line;
use mix_engine::Machine;
use mix_io::{Failed, Sink};
use switch_frame::{Active, Held, outer_lo, top};

/// Puts the lines of the running code and of all suspended callers.
pub fn put_crawl<T: Sink>(machine: &Machine, trace: &mut T) -> Result<(), Failed>
    requires { IsSound machine.now }
    ensures text { Puts (T.held trace.old) (T.held trace.new) (crawl_of machine.now) result }
    ensures cause { HasCause (T.faults trace.old) (T.faults trace.new) result }
{
    let mut line = Line::new();
    add_here(&mut line, &machine.active);
    match trace.put(line.bytes()) {
        Ok(()) => put_callers(&machine.body.ram, machine.body.top, 1, trace),
        Err(failed) => Err(failed),
    }
}

/// Puts the lines of the callers from the frame at `lo` outward, of which the first has this number.
fn put_callers<T: Sink>(ram: &Ram, lo: u32, number: u32, trace: &mut T) -> Result<(), Failed>
    requires links { Links ram.now lo (records ram.now.bytes lo) }
    requires number { number + length (records ram.now.bytes lo) ≤ 257 }
    ensures text { Puts (T.held trace.old) (T.held trace.new) (caller_lines number (records ram.now.bytes lo)) result }
    ensures cause { HasCause (T.faults trace.old) (T.faults trace.new) result }
{
    match top(ram, lo) {
        None => Ok(()),
        Some(held) => match put_caller(&held, number, trace) {
            Ok(()) => put_callers(ram, outer_lo(ram, lo), number + 1, trace),
            Err(failed) => Err(failed),
        },
    }
}

/// Puts the line of a caller.
fn put_caller<T: Sink>(held: &Held, number: u32, trace: &mut T) -> Result<(), Failed>
    ensures text { Puts (T.held trace.old) (T.held trace.new) (caller_line number (record_of held.now)) result }
    ensures cause { HasCause (T.faults trace.old) (T.faults trace.new) result }
{
    let mut line = Line::new();
    add_caller(&mut line, held, number);
    trace.put(line.bytes())
}

/// The line of the running code.
#[tactic(auto, unfolding(crate::specs::Crawl::here_line))]
fn add_here(line: &mut Line, file: &Active)
    requires { line.old ≡ [] }
    ensures { line.new ≡ here_line file.now }
{
    add_place(line, 0, file);
    line.add("\n");
}

/// The line of a caller.
#[tactic(auto, unfolding(crate::specs::Crawl::caller_line))]
fn add_caller(line: &mut Line, held: &Held, number: u32)
    requires { line.old ≡ [] }
    ensures { line.new ≡ caller_line number (record_of held.now) }
{
    add_place(line, number, &held.caller);
    line.add(" ");
    line.add_hex(held.target, 8);
    line.add(" ");
    line.add_hex(held.info, 8);
    line.add("\n");
}

/// A number, a set and the address at which its code goes on.
fn add_place(line: &mut Line, number: u32, file: &Active)
    requires { line.old ≡ [] }
    ensures text { line.new ≡ place_of number file.now }
    ensures room { length line.new ≤ 23 }
{
    line.add_dec(number);
    line.add(" ");
    line.add(set_name(file.isa()));
    line.add(" ");
    line.add_hex(file.pc(), 8);
}
