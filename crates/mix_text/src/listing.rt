ghost use Rattle.std.specs.Prelude.{◌≡◌, ◌≤◌, [], OnErr, OnOk, length};
ghost use Rattle.mix_io.specs.Streams.{Breaks, Grows, StopsWithin};
ghost use Rattle.mix_io.specs.StreamsClauses.{output};
ghost use Rattle.mix_text.specs.Listing.{line_at, listing};

use super::instruction::write_instruction;
use arrayvec::ArrayVec;
use big_memory::Ram;
use mix_bits::{Isa, Line, append, onward};
use mix_io::{Failed, Sink};

/// How many bytes a line has at most.
const LINE_BYTES: usize = 95;

/// Lists the instructions of a set in memory, from an address on: at most `count`, up to the first one that does not
/// lie whole in memory. Each line is one put.
pub fn list<O: Sink>(ram: &Ram, set: Isa, at: u32, count: u32, out: &mut O) -> Result<(), Failed>
    ensures whole { OnOk result (Grows (output (O.held out.old) (O.faults out.old)) (output (O.held out.new) (O.faults out.new)) (listing count set ram.now at)) }
    ensures part { OnErr result (StopsWithin (output (O.held out.old) (O.faults out.old)) (output (O.held out.new) (O.faults out.new)) (listing count set ram.now at)) }
{
    let mut next = at;
    'lines: for _k in 0..count {
        let mut text = Line::new();
        match write_instruction(ram, set, next, &mut text) {
            Some(bytes) => {
                put_line(next, &text, out)?;
                next = onward(next, bytes);
            }
            None => return Ok(()),
        }
    }
    Ok(())
}

/// Puts a line.
fn put_line<O: Sink>(at: u32, text: &Line, out: &mut O) -> Result<(), Failed>
    requires { length text.now ≤ 84 }
    ensures whole { OnOk result (Grows (output (O.held out.old) (O.faults out.old)) (output (O.held out.new) (O.faults out.new)) (line_at at text.now)) }
    ensures part { OnErr result (Breaks (output (O.held out.old) (O.faults out.old)) (output (O.held out.new) (O.faults out.new)) [] (line_at at text.now)) }
{
    out.put(&line_of(at, text))
}

/// `ADDRESS: TEXT`
fn line_of(at: u32, text: &Line) -> ArrayVec<u8, LINE_BYTES>
    requires { length text.now ≤ 84 }
    ensures { result.items ≡ line_at at text.now }
{
    let mut address = Line::new();
    address.add_hex(at, 8);
    let mut line = ArrayVec::new();
    append(&mut line, address.bytes());
    append(&mut line, b": ");
    append(&mut line, text.bytes());
    append(&mut line, b"\n");
    line
}
