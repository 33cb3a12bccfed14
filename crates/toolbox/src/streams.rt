// Bytes to the output and from the input.
ghost use Rattle.std.specs.Prelude.{◌≡◌};
ghost use Rattle.big_memory.specs.Memory.{Memory};
ghost use Rattle.dev_rack.specs.Rack.{State};
ghost use Rattle.host_heap.specs.Space.{Space};
ghost use Rattle.mix_io.specs.Calls.{one_more};
ghost use Rattle.mix_io.specs.Streams.{Output};
ghost use Rattle.toolbox.specs.Calls.{Input};
ghost use Rattle.toolbox.specs.CallsClauses.{place};
ghost use Rattle.toolbox.specs.inner.Calls.{with_input, with_output};
ghost use Rattle.toolbox.specs.Effects.{Around, effect, says};
ghost use Rattle.toolbox.specs.inner.Performs.{Performs};
ghost use Rattle.toolbox.specs.Performs.{resources};
ghost use Rattle.toolbox.specs.inner.Puts.{piece_of};
ghost use Rattle.toolbox.specs.Puts.{puts_of};
ghost use Rattle.toolbox.specs.declared.function.Function.{Function};
ghost use Rattle.toolbox.specs.declared.function.Function.TheVariants.{GetByte, PutBlock, PutByte};
ghost use Rattle.toolbox.specs.declared.values.Operands.{Operands as AllOperands};

use crate::laws::laws;
use crate::outcome::Outcome;
use crate::results::{at_end, one};
use crate::values::Operands;
use big_memory::Ram;
use mix_io::{Failed, Sink, Source};

/// PutByte: puts the operand's low byte.
pub fn put_byte<O: Sink>(operands: Operands, out: &mut O) -> Outcome
    ensures does { (memory : Memory) (heap : Space) (input : Input) (rack : State) →
        Performs PutByte operands result
        (place memory heap (with_output input rack (O.held out.old) (O.faults out.old)))
        (place memory heap (with_output input rack (O.held out.new) (O.faults out.new))) }
    ensures count { O.puts out.new ≡ one_more (O.puts out.old) }
{
    say(out, &[(operands.first % 256) as u8])
}

/// PutBlock: puts the bytes at an address, of which there are so many.
pub fn put_block<O: Sink>(operands: Operands, ram: &Ram, out: &mut O) -> Outcome
    ensures does { (heap : Space) (input : Input) (rack : State) →
        Performs PutBlock operands result
        (place ram.now heap (with_output input rack (O.held out.old) (O.faults out.old)))
        (place ram.now heap (with_output input rack (O.held out.new) (O.faults out.new))) }
    ensures count { O.puts out.new ≡ puts_of (piece_of PutBlock operands ram.now) (O.puts out.old) }
{
    laws();
    match ram.span(operands.first, operands.second) {
        Ok(piece) => say(out, piece),
        Err(access) => Outcome::Refused(access),
    }
}

/// Puts a piece for a function that says it, and nothing for an empty one.
fn say<O: Sink>(out: &mut O, piece: &[u8]) -> Outcome
    ensures does { (function : Function) (operands : AllOperands) (memory : Memory) (heap : Space) (input : Input) (rack : State) →
        ((around : Around) → effect function operands (resources memory heap around) ≡ says (resources memory heap around) piece.now) →
        Performs function operands result
        (place memory heap (with_output input rack (O.held out.old) (O.faults out.old)))
        (place memory heap (with_output input rack (O.held out.new) (O.faults out.new))) }
    ensures count { O.puts out.new ≡ puts_of piece.now (O.puts out.old) }
{
    laws();
    if piece.is_empty() {
        return Outcome::Given(one(0));
    }
    match out.put(piece) {
        Ok(()) => Outcome::Given(one(0)),
        Err(Failed) => Outcome::OutFault,
    }
}

/// GetByte: takes a byte.
pub fn get_byte<I: Source>(input: &mut I) -> Outcome
    ensures { (operands : AllOperands) (memory : Memory) (heap : Space) (rack : State) (out : Output) →
        Performs GetByte operands result
        (place memory heap (with_input (I.left input.old) (I.faults input.old) rack out))
        (place memory heap (with_input (I.left input.new) (I.faults input.new) rack out)) }
{
    laws();
    match input.take() {
        Ok(Some(byte)) => Outcome::Given(one(u32::from(byte))),
        Ok(None) => Outcome::Given(at_end()),
        Err(Failed) => Outcome::ReadFault,
    }
}
