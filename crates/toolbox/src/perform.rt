// What each function does beside the registers.
ghost use Rattle.std.specs.Prelude.{◌≡◌};
ghost use Rattle.big_memory.specs.Memory.{Memory};
ghost use Rattle.host_heap.specs.Space.{Space};
ghost use Rattle.mix_io.specs.Streams.{Output};
ghost use Rattle.toolbox.specs.CallsClauses.{HeapLies, outside, place};
ghost use Rattle.toolbox.specs.Calls.{Input, Outside};
ghost use Rattle.toolbox.specs.inner.Calls.{with_rack};
ghost use Rattle.toolbox.specs.inner.Performs.{Performs};
ghost use Rattle.toolbox.specs.inner.Puts.{piece_of};
ghost use Rattle.toolbox.specs.Puts.{puts_of};

use crate::blocks::{dispose, new_block, new_cleared_block, new_descriptor};
use crate::function::Function;
use crate::laws::laws;
use crate::outcome::Outcome;
use crate::results::{of_eject, one};
use crate::streams::{get_byte, put_block, put_byte};
use crate::values::Operands;
use big_memory::Ram;
use dev_rack::Devices;
use host_heap::Heap;
use mix_io::{Sink, Source};

#[inline(always)]
#[tactic(auto, using(crate::proofs::Puts::says_none, crate::proofs::Carried::quietly_as, crate::proofs::Devices::ejected_as))]
pub fn perform<I: Source, O: Sink, D: Devices>(
    function: Function,
    operands: Operands,
    ram: &mut Ram,
    heap: &mut Heap,
    rack: &mut D,
    input: &mut I,
    out: &mut O,
) -> Outcome
    requires { HeapLies heap.old ram.old }
    ensures does { Performs function operands result
        (place ram.old heap.old (outside (I.left input.old) (I.faults input.old) (D.state rack.old) (O.held out.old) (O.faults out.old)))
        (place ram.new heap.new (outside (I.left input.new) (I.faults input.new) (D.state rack.new) (O.held out.new) (O.faults out.new))) }
    ensures count { O.puts out.new ≡ puts_of (piece_of function operands ram.old) (O.puts out.old) }
{
    laws();
    let Operands {
        first,
        second,
        third,
    } = operands;
    match function {
        Function::NewRoutineDescriptor => Outcome::Given(new_descriptor(
            ram,
            heap,
            second,
            None,
            (third % 256) as u8,
            first,
        )),
        Function::NewFatRoutineDescriptor => {
            Outcome::Given(new_descriptor(ram, heap, third, Some(first), 1, second))
        }
        Function::DisposeRoutineDescriptor => Outcome::Given(dispose(heap, first)),
        Function::CallUniversalProc => Outcome::Crossed {
            pointer: first,
            info: second,
        },
        Function::NewPtr => Outcome::Given(new_block(heap, first)),
        Function::NewPtrClear => Outcome::Given(new_cleared_block(ram, heap, first)),
        Function::DisposePtr => Outcome::Given(dispose(heap, first)),
        Function::BlockMove => move_block(operands, ram),
        Function::ExitToShell => Outcome::Left(0),
        Function::PutByte => put_byte(operands, out),
        Function::GetByte => get_byte(input),
        Function::PutBlock => put_block(operands, ram, out),
        Function::AskDevice => ask_device(operands, rack),
        Function::EjectDevice => Outcome::Given(of_eject(rack.eject(first))),
        Function::ExitWith => Outcome::Left(first),
        Function::UnloadSeg => Outcome::Given(one(0)),
    }
}

/// BlockMove: copies bytes as if through another place.
fn move_block(operands: Operands, ram: &mut Ram) -> Outcome
    ensures { (heap : Space) (outside : Outside) → Performs Function.BlockMove operands result (place ram.old heap outside) (place ram.new heap outside) }
{
    laws();
    ram.meets_invariant();
    match ram.copy(operands.first, operands.second, operands.third) {
        Ok(()) => Outcome::Given(one(0)),
        Err(access) => Outcome::Refused(access),
    }
}

/// AskDevice: asks the device in a slot, and tells what came of it.
fn ask_device<D: Devices>(operands: Operands, rack: &mut D) -> Outcome
    ensures { (memory : Memory) (heap : Space) (input : Input) (out : Output) →
        Performs Function.AskDevice operands result (place memory heap (with_rack input (D.state rack.old) out)) (place memory heap (with_rack input (D.state rack.new) out)) }
{
    laws();
    let answer = rack.ask(operands.first, operands.second);
    Outcome::Asked {
        slot: operands.first,
        word: operands.second,
        answer,
    }
}
