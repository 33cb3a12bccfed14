ghost use Rattle.std.specs.Prelude.{◌≡◌, ◌<◌, IsTrue, false};
ghost use Rattle.big_memory.specs.Memory.{Memory};
ghost use Rattle.big_memory.specs.StoresClauses.{OnlyFree};
ghost use Rattle.dev_rack.specs.Accounts.{Accounts};
ghost use Rattle.toolbox.specs.CallsClauses.{Blames, HeapLies, Hosts, KeepsBounds, host_at, outside, place};
ghost use Rattle.toolbox.specs.Calls.{Outside};
ghost use Rattle.toolbox.specs.Effects.{Around};
ghost use Rattle.toolbox.specs.Performs.{resources};
ghost use Rattle.toolbox.specs.Puts.{puts_of, said_in};
ghost use Rattle.toolbox.specs.declared.table.TheConstants.{FUNCTIONS};

use crate::HostOut;
use crate::blocks::{dispose, new_block};
use crate::function::Function;
use crate::laws::laws;
use crate::outcome::Outcome;
use crate::perform::perform;
use crate::registers::{operands_of, settle};
use crate::results::of_ask;
use big_memory::Ram;
use dev_rack::Devices;
use host_heap::Heap;
use mix_io::{Sink, Source};
use switch_frame::Active;

/// Calls NewPtr or DisposePtr, by their numbers: programs call these again and again, and they need no more than the
/// registers and the heap. Any other function is left, and nothing has changed then.
#[inline(always)]
pub fn call_heap(index: u32, active: &mut Active, heap: &mut Heap) -> bool
    ensures done { IsTrue result → (memory : Memory) (around : Outside) →
        Hosts index HostOut.Done active.old active.new (place memory heap.old around) (place memory heap.new around) }
    ensures left { result ≡ false → (active.new ≡ active.old) × (heap.new ≡ heap.old) }
{
    laws();
    match Function::at(index) {
        Function::NewPtr => {
            let operands = operands_of(Function::NewPtr, active);
            let results = new_block(heap, operands.first);
            settle(Function::NewPtr, active, results);
            true
        }
        Function::DisposePtr => {
            let operands = operands_of(Function::DisposePtr, active);
            let results = dispose(heap, operands.first);
            settle(Function::DisposePtr, active, results);
            true
        }
        _ => false,
    }
}

/// Calls the function with this number for code of the active set: CallUniversalProc is for PowerPC code,
/// and UnloadSeg for 68K code. It is passed no allocator.
#[inline(always)]
pub fn host_call<I: Source, O: Sink, D: Devices>(
    index: u32,
    active: &mut Active,
    ram: &mut Ram,
    heap: &mut Heap,
    rack: &mut D,
    input: &mut I,
    out: &mut O,
) -> HostOut
    requires index { index < FUNCTIONS }
    requires heap { HeapLies heap.old ram.old }
    ensures does { Hosts index result active.old active.new
        (place ram.old heap.old (outside (I.left input.old) (I.faults input.old) (D.state rack.old) (O.held out.old) (O.faults out.old)))
        (place ram.new heap.new (outside (I.left input.new) (I.faults input.new) (D.state rack.new) (O.held out.new) (O.faults out.new))) }
    ensures blames { Blames result
        (outside (I.left input.old) (I.faults input.old) (D.state rack.old) (O.held out.old) (O.faults out.old))
        (outside (I.left input.new) (I.faults input.new) (D.state rack.new) (O.held out.new) (O.faults out.new)) }
    // One put for what the call says, however it ends.
    ensures count { (around : Around) → O.puts out.new ≡ puts_of (said_in (host_at index active.old (resources ram.old heap.old around))) (O.puts out.old) }
    ensures devices { Accounts (D.state rack.old) (D.state rack.new) }
    ensures bounds { KeepsBounds heap.old heap.new }
    ensures free { OnlyFree ram.old ram.new }
{
    laws();
    let function = Function::at(index);
    let operands = operands_of(function, active);
    match perform(function, operands, ram, heap, rack, input, out) {
        Outcome::Given(results) => {
            settle(function, active, results);
            HostOut::Done
        }
        Outcome::Asked { slot, word, answer } => {
            settle(function, active, of_ask(answer));
            HostOut::Asked { slot, word, answer }
        }
        Outcome::Crossed { pointer, info } => HostOut::Cross { pointer, info },
        Outcome::Left(code) => HostOut::Exit(code),
        Outcome::Refused(access) => HostOut::Stop(access.fault(active.pc())),
        Outcome::ReadFault => HostOut::ReadFault,
        Outcome::OutFault => HostOut::OutFault,
    }
}
