// Blocks of the heap, and descriptors in them. Memory below the stack is free, so what is written to a
// new block is never refused.
ghost use Rattle.std.specs.Prelude.{◌≡◌, ℕ, Option, length};
ghost use Rattle.big_memory.specs.Memory.{Memory, filled};
ghost use Rattle.big_memory.specs.StoresClauses.{OnlyFree};
ghost use Rattle.routine_desc.specs.Build.{image};
ghost use Rattle.toolbox.specs.CallsClauses.{HeapLies, KeepsBounds};
ghost use Rattle.toolbox.specs.Effects.{Around, disposes, makes, makes_of};
ghost use Rattle.toolbox.specs.inner.Performs.{Quietly};
ghost use Rattle.toolbox.specs.Performs.{resources};

use crate::laws::laws;
use crate::results::{no_address, of_dispose, one};
use crate::values::Results;
use big_memory::Ram;
use host_heap::Heap;
use routine_desc::build;

/// A block of `size` bytes: its address.
pub fn new_block(heap: &mut Heap, size: u32) -> Results
    ensures block { (memory : Memory) (around : Around) → Quietly result (resources memory heap.new around) (makes (resources memory heap.old around) size (λ a. memory)) }
    ensures bounds { KeepsBounds heap.old heap.new }
{
    match heap.get(size) {
        Some(address) => one(address),
        None => no_address(),
    }
}

/// A block of `size` bytes with zeros in them: its address.
pub fn new_cleared_block(ram: &mut Ram, heap: &mut Heap, size: u32) -> Results
    requires { HeapLies heap.old ram.old }
    ensures block { (around : Around) → Quietly result (resources ram.new heap.new around) (makes (resources ram.old heap.old around) size (λ a. filled ram.old a size)) }
    ensures bounds { KeepsBounds heap.old heap.new }
    ensures free { OnlyFree ram.old ram.new }
{
    laws();
    ram.meets_invariant();
    match heap.get(size) {
        Some(address) => {
            ram.fill(address, size).unwrap();
            one(address)
        }
        None => no_address(),
    }
}

/// A block with a routine descriptor in it: its address.
pub fn new_descriptor(
    ram: &mut Ram,
    heap: &mut Heap,
    info: u32,
    m68k: Option<u32>,
    isa: u8,
    proc: u32,
) -> Results
    requires { HeapLies heap.old ram.old }
    ensures block { (around : Around) → Quietly result (resources ram.new heap.new around) (makes_of (resources ram.old heap.old around) (image info m68k isa proc)) }
    ensures bounds { KeepsBounds heap.old heap.new }
    ensures free { OnlyFree ram.old ram.new }
{
    laws();
    ram.meets_invariant();
    match heap.get(image_size(m68k)) {
        Some(address) => {
            build(ram, address, info, m68k, isa, proc).unwrap();
            one(address)
        }
        None => no_address(),
    }
}

/// How many bytes a descriptor of one record has, or of a 68K record before it.
fn image_size(m68k: Option<u32>) -> u32
    ensures { (info isa proc : ℕ) → result ≡ length (image info m68k isa proc) }
{
    match m68k {
        None => 32,
        Some(_) => 52,
    }
}

/// Gives up the block at an address.
pub fn dispose(heap: &mut Heap, address: u32) -> Results
    ensures block { (memory : Memory) (around : Around) → Quietly result (resources memory heap.new around) (disposes (resources memory heap.old around) address) }
    ensures bounds { KeepsBounds heap.old heap.new }
{
    of_dispose(heap.free(address))
}
