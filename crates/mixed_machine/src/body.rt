use big_memory::Ram;
use host_heap::Heap;
use mix_bits::Isa;

/// What a machine keeps beside the registers of the active set. Its suspended callers stand in RAM.
#[derive(Drop)]
pub struct Body {
    pub ram: Ram,
    /// The blocks that the program has asked for.
    pub heap: Heap,
    /// Where the innermost switch frame begins, 0 without one.
    pub top: u32,
    /// The A5 of the program's 68K code.
    pub a5: u32,
    /// The instruction set of the main program.
    pub main: Isa,
    /// The stack pointer with which the main program is to reach its exit gate.
    pub start_sp: u32,
}
