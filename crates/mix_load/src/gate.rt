//! The gate page.
ghost use Rattle.std.specs.Prelude.{◌≡◌, ◌^◌, ◌<◌, ◌≤◌, length};
ghost use Rattle.big_memory.specs.Map.{host_functions};
ghost use Rattle.switch_frame.specs.Program.{gate_longs, vectors};
ghost use Rattle.mix_load.specs.Pieces.{with_pieces};

use big_memory::{HOST_FUNCTIONS, Ram, host_address, host_vector};
use switch_frame::{A5_PLACE, ENTRY_PLACE, MAIN_VECTOR_PLACE, RAM_SIZE_PLACE};

/// Puts the transition vectors of the first host functions, each a code address and no TOC.
#[tactic(auto, unfolding(switch_frame::specs::Program::vectors))]
fn put_vectors(ram: &mut Ram, count: u32)
    requires room { 0x2000 ≤ length ram.old.bytes }
    requires few { count ≤ host_functions }
    ensures memory { ram.new ≡ with_pieces (vectors count) ram.old }
    ensures len { length ram.new.bytes ≡ length ram.old.bytes }
{
    for k in 0..count {
        ram.fix_long(host_vector(k), host_address(k));
        ram.fix_long(host_vector(k) + 4, 0);
    }
}

/// Puts the gate page of a program.
#[tactic(auto, unfolding(switch_frame::specs::Program::told))]
pub fn put_gate_page(ram: &mut Ram, entry: u32, vector: u32, a5: u32, len: u32)
    requires { 0x2000 ≤ length ram.old.bytes }
    ensures memory { ram.new ≡ with_pieces (gate_longs entry vector a5 len) ram.old }
    ensures len { length ram.new.bytes ≡ length ram.old.bytes }
    ensures fits { a5 < 2 ^ 32 }
{
    put_vectors(ram, HOST_FUNCTIONS);
    ram.fix_long(ENTRY_PLACE, entry);
    ram.fix_long(MAIN_VECTOR_PLACE, vector);
    ram.fix_long(A5_PLACE, a5);
    ram.fix_long(RAM_SIZE_PLACE, len);
}
