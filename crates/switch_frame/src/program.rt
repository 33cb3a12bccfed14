ghost use Rattle.std.specs.Prelude.{◌≡◌, ◌≤◌};
ghost use Rattle.switch_frame.specs.Program.{start_sp_of};

use crate::Active;
use big_memory::Ram;
use mix_bits::Isa;

/// Where a program begins, and the lowest address at which its heap may.
pub const PROGRAM_START: u32 = 0x1_0000;

/// How many bytes below the end of RAM the stack pointer of PowerPC code starts.
const PPC_STACK: u32 = 64;

/// A loaded program, ready to start.
#[derive(Drop)]
pub struct Program {
    pub ram: Ram,
    /// The register file in which it starts.
    pub active: Active,
    /// The A5 of its 68K code.
    pub a5: u32,
    /// The instruction set that it starts in.
    pub main: Isa,
    /// The stack pointer at which it is expected to end.
    pub start_sp: u32,
    /// Where the heap begins.
    pub heap_lo: u32,
    /// Where the heap ends.
    pub heap_hi: u32,
}

/// The stack pointer at which a main program of this set is expected to end, in `len` bytes of RAM. PowerPC code starts
/// with it, and 68K code 4 below, where its return address stands.
pub fn start_sp_of(main: Isa, len: u32) -> u32
    requires { 64 ≤ len }
    ensures { result ≡ start_sp_of main len }
{
    match main {
        Isa::M68 => len,
        Isa::Ppc => len - PPC_STACK,
    }
}
