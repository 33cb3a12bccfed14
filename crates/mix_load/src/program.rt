//! Programs as they start.
ghost use Rattle.std.specs.Prelude.{◌≡◌, ◌+◌, ◌^◌, ◌≤◌, length};
ghost use Rattle.switch_frame.specs.ProgramClauses.{IsProgram};
ghost use Rattle.mix_load.specs.inner.Loaded.{IsImage};
ghost use Rattle.mix_load.specs.Pieces.{with_pieces};
ghost use Rattle.mix_load.specs.Start.{program_of, stack_pieces, start_file, start_m68, start_ppc};

use crate::gate::put_gate_page;
use crate::image::Image;
use big_memory::{Ram, exit_gate};
use m68_isa::Regs68;
use mix_bits::{Isa, round_up};
use ppc_isa::RegsPpc;
use switch_frame::{Active, PROGRAM_START, Program, start_sp_of};

/// The registers in which 68K code starts.
fn start_m68(image: &Image, len: u32) -> Regs68
    requires { 131072 ≤ len }
    ensures { result ≡ start_m68 image.now len }
{
    let mut regs = Regs68::cleared();
    regs.a[5] = image.a5;
    regs.a[7] = len - 4;
    regs.pc = image.entry;
    regs
}

/// The registers in which PowerPC code starts.
fn start_ppc(image: &Image, len: u32) -> RegsPpc
    requires large { 131072 ≤ len }
    requires vector { image.now.vector + 8 ≤ length image.now.ram.bytes }
    requires small { length image.now.ram.bytes ≤ 2 ^ 24 }
    ensures { result ≡ start_ppc image.now len }
{
    let mut regs = RegsPpc::cleared();
    let (code, toc) = if image.vector == 0 {
        (PROGRAM_START, 0)
    } else {
        let vector = image.vector;
        (image.ram.read_long(vector), image.ram.read_long(vector + 4))
    };
    regs.gpr[1] = start_sp_of(Isa::Ppc, len);
    regs.gpr[2] = toc;
    regs.lr = exit_gate(Isa::Ppc);
    regs.pc = code;
    regs
}

/// The register file in which a program starts.
fn start_file(main: Isa, image: &Image, len: u32) -> Active
    requires large { 131072 ≤ len }
    requires vector { image.now.vector + 8 ≤ length image.now.ram.bytes }
    requires small { length image.now.ram.bytes ≤ 2 ^ 24 }
    ensures { result ≡ start_file main image.now len }
{
    match main {
        Isa::M68 => Active::M68(start_m68(image, len)),
        Isa::Ppc => Active::Ppc(start_ppc(image, len)),
    }
}

/// Puts what stands on the stack at the start.
fn put_stack(ram: &mut Ram, main: Isa, len: u32)
    requires large { 131072 ≤ len }
    requires whole { length ram.old.bytes ≡ len }
    ensures memory { ram.new ≡ with_pieces (stack_pieces main len) ram.old }
    ensures len { length ram.new.bytes ≡ length ram.old.bytes }
{
    match main {
        Isa::M68 => ram.fix_long(len - 4, exit_gate(Isa::M68)),
        Isa::Ppc => {}
    }
}

/// The program of what is loaded.
pub fn program(main: Isa, mut image: Image) -> Program
    requires { IsImage image }
    ensures is { result ≡ program_of main image }
    ensures loaded { IsProgram result }
{
    let len = image.ram.len();
    let active = start_file(main, &image, len);
    let (lo, hi) = (round_up(image.end as u64, 16) as u32, image.ram.floor());
    put_gate_page(&mut image.ram, image.entry, image.vector, image.a5, len);
    put_stack(&mut image.ram, main, len);
    let whole = image.ram.len();
    let Image {
        ram,
        a5,
        end: _,
        entry: _,
        vector: _,
    } = image;
    Program {
        ram,
        active,
        a5,
        main,
        start_sp: start_sp_of(main, whole),
        heap_lo: lo,
        heap_hi: hi,
    }
}
