// Register files as longs in memory.
ghost use Rattle.std.specs.Prelude.{◌≡◌, ◌+◌, ◌≤◌, ◌++◌, length};
ghost use Rattle.big_memory.specs.Memory.{IsRam, with_bytes};
ghost use Rattle.switch_frame.specs.Chain.{IsFile};
ghost use Rattle.big_memory.specs.Numbers.{bytes_of_longs};
ghost use Rattle.switch_frame.specs.Records.{file_at, fill_of, isa_of, longs_of_file, m68_at, ppc_at};
ghost use Rattle.m68_isa.specs.Longs.{longs_of as longs_of_m68};
ghost use Rattle.ppc_isa.specs.Longs.{longs_of as longs_of_ppc};
ghost use Rattle.switch_frame.specs.Sets.{frame_size};

use crate::Active;
use big_memory::Ram;
use m68_isa::{Ccr, Regs68};
use mix_bits::Isa;
use ppc_isa::RegsPpc;

/// The register file of an instruction set at `a`.
#[inline(always)]
pub fn read_file(ram: &Ram, a: u32, isa: Isa) -> Active
    requires ram { IsRam ram.now }
    requires within { a + frame_size isa ≤ length ram.now.bytes + 32 }
    ensures { result ≡ file_at isa a ram.now.bytes }
{
    match isa {
        Isa::M68 => Active::M68(read_m68(ram, a)),
        Isa::Ppc => Active::Ppc(read_ppc(ram, a)),
    }
}

#[inline(always)]
fn read_m68(ram: &Ram, at: u32) -> Regs68
    requires ram { IsRam ram.now }
    requires within { at + 72 ≤ length ram.now.bytes }
    ensures { result ≡ m68_at at ram.now.bytes }
{
    let mut d = [0; 8];
    let mut a = [0; 8];
    let mut rest = [0; 2];
    ram.read_longs(at, &mut d);
    ram.read_longs(at + 32, &mut a);
    ram.read_longs(at + 64, &mut rest);
    let [pc, ccr] = rest;
    Regs68 {
        d,
        a,
        pc,
        ccr: Ccr::from_bits(ccr),
    }
}

#[inline(always)]
fn read_ppc(ram: &Ram, at: u32) -> RegsPpc
    requires ram { IsRam ram.now }
    requires within { at + 148 ≤ length ram.now.bytes }
    ensures { result ≡ ppc_at at ram.now.bytes }
{
    let mut gpr = [0; 32];
    let mut rest = [0; 5];
    ram.read_longs(at, &mut gpr);
    ram.read_longs(at + 128, &mut rest);
    let [cr, lr, ctr, xer, pc] = rest;
    RegsPpc {
        gpr,
        cr,
        lr,
        ctr,
        xer,
        pc,
    }
}

/// Writes a register file to `a`, and zeros up to the frame's end.
pub fn write_file(ram: &mut Ram, a: u32, file: &Active)
    requires ram { IsRam ram.old }
    requires within { a + frame_size (isa_of file.now) ≤ length ram.old.bytes + 32 }
    ensures bytes { ram.new ≡ with_bytes a (bytes_of_longs (longs_of_file file.now ++ fill_of (isa_of file.now))) ram.old }
    ensures ram { IsRam ram.new }
    ensures file { IsFile file.now }
{
    match file {
        Active::M68(file) => write_m68(ram, a, file),
        Active::Ppc(file) => write_ppc(ram, a, file),
    }
}

// The registers are copied first: of a copy it is known that memory is apart from it, and several are turned at once.
fn write_m68(ram: &mut Ram, at: u32, file: &Regs68)
    requires ram { IsRam ram.old }
    requires within { at + 80 ≤ length ram.old.bytes }
    ensures bytes { ram.new ≡ with_bytes at (bytes_of_longs (longs_of_m68 file.now ++ fill_of (Isa.M68))) ram.old }
    ensures ram { IsRam ram.new }
    ensures file { IsFile (Active.M68 file.now) }
{
    let (d, a) = (file.d, file.a);
    ram.fix_longs(at, &d);
    ram.fix_longs(at + 32, &a);
    ram.fix_longs(at + 64, &[file.pc, file.ccr.bits(), 0, 0]);
}

fn write_ppc(ram: &mut Ram, at: u32, file: &RegsPpc)
    requires ram { IsRam ram.old }
    requires within { at + 160 ≤ length ram.old.bytes }
    ensures bytes { ram.new ≡ with_bytes at (bytes_of_longs (longs_of_ppc file.now ++ fill_of (Isa.Ppc))) ram.old }
    ensures ram { IsRam ram.new }
    ensures file { IsFile (Active.Ppc file.now) }
{
    let gpr = file.gpr;
    ram.fix_longs(at, &gpr);
    ram.fix_longs(
        at + 128,
        &[file.cr, file.lr, file.ctr, file.xer, file.pc, 0, 0, 0],
    );
}
