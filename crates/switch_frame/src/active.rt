ghost use Rattle.std.specs.Prelude.{◌≡◌};
ghost use Rattle.switch_frame.specs.Files.{at_pc, pc_of, sp_of};
ghost use Rattle.switch_frame.specs.Records.{isa_of};

use m68_isa::Regs68;
use mix_bits::Isa;
use ppc_isa::RegsPpc;

/// The register file of running or suspended code.
#[derive(Clone, Copy, Debug, PartialEq, Eq)]
pub enum Active {
    M68(Regs68),
    Ppc(RegsPpc),
}

impl Active {
    /// The instruction set.
    pub fn isa(&self) -> Isa
        ensures { result ≡ isa_of self.now }
    {
        match self {
            Active::M68(_) => Isa::M68,
            Active::Ppc(_) => Isa::Ppc,
        }
    }

    /// The address of the next instruction.
    pub fn pc(&self) -> u32
        ensures { result ≡ pc_of self.now }
    {
        match self {
            Active::M68(regs) => regs.pc,
            Active::Ppc(regs) => regs.pc,
        }
    }

    /// The stack pointer: A7, or r1.
    pub fn sp(&self) -> u32
        ensures { result ≡ sp_of self.now }
    {
        match self {
            Active::M68(regs) => regs.a[7],
            Active::Ppc(regs) => regs.gpr[1],
        }
    }

    /// Goes on at another address.
    pub fn go_to(&mut self, pc: u32)
        ensures exact { self.new ≡ at_pc pc self.old }
        ensures set { isa_of self.new ≡ isa_of self.old }
    {
        match self {
            Active::M68(regs) => regs.pc = pc,
            Active::Ppc(regs) => regs.pc = pc,
        }
    }
}
