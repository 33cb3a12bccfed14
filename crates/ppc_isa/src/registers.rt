ghost use Rattle.std.specs.Prelude.{◌≡◌};
ghost use Rattle.ppc_isa.specs.Registers.{cleared_registers};

/// The register file of a program in user mode, without the floating-point registers and MQ
/// (PowerPC 601 RISC Microprocessor User's Manual, chapter 2).
#[derive(Clone, Copy, Debug, PartialEq, Eq)]
pub struct RegsPpc {
    /// The general registers r0 to r31; r1 is the stack pointer and r2 the TOC by convention.
    pub gpr: [u32; 32],
    /// The condition register: eight fields of four bits, field 0 most significant.
    pub cr: u32,
    /// The link register.
    pub lr: u32,
    /// The count register.
    pub ctr: u32,
    /// The integer exception register: SO, OV and CA in its top bits, a byte count in its low ones.
    pub xer: u32,
    /// The address of the next instruction.
    pub pc: u32,
}

impl RegsPpc {
    /// A register file with 0 in every register.
    pub fn cleared() -> RegsPpc
        ensures { result ≡ cleared_registers }
    {
        RegsPpc {
            gpr: [0; 32],
            cr: 0,
            lr: 0,
            ctr: 0,
            xer: 0,
            pc: 0,
        }
    }
}
