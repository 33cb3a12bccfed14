ghost use Rattle.std.specs.Prelude.{◌≡◌, ◌<◌, ◌%◌, ◌^◌};
ghost use Rattle.m68_isa.specs.Registers.{cleared_registers, ccr_bits, ccr_of};

/// The condition codes: extend, negative, zero, overflow and carry.
#[derive(Clone, Copy, Debug, PartialEq, Eq)]
pub struct Ccr {
    pub x: bool,
    pub n: bool,
    pub z: bool,
    pub v: bool,
    pub c: bool,
}

impl Ccr {
    /// The five low bits of the status register, with X in bit 4 and C in bit 0
    /// (M68000 Family Programmer's Reference Manual, section 1.1.4).
    pub fn bits(self) -> u32
        ensures value { result ≡ ccr_bits self }
        ensures below { result < 2 ^ 5 }
        ensures back { ccr_of result ≡ self }
    {
        16 * self.x as u32
            + 8 * self.n as u32
            + 4 * self.z as u32
            + 2 * self.v as u32
            + self.c as u32
    }

    /// The condition codes in the five low bits of a word.
    #[tactic(auto, using(crate::proofs::Bits::read_back))]
    pub fn from_bits(bits: u32) -> Ccr
        ensures value { result ≡ ccr_of bits }
        ensures back { ccr_bits result ≡ bits % 32 }
    {
        Ccr {
            x: bits / 16 % 2 == 1,
            n: bits / 8 % 2 == 1,
            z: bits / 4 % 2 == 1,
            v: bits / 2 % 2 == 1,
            c: bits % 2 == 1,
        }
    }
}

/// The register file of a program in user mode.
#[derive(Clone, Copy, Debug, PartialEq, Eq)]
pub struct Regs68 {
    /// The data registers D0 to D7.
    pub d: [u32; 8],
    /// The address registers A0 to A7; A7 is the stack pointer.
    pub a: [u32; 8],
    /// The address of the next instruction.
    pub pc: u32,
    pub ccr: Ccr,
}

impl Regs68 {
    /// A register file with 0 in every register.
    pub fn cleared() -> Regs68
        ensures { result ≡ cleared_registers }
    {
        Regs68 {
            d: [0; 8],
            a: [0; 8],
            pc: 0,
            ccr: Ccr::from_bits(0),
        }
    }
}
