ghost use Rattle.std.specs.Prelude.{◌≡◌};
ghost use Rattle.mix_bits.specs.Isas.{is_isa as is_isa_lem};

/// An instruction set of the mixed machine.
#[derive(Clone, Copy, Debug, PartialEq, Eq)]
pub enum Isa {
    /// The 68000 with some instructions of the 68020, in user mode.
    M68,
    /// The PowerPC 601, in user mode.
    Ppc,
}

/// Whether two sets are the same one.
pub fn is_isa(one: Isa, other: Isa) -> bool
    ensures { result ≡ is_isa_lem one other }
{
    match (one, other) {
        (Isa::M68, Isa::M68) | (Isa::Ppc, Isa::Ppc) => true,
        (Isa::M68, Isa::Ppc) | (Isa::Ppc, Isa::M68) => false,
    }
}
