// The registers that a frame keeps.
ghost use Rattle.std.specs.Prelude.{◌≡◌};
ghost use Rattle.fault_words.specs.Saved.{saved_m68, saved_of, saved_ppc};

use mix_bits::Isa;

/// What a frame keeps at a place.
#[derive(Clone, Copy, Debug, PartialEq, Eq)]
pub enum Saved {
    /// What tells of the call: the bytes before the registers.
    Call,
    /// D0 to D7.
    Data(u32),
    /// A0 to A7.
    Address(u32),
    /// r0 to r31.
    General(u32),
    Cr,
    Lr,
    Ctr,
    Xer,
    Pc,
    ConditionCodes,
    /// What fills the frame up.
    Filling,
}

/// What the frame of a suspended caller keeps at so many bytes from its beginning.
pub fn saved_at(caller: Isa, offset: u32) -> Saved
    ensures { result ≡ saved_of caller offset }
{
    if offset < 32 {
        return Saved::Call;
    }
    match caller {
        Isa::M68 => m68_at((offset - 32) / 4),
        Isa::Ppc => ppc_at((offset - 32) / 4),
    }
}

/// What the frame of a 68K caller keeps in a long behind those that tell of the call.
fn m68_at(long: u32) -> Saved
    ensures { result ≡ saved_m68 long }
{
    if long < 8 {
        Saved::Data(long)
    } else if long < 16 {
        Saved::Address(long - 8)
    } else if long == 16 {
        Saved::Pc
    } else if long == 17 {
        Saved::ConditionCodes
    } else {
        Saved::Filling
    }
}

/// The same of a PowerPC caller.
fn ppc_at(long: u32) -> Saved
    ensures { result ≡ saved_ppc long }
{
    if long < 32 {
        return Saved::General(long);
    }
    match long {
        32 => Saved::Cr,
        33 => Saved::Lr,
        34 => Saved::Ctr,
        35 => Saved::Xer,
        36 => Saved::Pc,
        _ => Saved::Filling,
    }
}
