ghost use Rattle.std.specs.Prelude.{◌≡◌, ◌≤◌};
ghost use Rattle.switch_frame.specs.Sets.{callee_isa, caller_isa, frame_size as frame_size_of, kind_at, kind_code, kind_of};

use mix_bits::Isa;

/// Out of which instruction set a call goes, and into which.
#[derive(Clone, Copy, Debug, PartialEq, Eq)]
pub enum Kind {
    M68ToPpc,
    PpcToM68,
    PpcToPpc,
    M68ToM68,
}

impl Kind {
    /// The instruction set of the caller.
    pub fn caller(self) -> Isa
        ensures { result ≡ caller_isa self }
    {
        match self {
            Kind::M68ToPpc | Kind::M68ToM68 => Isa::M68,
            Kind::PpcToM68 | Kind::PpcToPpc => Isa::Ppc,
        }
    }

    /// The instruction set of the callee.
    pub fn callee(self) -> Isa
        ensures { result ≡ callee_isa self }
    {
        match self {
            Kind::PpcToM68 | Kind::M68ToM68 => Isa::M68,
            Kind::M68ToPpc | Kind::PpcToPpc => Isa::Ppc,
        }
    }

    /// The kind of a call from one instruction set into another.
    pub fn of(caller: Isa, callee: Isa) -> Kind
        ensures { result ≡ kind_of caller callee }
    {
        match caller {
            Isa::M68 => Kind::from_m68(callee),
            Isa::Ppc => Kind::from_ppc(callee),
        }
    }

    fn from_m68(callee: Isa) -> Kind
        ensures { result ≡ kind_of (Isa.M68) callee }
    {
        match callee {
            Isa::M68 => Kind::M68ToM68,
            Isa::Ppc => Kind::M68ToPpc,
        }
    }

    fn from_ppc(callee: Isa) -> Kind
        ensures { result ≡ kind_of (Isa.Ppc) callee }
    {
        match callee {
            Isa::M68 => Kind::PpcToM68,
            Isa::Ppc => Kind::PpcToPpc,
        }
    }

    /// The number that stands for the kind in a frame.
    pub(crate) fn code(self) -> u32
        ensures { result ≡ kind_code self }
    {
        match self {
            Kind::M68ToPpc => 1,
            Kind::PpcToM68 => 2,
            Kind::PpcToPpc => 3,
            Kind::M68ToM68 => 4,
        }
    }

    /// The kind that a number stands for in a frame, if it stands for one.
    pub fn of_code(code: u32) -> Option<Kind>
        ensures { result ≡ kind_at code }
    {
        match code {
            1 => Some(Kind::M68ToPpc),
            2 => Some(Kind::PpcToM68),
            3 => Some(Kind::PpcToPpc),
            4 => Some(Kind::M68ToM68),
            _ => None,
        }
    }
}

/// How many bytes a frame has at most, that of a caller in PowerPC code.
pub const LARGEST_FRAME: u32 = 192;

/// How many bytes the frame of a caller of this set has.
pub fn frame_size(caller: Isa) -> u32
    ensures size { result ≡ frame_size_of caller }
    ensures most { result ≤ 192 }
{
    match caller {
        Isa::M68 => 112,
        Isa::Ppc => LARGEST_FRAME,
    }
}
