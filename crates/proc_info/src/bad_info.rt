ghost use Rattle.std.specs.Prelude.{◌≡◌};
ghost use Rattle.proc_info.specs.Codes.{bad_info_code};

/// Why a word is no procInfo, in the order in which a word is tested.
#[derive(Clone, Copy, Debug, PartialEq, Eq)]
pub enum BadInfo {
    /// The calling convention is none of this host's.
    Convention,
    /// Register convention, and the top bit is set.
    TopBit,
    /// Register convention, and the result has no such place, or has a place and no size.
    Place,
    /// The selector has no size, or something stands behind the last parameter.
    Gap,
    /// Two parameters are in one register.
    Twice,
}

impl BadInfo {
    /// The refusal's number in a report of a fault, from 1 on.
    pub fn code(self) -> u32
        ensures { result ≡ bad_info_code self }
    {
        match self {
            BadInfo::Convention => 1,
            BadInfo::TopBit => 2,
            BadInfo::Place => 3,
            BadInfo::Gap => 4,
            BadInfo::Twice => 5,
        }
    }
}
