// Records, descriptors and why they are refused.
ghost use Rattle.std.specs.Prelude.{◌≡◌};
ghost use Rattle.routine_desc.specs.RefusalCodes.{bad_desc_code};

use mix_bits::Isa;
use proc_info::BadInfo;

/// The word with which a descriptor begins, `_MixedModeMagic`. 68K code that reaches it calls the routine.
pub const MIXED_MODE_MAGIC: u32 = 0xAAFE;

/// How many records a descriptor has at most.
pub(crate) const MOST_RECORDS: usize = 64;

/// A routine record.
#[derive(Clone, Copy, Debug, PartialEq, Eq)]
pub struct Rec {
    /// The procInfo word.
    pub info: u32,
    pub isa: Isa,
    /// The routine flags, as `RoutineFlags` names them.
    pub flags: u32,
    /// The address of 68K code, or, for PowerPC and CFM-68K code, of a vector of two longs: the code, and
    /// its TOC or A5.
    pub target: u32,
    pub selector: u32,
    /// Whether it is CFM-68K code: 68K code whose target is a vector.
    pub cfm: bool,
}

impl Rec {
    ghost use Rattle.std.specs.Prelude.{◌≡◌};
    ghost use Rattle.routine_desc.specs.LayoutClauses.{no_record};

    /// What stands where no record was read.
    #[inline(always)]
    pub fn empty() -> Rec
        ensures { result ≡ no_record }
    {
        Rec {
            info: 0,
            isa: Isa::M68,
            flags: 0,
            target: 0,
            selector: 0,
            cfm: false,
        }
    }
}

/// A routine descriptor: its address and its records, the first `count` of `recs`.
#[derive(Clone, Copy)]
pub struct Desc {
    pub at: u32,
    pub count: u32,
    pub recs: [Rec; MOST_RECORDS],
}

/// Why a descriptor is refused.
#[derive(Clone, Copy, Debug, PartialEq, Eq)]
pub enum BadDesc {
    /// The header or a record does not lie in RAM.
    Access,
    /// It does not begin with the word $AAFE.
    Magic,
    /// The version is not 7.
    Version,
    /// A reserved field is not 0.
    Reserved,
    /// There are more than 64 records.
    Count,
    /// A record's ISA code is not that of 68K, PowerPC or CFM-68K code.
    Isa,
    /// A record needs preparing, holds an index or has a flag that there is none of.
    Flags,
    /// A record's procInfo has no signature.
    Info(BadInfo),
    /// The records are not called alike.
    Mixed,
}

impl BadDesc {
    /// The refusal's number in a report of a fault.
    pub fn code(self) -> u32
        ensures { result ≡ bad_desc_code self }
    {
        match self {
            BadDesc::Access => 1,
            BadDesc::Magic => 2,
            BadDesc::Version => 3,
            BadDesc::Reserved => 4,
            BadDesc::Count => 5,
            BadDesc::Isa => 6,
            BadDesc::Flags => 7,
            BadDesc::Info(_) => 8,
            BadDesc::Mixed => 9,
        }
    }
}
