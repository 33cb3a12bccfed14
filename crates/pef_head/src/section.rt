ghost use Rattle.std.specs.Prelude.{◌≡◌, ◌≤◌, length};
ghost use Rattle.mix_bits.specs.declared.file.TheConstants.{MOST_BYTES};
ghost use Rattle.pef_head.specs.ContainerClauses.{IsSection};
ghost use Rattle.pef_head.specs.PartsClauses.{parts};
ghost use Rattle.pef_head.specs.Parts.{section_at};

use crate::container::{ALIGNMENT, KIND, PACKED, PATTERN, PLACE, TOTAL, UNPACKED, section_header};
use mix_bits::long_at;

/// An instantiated section: one that is loaded.
#[derive(Clone, Copy, Debug, PartialEq, Eq)]
pub struct Section<'a> {
    /// 0 code, 1 data, 2 pattern data, 3 constant, 6 executable data.
    pub kind: u8,
    /// How many bytes it takes in memory.
    pub total: u32,
    /// How many of them come from the file; zeros follow.
    pub unpacked: u32,
    /// What divides its address, at most 4096. The file has this as an exponent of two.
    pub align: u32,
    /// Its bytes in the file: the unpacked ones, or those of pattern data, which describe them.
    pub bytes: &'a [u8],
}

impl<'a> Section<'a> {
    ghost use Rattle.std.specs.Prelude.{◌≡◌};
    ghost use Rattle.pef_head.specs.Container.{is_pattern};

    /// Whether its bytes are pattern data.
    pub fn is_pattern(&self) -> bool
        ensures { result ≡ is_pattern self.now.kind }
    {
        self.kind == PATTERN
    }
}

/// The section with this number.
pub fn section_at<'a>(bytes: &'a [u8], k: u32) -> Section<'a>
    requires section { IsSection bytes.now k }
    requires small { length bytes.now ≤ MOST_BYTES }
    ensures { parts result ≡ section_at bytes.now k }
{
    let header = section_header(k);
    let start = long_at(bytes, header + PLACE) as usize;
    let end = start + long_at(bytes, header + PACKED) as usize;
    Section {
        kind: bytes[header as usize + KIND],
        total: long_at(bytes, header + TOTAL),
        unpacked: long_at(bytes, header + UNPACKED),
        align: 1 << bytes[header as usize + ALIGNMENT],
        bytes: &bytes[start..end],
    }
}
