ghost use Rattle.std.specs.Prelude.{◌≡◌, ◌⊎◌, ◌+◌, ◌*◌, ◌/◌, ◌%◌, ◌<◌, ℕ, List, [], decimal, true};
ghost use Rattle.std.specs.Fmt.{digit_glyph};
ghost use Rattle.mix_bits.specs.LineClauses.{AppendsWithin};
ghost use Rattle.mix_bits.specs.Text.{hexadecimal};
ghost use Rattle.mix_bits.specs.TextClauses.{most_bytes};

use arrayvec::ArrayVec;
use itoa::Buffer;
use std::marker::Model;

/// How many bytes a line holds at most.
const LINE_BYTES: usize = 160;

/// The two hexadecimal digits of each byte, in upper case.
const PAIRS: [u8; 512] = *b"\
    000102030405060708090A0B0C0D0E0F101112131415161718191A1B1C1D1E1F\
    202122232425262728292A2B2C2D2E2F303132333435363738393A3B3C3D3E3F\
    404142434445464748494A4B4C4D4E4F505152535455565758595A5B5C5D5E5F\
    606162636465666768696A6B6C6D6E6F707172737475767778797A7B7C7D7E7F\
    808182838485868788898A8B8C8D8E8F909192939495969798999A9B9C9D9E9F\
    A0A1A2A3A4A5A6A7A8A9AAABACADAEAFB0B1B2B3B4B5B6B7B8B9BABBBCBDBEBF\
    C0C1C2C3C4C5C6C7C8C9CACBCCCDCECFD0D1D2D3D4D5D6D7D8D9DADBDCDDDEDF\
    E0E1E2E3E4E5E6E7E8E9EAEBECEDEEEFF0F1F2F3F4F5F6F7F8F9FAFBFCFDFEFF";

/// A line of text in the making, on the stack.
#[derive(Drop)]
pub struct Line {
    kept: ArrayVec<u8, LINE_BYTES>,
}

impl Model for Line {
    ghost Value = { List ℕ };

    ghost view = { λ line. line.kept.items };
}

impl Line {
    /// An empty line.
    #[inline(always)]
    pub fn new() -> Line
        ensures { result ≡ [] }
    {
        Line {
            kept: ArrayVec::new(),
        }
    }

    /// The bytes of the line so far.
    pub fn bytes(&self) -> &[u8]
        ensures { result.now ≡ self.now }
    {
        self.kept.as_slice()
    }

    /// Appends a text, or answers false where the line would get too long.
    pub fn text(&mut self, t: &str) -> bool
        ensures { AppendsWithin most_bytes self.old self.new t.now result }
    {
        self.put(t.as_bytes())
    }

    /// Appends the lowest 2, 4 or 8 hexadecimal digits of `v`, in upper case.
    pub fn hex(&mut self, v: u32, digits: u32) -> bool
        requires { (digits ≡ 2) ⊎ (digits ≡ 4) ⊎ (digits ≡ 8) }
        ensures { AppendsWithin most_bytes self.old self.new (hexadecimal digits v) result }
    {
        let text = glyphs(v);
        match digits {
            2 => self.put(&text[6..]),
            4 => self.put(&text[4..]),
            _ => self.put(&text),
        }
    }

    /// Appends `v` in decimal.
    pub fn dec(&mut self, v: u32) -> bool
        ensures { AppendsWithin most_bytes self.old self.new (decimal v) result }
    {
        let mut buffer = Buffer::new();
        self.put(buffer.format(v).as_bytes())
    }

    /// Appends a piece, or answers false where the line would get too long.
    #[inline(always)]
    fn put(&mut self, piece: &[u8]) -> bool
        ensures { AppendsWithin most_bytes self.old self.new piece.now result }
    {
        self.kept.try_extend_from_slice(piece).is_ok()
    }
}

/// The eight hexadecimal digits of `v`.
#[inline(always)]
#[tactic(auto, using(crate::proofs::Glyphs::by_pairs))]
fn glyphs(v: u32) -> [u8; 8]
    ensures { result ≡ hexadecimal 8 v }
{
    let [a, b] = pair(v / 0x100_0000);
    let [c, d] = pair(v / 0x1_0000 % 0x100);
    let [e, f] = pair(v / 0x100 % 0x100);
    let [g, h] = pair(v % 0x100);
    [a, b, c, d, e, f, g, h]
}

/// The two hexadecimal digits of a byte.
#[inline(always)]
#[tactic(auto, using(crate::proofs::Glyphs::pair_at))]
fn pair(byte: u32) -> [u8; 2]
    requires { byte < 256 }
    ensures { result ≡ hexadecimal 2 byte }
{
    let first = 2 * byte as usize;
    [PAIRS[first], PAIRS[first + 1]]
}
