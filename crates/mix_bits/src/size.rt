ghost use Rattle.std.specs.Prelude.{◌≡◌};
ghost use Rattle.mix_bits.specs.Sizes.{bytes_of, truncated, sign_extended, low_replaced};

/// How many bytes a value has.
#[derive(Clone, Copy, Debug, PartialEq, Eq)]
pub enum Size {
    /// No value.
    Zero,
    /// A byte.
    One,
    /// A word of the 68000, a half word of the PowerPC.
    Two,
    /// A long of the 68000, a word of the PowerPC.
    Four,
}

impl Size {
    /// How many bytes a value of this size has.
    #[inline(always)]
    pub fn bytes(self) -> u32
        ensures { result ≡ bytes_of self }
    {
        match self {
            Size::Zero => 0,
            Size::One => 1,
            Size::Two => 2,
            Size::Four => 4,
        }
    }
}

/// The low bytes of `v`, with zeros above them.
#[inline(always)]
pub fn trunc(v: u32, s: Size) -> u32
    ensures { result ≡ truncated v s }
{
    match s {
        Size::Zero => 0,
        Size::One => v & 0xFF,
        Size::Two => v & 0xFFFF,
        Size::Four => v,
    }
}

/// The low bytes of `v`, with their top bit repeated above them.
#[inline(always)]
pub fn sext(v: u32, s: Size) -> u32
    ensures { result ≡ sign_extended v s }
{
    match s {
        Size::Zero => 0,
        Size::One => {
            let low = v & 0xFF;
            if low < 0x80 { low } else { low + 0xFFFF_FF00 }
        }
        Size::Two => {
            let low = v & 0xFFFF;
            if low < 0x8000 { low } else { low + 0xFFFF_0000 }
        }
        Size::Four => v,
    }
}

/// `old` with its low bytes replaced by those of `v`.
#[inline(always)]
pub fn with_low(old: u32, v: u32, s: Size) -> u32
    ensures { result ≡ low_replaced old v s }
{
    old - trunc(old, s) + trunc(v, s)
}
