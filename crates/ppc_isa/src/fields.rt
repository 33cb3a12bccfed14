ghost use Rattle.std.specs.Prelude.{◌≡◌};
ghost use Rattle.ppc_isa.specs.inner.FieldRanges.{IsFields};
ghost use Rattle.ppc_isa.specs.Fields.{fields_of};

use mix_bits::digit;

/// A word taken apart at the places where most instructions have their fields.
#[derive(Clone, Copy)]
pub struct Fields {
    /// The opcode, the top six bits.
    pub op: u8,
    /// Five bits: D, S, TO or BO.
    pub d: u8,
    /// Five bits: A or BI.
    pub a: u8,
    /// Five bits: B, SH or NB.
    pub b: u8,
    /// The extended opcode, ten bits.
    pub xo: u16,
    /// The last bit, Rc or LK.
    pub last: bool,
    /// The low sixteen bits, which are B, the extended opcode and the last bit again.
    pub low: u16,
}

/// The fields of a word.
pub fn fields_of(word: u32) -> Fields
    ensures exact { result ≡ fields_of word }
    ensures ranges { IsFields result }
{
    Fields {
        op: digit(word, 26, 6) as u8,
        d: digit(word, 21, 5) as u8,
        a: digit(word, 16, 5) as u8,
        b: digit(word, 11, 5) as u8,
        xo: digit(word, 1, 10) as u16,
        last: digit(word, 0, 1) == 1,
        low: digit(word, 0, 16) as u16,
    }
}
