ghost use Rattle.m68_isa.specs.Decode.{decoded};
ghost use Rattle.m68_core.specs.inner.Edge.{TellsShort};

use m68_isa::{Decoded68, decode68};

/// Whether an instruction needs more words than there are.
pub fn is_short(words: &[u16]) -> bool
    ensures { TellsShort result (decoded words.now) }
{
    match decode68(words) {
        Decoded68::Op(_, _) => false,
        Decoded68::LineA(_) => false,
        Decoded68::LineF => false,
        Decoded68::Privileged => false,
        Decoded68::Illegal => false,
        Decoded68::Short => true,
    }
}
