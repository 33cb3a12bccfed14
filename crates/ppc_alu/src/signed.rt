// Words as signed numbers.
ghost use Rattle.std.specs.Prelude.{◌≡◌, ◌≤ℤ◌, pos, neg_ℤ, FitsSigned};
ghost use Rattle.std.specs.Int.{w64};
ghost use Rattle.ppc_alu.specs.Words.{is_negative as is_negative_lem, leaves_word, signed};

/// The signed number that a word is.
pub fn number(word: u32) -> i64
    ensures value { result ≡ signed word }
    ensures low { neg_ℤ (pos 2147483648) ≤ℤ result }
    ensures high { result ≤ℤ pos 2147483647 }
    ensures fits { FitsSigned w64 result }
{
    i64::from(word.cast_signed())
}

/// Whether a number is no signed word.
pub fn is_out(number: i64) -> bool
    ensures { result ≡ leaves_word number }
{
    number < -0x8000_0000 || number >= 0x8000_0000
}

/// Whether a word is a negative number.
pub fn is_negative(word: u32) -> bool
    ensures { result ≡ is_negative_lem word }
{
    word >= 0x8000_0000
}
