// Words of sizes, conventions and rules.
ghost use Rattle.std.specs.Prelude.{◌≡◌};
ghost use Rattle.look_text.specs.Words.{conv_name as name_of_conv, rule_text as text_of_rule, size_name as name_of_size};

use mix_bits::Size;
use proc_info::{BadInfo, Conv};

/// The word for a size.
pub fn size_name(size: Size) -> &'static str
    ensures { result.now ≡ name_of_size size }
{
    match size {
        Size::Zero => "none",
        Size::One => "byte",
        Size::Two => "word",
        Size::Four => "long",
    }
}

/// The words for a convention.
pub fn conv_name(conv: Conv) -> &'static str
    ensures { result.now ≡ name_of_conv conv }
{
    match conv {
        Conv::Pascal => "Pascal",
        Conv::C => "C",
        Conv::Register => "register",
        Conv::D0Pascal => "Pascal, dispatched by D0",
        Conv::D0C => "C, dispatched by D0",
        Conv::D1Pascal => "Pascal, dispatched by D1",
        Conv::StackPascal => "Pascal, dispatched on the stack",
    }
}

/// The rule that a word without a signature breaks.
pub fn rule_text(bad: BadInfo) -> &'static str
    ensures { result.now ≡ text_of_rule bad }
{
    match bad {
        BadInfo::Convention => "1, Convention: bits 0 to 3 are no convention's number",
        BadInfo::TopBit => "2, TopBit: bit 31 is set in a register convention",
        BadInfo::Place => {
            "3, Place: bits 6 to 10 are no place of a result, or name one where there is no result"
        }
        BadInfo::Gap => {
            "4, Gap: the selector has no size, or something stands behind the last parameter"
        }
        BadInfo::Twice => "5, Twice: a register is named by two parameters",
    }
}
