ghost use Rattle.std.specs.Prelude.{◌≡◌, ◌≤◌, [], length};
ghost use Rattle.ppc_text.specs.Text.{long_text, word_text};

use super::append::add_long;
use super::names::name_of;
use super::operand::add_operands;
use super::operands::operands_ppc;
use mix_bits::Line;
use ppc_isa::decode_ppc;

/// Writes the text of a word that stands at an address: the instruction's name and operands, or
/// the word itself where it stands for no instruction.
pub fn text_ppc(word: u32, at: u32, line: &mut Line)
    requires { line.old ≡ [] }
    ensures text { line.new ≡ word_text word at }
    ensures short { length line.new ≤ 84 }
{
    match decode_ppc(word) {
        Some(i) => {
            let name = name_of(i);
            line.add(name.stem);
            line.add(name.ending);
            add_operands(line, operands_ppc(i, at));
        }
        None => text_long(word, line),
    }
}

/// Writes the text of a word as itself.
pub fn text_long(word: u32, line: &mut Line)
    requires { line.old ≡ [] }
    ensures text { line.new ≡ long_text word }
    ensures short { length line.new ≤ 84 }
{
    line.add(".long $");
    add_long(line, word);
}
