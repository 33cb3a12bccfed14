ghost use Rattle.std.specs.Prelude.{◌≡◌, ◌≢◌, ◌≤◌, [], length};
ghost use Rattle.m68_isa.specs.Decode.{decoded};
ghost use Rattle.m68_isa.specs.declared.instructions.Decoded68.TheVariants.{Short};
ghost use Rattle.m68_text.specs.Text.{text_of};

use super::append::add_hex;
use super::names::name_of;
use super::operand::add_operands;
use super::operands::operands68;
use m68_isa::{Decoded68, word_at};
use mix_bits::Line;

/// Writes the text of an instruction whose words stand at an address: its name and operands, or
/// the first word alone where the words are no instruction of a program in user mode.
pub fn text68(d: &Decoded68, words: &[u16], at: u32, line: &mut Line)
    requires decoded { d.now ≡ decoded words.now }
    requires whole { d.now ≢ Short }
    requires empty { line.old ≡ [] }
    ensures text { line.new ≡ text_of d.now words.now at }
    ensures short { length line.new ≤ 65 }
{
    match *d {
        Decoded68::Op(i, used) => {
            let name = name_of(i, used);
            line.add(name.stem);
            line.add(name.condition);
            line.add(name.suffix);
            add_operands(line, operands68(i, words, at));
        }
        _ => {
            line.add("dc.w ");
            add_hex(line, word_at(words, 0), 4);
        }
    }
}
