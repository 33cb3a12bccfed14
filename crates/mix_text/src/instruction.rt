// One instruction in memory, as text.
ghost use Rattle.std.specs.Prelude.{◌≡◌, ◌≤◌, ℕ, [], length};
ghost use Rattle.mix_bits.specs.declared.size.Size.TheVariants.{Four};
ghost use Rattle.big_memory.specs.Memory.{loaded};
ghost use Rattle.m68_isa.specs.Fields.{HasWords};
ghost use Rattle.m68_ea.specs.Words.{words_at};
ghost use Rattle.mix_text.specs.Listing.{bytes_m68, instruction, listed_m68, listed_ppc};
ghost use Rattle.mix_text.specs.ListingClauses.{Writes};

use big_memory::Ram;
use m68_ea::read_words;
use m68_isa::{Decoded68, decode68};
use m68_text::text68;
use mix_bits::{Isa, Line};
use ppc_text::text_ppc;

/// How many words a 68K instruction has at most.
const MOST_WORDS: usize = 5;

/// Writes the text of the instruction of a set at an address, and answers how many bytes it has, or None where it
/// does not lie whole in memory.
#[tactic(auto, unfolding(crate::specs::Listing::instruction))]
pub fn write_instruction(ram: &Ram, set: Isa, at: u32, text: &mut Line) -> Option<u32>
    requires { text.old ≡ [] }
    ensures is { Writes (instruction set ram.now at) result text.new }
    ensures short { length text.new ≤ 84 }
{
    match set {
        Isa::M68 => write_m68(ram, at, text),
        Isa::Ppc => write_word(ram, at, text),
    }
}

/// The same of 68K code, whose words are read up to the first one that does not lie in memory.
fn write_m68(ram: &Ram, at: u32, text: &mut Line) -> Option<u32>
    requires { text.old ≡ [] }
    ensures is { Writes (listed_m68 (words_at ram.now at) at) result text.new }
    ensures short { length text.new ≤ 84 }
{
    let mut words = [0; MOST_WORDS];
    let count = read_words(ram, at, &mut words);
    write_words(&words[..count], at, text)
}

/// Writes the text of the 68K instruction that these words begin with, and answers how many bytes it has, or None where a
/// word of it is missing.
pub fn write_words(words: &[u16], at: u32, text: &mut Line) -> Option<u32>
    requires { text.old ≡ [] }
    ensures is { Writes (listed_m68 words.now at) result text.new }
    ensures short { length text.new ≤ 84 }
{
    let decoded = decode68(words);
    let bytes = bytes_of(decoded);
    if bytes.is_some() {
        text68(&decoded, words, at, text);
    }
    bytes
}

/// How many bytes a 68K instruction has, or None where a word of it is missing.
fn bytes_of(decoded: Decoded68) -> Option<u32>
    requires { (count : ℕ) × HasWords decoded count }
    ensures { result ≡ bytes_m68 decoded }
{
    match decoded {
        Decoded68::Op(_, used) => Some(2 * used),
        Decoded68::LineA(_) => Some(2),
        Decoded68::LineF => Some(2),
        Decoded68::Privileged => Some(2),
        Decoded68::Illegal => Some(2),
        Decoded68::Short => None,
    }
}

/// The same of PowerPC code, whose instructions have one long each.
fn write_word(ram: &Ram, at: u32, text: &mut Line) -> Option<u32>
    requires { text.old ≡ [] }
    ensures is { Writes (listed_ppc (loaded ram.now at Four) at) result text.new }
    ensures short { length text.new ≤ 84 }
{
    match ram.load_long(at) {
        Ok(word) => {
            text_ppc(word, at, text);
            Some(4)
        }
        Err(_) => None,
    }
}
