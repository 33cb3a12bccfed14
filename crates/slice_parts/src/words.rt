// The words that a call with numbers stands for.
ghost use Rattle.std.specs.Prelude.{◌≡◌, ◌<◌, ◌++◌, ◌∷◌, [], true, OnOk, IfOk, map};
ghost use Rattle.std.specs.String.{string_bytes};
ghost use Rattle.std.specs.Fmt.{digit_glyph};
ghost use Rattle.slice_parts.specs.Words.{address_word as address_of, assemble_words as assemble_of, continue_words as continue_of, file_words, list_words as list_of, main_words, run_words as run_of, save_words, set_word as set_of};

use mix_io::NoMemory;
use std::alloc::Global;

/// The program of a run, in numbers.
#[derive(Clone, Copy, Debug)]
pub struct Program {
    /// Its files: 0 for a flat file, 1 for a fork, 2 for a container, 3 for a fork and a container.
    pub kind: u32,
    /// The set of its main program: 0 for the usual one, 1 for 68K, 2 for PowerPC.
    pub main: u32,
    /// The size of RAM in KiB, 128 to 16384.
    pub kib: u32,
}

/// The words of a run.
#[tactic(auto, unfolding(crate::specs::Words::run_words))]
pub fn run_words(
    alloc: Global,
    program: Program,
    steps: u32,
    keeps: bool,
) -> Result<Vec<String>, NoMemory>
    ensures { IfOk result (λ words. map string_bytes words.items ≡ run_of program.kind program.main program.kib steps keeps) }
{
    let run = String::from_str(alloc, "run")?;
    let ram = format!(in alloc; "ram={}", program.kib)?;
    let most = format!(in alloc; "steps={steps}")?;
    let mut words = vec![in alloc; run, ram, most]?;
    add_files(alloc, &mut words, program.kind)?;
    add_main(alloc, &mut words, program.main)?;
    add_save(alloc, &mut words, keeps)?;
    Ok(words)
}

/// The words of a run of a machine that was kept.
#[tactic(auto, unfolding(crate::specs::Words::continue_words))]
pub fn continue_words(alloc: Global, steps: u32, keeps: bool) -> Result<Vec<String>, NoMemory>
    ensures { IfOk result (λ words. map string_bytes words.items ≡ continue_of steps keeps) }
{
    let command = String::from_str(alloc, "continue")?;
    let image = String::from_str(alloc, "image=first")?;
    let most = format!(in alloc; "steps={steps}")?;
    let mut words = vec![in alloc; command, image, most]?;
    add_save(alloc, &mut words, keeps)?;
    Ok(words)
}

/// The words of a listing.
#[tactic(auto, unfolding(crate::specs::Words::list_words))]
pub fn list_words(
    alloc: Global,
    program: Program,
    at: u32,
    count: u32,
) -> Result<Vec<String>, NoMemory>
    ensures { IfOk result (λ words. map string_bytes words.items ≡ list_of program.kind program.main program.kib at count) }
{
    let command = String::from_str(alloc, "list")?;
    let ram = format!(in alloc; "ram={}", program.kib)?;
    let most = format!(in alloc; "count={count}")?;
    let start = address_word(alloc, at)?;
    let mut words = vec![in alloc; command, ram, most, start]?;
    add_files(alloc, &mut words, program.kind)?;
    add_main(alloc, &mut words, program.main)?;
    Ok(words)
}

/// The words of a text that is assembled. The set is 1 for 68K and 2 for PowerPC.
#[tactic(auto, unfolding(crate::specs::Words::assemble_words))]
pub fn assemble_words(alloc: Global, set: u32, at: u32) -> Result<Vec<String>, NoMemory>
    ensures { IfOk result (λ words. map string_bytes words.items ≡ assemble_of set at) }
{
    let command = String::from_str(alloc, "assemble")?;
    let text = String::from_str(alloc, "text=first")?;
    let of_set = String::from_str(alloc, set_word(set))?;
    let start = address_word(alloc, at)?;
    Ok(vec![in alloc; command, text, of_set, start]?)
}

fn set_word(set: u32) -> &'static str
    ensures { result.now ≡ set_of set }
{
    match set {
        1 => "set=68k",
        2 => "set=ppc",
        _ => "set=",
    }
}

/// The word of an address, in eight upper-case hexadecimal digits.
fn address_word(alloc: Global, at: u32) -> Result<String, NoMemory>
    ensures { IfOk result (λ word. string_bytes word ≡ address_of at) }
{
    let first = glyph(at / 0x1000_0000 % 16);
    let second = glyph(at / 0x100_0000 % 16);
    let third = glyph(at / 0x10_0000 % 16);
    let fourth = glyph(at / 0x1_0000 % 16);
    let fifth = glyph(at / 0x1000 % 16);
    let sixth = glyph(at / 0x100 % 16);
    let seventh = glyph(at / 0x10 % 16);
    let last = glyph(at % 16);
    Ok(format!(in alloc; "at={first}{second}{third}{fourth}{fifth}{sixth}{seventh}{last}")?)
}

/// A hexadecimal digit.
fn glyph(digit: u32) -> &'static str
    requires { digit < 16 }
    ensures { result.now ≡ digit_glyph true digit ∷ [] }
{
    match digit {
        0 => "0",
        1 => "1",
        2 => "2",
        3 => "3",
        4 => "4",
        5 => "5",
        6 => "6",
        7 => "7",
        8 => "8",
        9 => "9",
        10 => "A",
        11 => "B",
        12 => "C",
        13 => "D",
        14 => "E",
        _ => "F",
    }
}

/// Appends a word.
fn add(alloc: Global, words: &mut Vec<String>, word: &str) -> Result<(), NoMemory>
    ensures { OnOk result (map string_bytes words.new.items ≡ map string_bytes words.old.items ++ (word.now ∷ [])) }
{
    words.push(String::from_str(alloc, word)?)?;
    Ok(())
}

/// Appends two words.
fn add_both(
    alloc: Global,
    words: &mut Vec<String>,
    first: &str,
    second: &str,
) -> Result<(), NoMemory>
    ensures { OnOk result (map string_bytes words.new.items ≡ map string_bytes words.old.items ++ (first.now ∷ second.now ∷ [])) }
{
    add(alloc, words, first)?;
    add(alloc, words, second)
}

fn add_files(alloc: Global, words: &mut Vec<String>, kind: u32) -> Result<(), NoMemory>
    ensures { OnOk result (map string_bytes words.new.items ≡ map string_bytes words.old.items ++ file_words kind) }
{
    match kind {
        0 => add(alloc, words, "flat=first"),
        1 => add(alloc, words, "rsrc=first"),
        2 => add(alloc, words, "pef=first"),
        3 => add_both(alloc, words, "rsrc=first", "pef=second"),
        _ => Ok(()),
    }
}

fn add_main(alloc: Global, words: &mut Vec<String>, main: u32) -> Result<(), NoMemory>
    ensures { OnOk result (map string_bytes words.new.items ≡ map string_bytes words.old.items ++ main_words main) }
{
    match main {
        0 => Ok(()),
        1 => add(alloc, words, "main=68k"),
        2 => add(alloc, words, "main=ppc"),
        _ => add(alloc, words, "main="),
    }
}

fn add_save(alloc: Global, words: &mut Vec<String>, keeps: bool) -> Result<(), NoMemory>
    ensures { OnOk result (map string_bytes words.new.items ≡ map string_bytes words.old.items ++ save_words keeps) }
{
    if keeps {
        add(alloc, words, "save=kept")
    } else {
        Ok(())
    }
}
