ghost use Rattle.std.specs.Prelude.{◌≡◌, Some, None, bytes_eq, codes, if◌then◌else◌};
ghost use Rattle.job_words.specs.Settings.{verb_of, keys as keys_of, text_of, name_in, named_by, value_of, set_of, number_in, number_within, setting_of};

use super::job::Key;
use mix_bits::{File, Isa, read_decimal, read_hexadecimal};

/// The command that the first word is.
#[derive(Clone, Copy)]
pub enum Verb {
    ToRun,
    ToList,
    ToSample,
    ToAssemble,
    ToContinue,
    ToDebug,
}

/// What stands before the equals sign of a word.
#[derive(Clone, Copy)]
pub enum Name {
    File(Key),
    Main,
    Ram,
    Steps,
    At,
    Count,
    Calls,
    Depth,
    CodeSet,
    Save,
}

/// What stands behind it.
#[derive(Clone, Copy)]
pub enum Value {
    /// The name of a file.
    Named,
    Set(Isa),
    Number(u32),
}

/// What a word after the command sets.
#[derive(Clone, Copy)]
pub struct Setting {
    pub name: Name,
    pub value: Value,
}

/// The keys that `run` knows.
const RUN: [Name; 7] = [
    Name::File(Key::Program(File::Flat)),
    Name::File(Key::Program(File::Rsrc)),
    Name::File(Key::Program(File::Pef)),
    Name::Main,
    Name::Ram,
    Name::Steps,
    Name::Save,
];

/// Those of `list`.
const LIST: [Name; 7] = [
    Name::File(Key::Program(File::Flat)),
    Name::File(Key::Program(File::Rsrc)),
    Name::File(Key::Program(File::Pef)),
    Name::Main,
    Name::Ram,
    Name::At,
    Name::Count,
];

/// Those of `sample`.
const SAMPLE: [Name; 2] = [Name::Calls, Name::Depth];

/// Those of `assemble`.
const ASSEMBLE: [Name; 3] = [Name::CodeSet, Name::File(Key::Text), Name::At];

/// Those of `continue`.
const CONTINUE: [Name; 3] = [Name::File(Key::Image), Name::Steps, Name::Save];

/// Those of `debug`.
const DEBUG: [Name; 6] = [
    Name::File(Key::Program(File::Flat)),
    Name::File(Key::Program(File::Rsrc)),
    Name::File(Key::Program(File::Pef)),
    Name::Main,
    Name::Ram,
    Name::File(Key::Script),
];

/// The command of a first word.
#[tactic(auto, unfolding(crate::specs::Settings::verb_of))]
pub fn read_verb(word: &str) -> Option<Verb>
    ensures { result ≡ verb_of word.now }
{
    if word == "run" {
        Some(Verb::ToRun)
    } else if word == "list" {
        Some(Verb::ToList)
    } else if word == "sample" {
        Some(Verb::ToSample)
    } else {
        read_last_verb(word)
    }
}

/// One of the last three commands.
#[inline(always)]
fn read_last_verb(word: &str) -> Option<Verb>
    ensures { result ≡ (if bytes_eq word.now (codes "assemble") then Some Verb.ToAssemble
        else (if bytes_eq word.now (codes "continue") then Some Verb.ToContinue
        else (if bytes_eq word.now (codes "debug") then Some Verb.ToDebug else None))) }
{
    if word == "assemble" {
        Some(Verb::ToAssemble)
    } else if word == "continue" {
        Some(Verb::ToContinue)
    } else if word == "debug" {
        Some(Verb::ToDebug)
    } else {
        None
    }
}

/// What a word sets, if the command knows its key.
#[tactic(auto, unfolding(crate::specs::Settings::setting_of))]
pub fn read_setting(verb: Verb, word: &str) -> Option<Setting>
    ensures { result ≡ setting_of verb word.now }
{
    let (key, text) = word.split_once('=')?;
    let name = find(keys(verb), key)?;
    let value = read_value(name, text)?;
    Some(Setting { name, value })
}

/// The keys that a command knows.
fn keys(verb: Verb) -> &'static [Name]
    ensures { result.now ≡ keys_of verb }
{
    match verb {
        Verb::ToRun => &RUN,
        Verb::ToList => &LIST,
        Verb::ToSample => &SAMPLE,
        Verb::ToAssemble => &ASSEMBLE,
        Verb::ToContinue => &CONTINUE,
        Verb::ToDebug => &DEBUG,
    }
}

/// The first of these keys that has a text.
fn find(names: &[Name], key: &str) -> Option<Name>
    ensures { result ≡ name_in names.now key.now }
{
    for name in names {
        if key == text(*name) {
            return Some(*name);
        }
    }
    None
}

/// The text of a key.
fn text(name: Name) -> &'static str
    ensures { result.now ≡ text_of name }
{
    match name {
        Name::File(key) => key.text(),
        Name::Main => "main",
        Name::Ram => "ram",
        Name::Steps => "steps",
        Name::At => "at",
        Name::Count => "count",
        Name::Calls => "n",
        Name::Depth => "depth",
        Name::CodeSet => "set",
        Name::Save => "save",
    }
}

/// The value that a text is for a key.
fn read_value(name: Name, text: &str) -> Option<Value>
    ensures { result ≡ value_of name text.now }
{
    match name {
        Name::File(_) => read_named(text),
        Name::Main => read_set(text),
        Name::Ram => read_within(128, 16384, text),
        Name::Steps => Some(Value::Number(read_decimal(text.as_bytes())?)),
        Name::At => Some(Value::Number(read_hexadecimal(text.as_bytes(), 8)?)),
        Name::Count => read_within(1, 4096, text),
        Name::Calls => read_within(1, 1000, text),
        Name::Depth => read_within(1, 300, text),
        Name::CodeSet => read_set(text),
        Name::Save => read_named(text),
    }
}

/// The name of a file, which is not empty.
fn read_named(name: &str) -> Option<Value>
    ensures { result ≡ named_by name.now }
{
    if name.is_empty() {
        None
    } else {
        Some(Value::Named)
    }
}

/// An instruction set by its name.
fn read_set(name: &str) -> Option<Value>
    ensures { result ≡ set_of name.now }
{
    if name == "68k" {
        Some(Value::Set(Isa::M68))
    } else if name == "ppc" {
        Some(Value::Set(Isa::Ppc))
    } else {
        None
    }
}

/// The number whose decimal digits a text is, from `least` to `most`.
fn read_within(least: u32, most: u32, text: &str) -> Option<Value>
    ensures { result ≡ number_in (number_within least most text.now) }
{
    let n = read_decimal(text.as_bytes())?;
    if least <= n && n <= most {
        Some(Value::Number(n))
    } else {
        None
    }
}
