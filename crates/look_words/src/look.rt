// The words of mixedlook.
ghost use Rattle.std.specs.Prelude.{◌≡◌, ◌+◌, ◌^◌, ◌<◌, length, map};
ghost use Rattle.std.specs.String.{string_bytes};
ghost use Rattle.look_words.specs.Looks.{by_verb, command_by, count_in, draft_of, image_of, is_given as is_given_in, key_for, key_text, keys_of, look_of, made, set_in, text_in, verb_for, why_topic as why_topic_of, with_file, with_own, with_value as draft_with, with_word};

use crate::program::{UNTOLD, has_key, read_end, read_map};
use crate::session::{UNSAID, read_gdb};
use mix_bits::{Isa, read_decimal, read_hexadecimal};

/// How many bytes of memory are told, if nothing is said of it.
const FEW_BYTES: u32 = 256;

/// How many of them can be told.
const MOST_BYTES: u32 = 65536;

/// What the words ask for. A file is named by the place of its word.
#[derive(Clone, Copy)]
pub enum Look {
    /// What a procInfo word says.
    Info(u32),
    /// A trace as a tree, with names of routines.
    Trace(usize, Option<usize>),
    /// A trace as a picture.
    Picture(usize, Option<usize>),
    /// The raw resource fork in a file.
    Fork(usize),
    /// The data fork in a file.
    Data(usize),
    /// Where the pieces of the program lie that the other words name.
    Map,
    /// What the program would ask for that the other words name.
    Scan,
    /// The end of a run of the program that the other words name, with so many of its last steps.
    End(u32, Frames),
    /// The state of a machine that was kept, or a part of its memory.
    Image(usize, Option<Span>, Frames),
    /// A server for gdb of the program that the other words name.
    Gdb(Server),
    /// Why mixedrun refuses the words behind the first one.
    Words,
    /// Why mixedrun refuses the script in a file.
    WhyScript(usize),
    /// Why mixedrun refuses the text of a set in a file, whose first line has an address.
    WhyText(Isa, usize, u32),
}

/// How many of the suspended callers are told.
#[derive(Clone, Copy, Debug, PartialEq, Eq)]
pub enum Frames {
    /// The first and the last ones, where there are many.
    Few,
    All,
}

/// A part of memory: the address of its first byte, and how many there are.
#[derive(Clone, Copy, Debug, PartialEq, Eq)]
pub struct Span {
    pub at: u32,
    pub count: u32,
}

/// A server for gdb.
#[derive(Clone, Copy)]
pub struct Server {
    /// The place of the word that names the input of the program.
    pub input: Option<usize>,
    /// Whether lines of calls across are told.
    pub is_traced: bool,
    /// How many machines are kept to go back from, beside the first.
    pub keep: u32,
}

/// Why words ask for nothing.
#[derive(Clone, Copy)]
pub enum Refusal {
    /// There is no word.
    Empty,
    /// The first word is no command.
    Command,
    /// The word at this place is no key of the command, an equals sign and a value.
    Unknown(usize),
    /// The key of the word at this place was there before.
    Twice(usize),
    /// The value of the word at this place is none of its key.
    Value(usize, Key),
    /// The command needs a word with this key.
    Missing(Key),
}

/// What stands before the equals sign of a word.
#[derive(Clone, Copy)]
pub enum Key {
    Word,
    File,
    Names,
    Image,
    Last,
    At,
    Count,
    Frames,
    Input,
    Trace,
    Keep,
    Script,
    Text,
    Set,
}

/// A command whose words give a draft.
#[derive(Clone, Copy)]
pub enum Topic {
    ToInfo,
    ToTrace,
    ToPicture,
    ToFork,
    ToData,
    ToImage,
    ToScript,
    ToText,
}

impl Topic {
    /// The keys that the command knows.
    fn keys(self) -> &'static [Key]
        ensures { result.now ≡ keys_of self }
    {
        match self {
            Topic::ToInfo => &[Key::Word],
            Topic::ToTrace => &[Key::File, Key::Names],
            Topic::ToPicture => &[Key::File, Key::Names],
            Topic::ToFork => &[Key::File],
            Topic::ToData => &[Key::File],
            Topic::ToImage => &[Key::Image, Key::At, Key::Count, Key::Frames],
            Topic::ToScript => &[Key::Script],
            Topic::ToText => &[Key::Set, Key::Text, Key::At],
        }
    }
}

/// What the words so far have given: a procInfo word, the places of words that name files, a part of memory, whether all
/// frames are told, and a set.
#[derive(Clone, Copy)]
pub struct Draft {
    pub word: Option<u32>,
    pub file: Option<usize>,
    pub names: Option<usize>,
    pub at: Option<u32>,
    pub count: Option<u32>,
    pub frames: Frames,
    pub set: Option<Isa>,
}

/// Reads the words of a command line.
pub fn read_look(words: &[String]) -> Result<Look, Refusal>
    ensures { result ≡ look_of (map string_bytes words.now) }
{
    match words {
        [] => Err(Refusal::Empty),
        [command, rest @ ..] => read_behind(command.as_str(), rest),
    }
}

/// Reads the words behind a command.
fn read_behind(command: &str, words: &[String]) -> Result<Look, Refusal>
    requires { 1 + length words.now < 2 ^ 64 }
    ensures { result ≡ by_verb (verb_for command.now) (map string_bytes words.now) }
{
    match command {
        "info" => read_command(Topic::ToInfo, words),
        "trace" => read_command(Topic::ToTrace, words),
        "picture" => read_command(Topic::ToPicture, words),
        "fork" => read_command(Topic::ToFork, words),
        "data" => read_command(Topic::ToData, words),
        "image" => read_command(Topic::ToImage, words),
        "map" => read_map(Look::Map, 1, words),
        "scan" => read_map(Look::Scan, 1, words),
        "end" => read_end(1, words, UNTOLD),
        "gdb" => read_gdb(1, words, UNSAID),
        "words" => Ok(Look::Words),
        "why" => read_command(why_topic(words), words),
        _ => Err(Refusal::Command),
    }
}

/// Whether words ask for a script or for a text.
fn why_topic(words: &[String]) -> Topic
    ensures { result ≡ why_topic_of (map string_bytes words.now) }
{
    match words {
        [word, ..] if has_key(word.as_str(), "script") => Topic::ToScript,
        _ => Topic::ToText,
    }
}

/// Reads the words behind a command, which give a draft.
fn read_command(topic: Topic, words: &[String]) -> Result<Look, Refusal>
    requires { 1 + length words.now < 2 ^ 64 }
    ensures { result ≡ command_by topic (map string_bytes words.now) }
{
    let nothing = Draft {
        word: None,
        file: None,
        names: None,
        at: None,
        count: None,
        frames: Frames::Few,
        set: None,
    };
    make(topic, read_settings(topic, 1, words, nothing)?)
}

/// Reads the words from place `place` on.
fn read_settings(
    topic: Topic,
    place: usize,
    words: &[String],
    draft: Draft,
) -> Result<Draft, Refusal>
    requires { place + length words.now < 2 ^ 64 }
    ensures { result ≡ draft_of topic place (map string_bytes words.now) draft }
{
    match words {
        [] => Ok(draft),
        [word, rest @ ..] => match read_word(topic, place, word.as_str(), draft) {
            Ok(next) => read_settings(topic, place + 1, rest, next),
            Err(refusal) => Err(refusal),
        },
    }
}

/// The draft with what a word sets.
#[tactic(auto, unfolding(crate::specs::Looks::with_word))]
fn read_word(topic: Topic, place: usize, word: &str, draft: Draft) -> Result<Draft, Refusal>
    ensures { result ≡ with_word topic place word.now draft }
{
    match word.split_once('=') {
        Some((key, value)) => match find(topic.keys(), key) {
            Some(key) => set(draft, place, key, value),
            None => Err(Refusal::Unknown(place)),
        },
        None => Err(Refusal::Unknown(place)),
    }
}

/// The first of these keys that has a text.
fn find(keys: &[Key], text: &str) -> Option<Key>
    ensures { result ≡ key_for keys.now text.now }
{
    for key in keys {
        if text == key.text() {
            return Some(*key);
        }
    }
    None
}

impl Key {
    /// The text before the equals sign.
    pub fn text(self) -> &'static str
        ensures { result.now ≡ key_text self }
    {
        match self {
            Key::Word => "word",
            Key::File => "file",
            Key::Names => "names",
            Key::Image => "image",
            Key::Last => "last",
            Key::At => "at",
            Key::Count => "count",
            Key::Frames => "frames",
            Key::Input => "input",
            Key::Trace => "trace",
            Key::Keep => "keep",
            Key::Script => "script",
            Key::Text => "text",
            Key::Set => "set",
        }
    }
}

fn is_given(draft: &Draft, key: Key) -> bool
    ensures { result ≡ is_given_in draft.now key }
{
    match key {
        Key::Word => draft.word.is_some(),
        Key::File | Key::Image | Key::Script | Key::Text => draft.file.is_some(),
        Key::Names => draft.names.is_some(),
        Key::Last | Key::Input | Key::Trace | Key::Keep => false,
        Key::At => draft.at.is_some(),
        Key::Count => draft.count.is_some(),
        Key::Frames => draft.frames == Frames::All,
        Key::Set => draft.set.is_some(),
    }
}

/// The draft with a value for a key that it has none for.
fn set(draft: Draft, place: usize, key: Key, value: &str) -> Result<Draft, Refusal>
    ensures { result ≡ draft_with draft place key value.now }
{
    if is_given(&draft, key) {
        return Err(Refusal::Twice(place));
    }
    match key {
        Key::Word | Key::At | Key::Count | Key::Frames | Key::Set => {
            set_value(draft, place, key, value)
        }
        Key::File | Key::Image | Key::Names | Key::Script | Key::Text => {
            set_file(draft, place, key, value)
        }
        Key::Last | Key::Input | Key::Trace | Key::Keep => Err(Refusal::Unknown(place)),
    }
}

/// The same of the name of a file, which is not empty.
fn set_file(mut draft: Draft, place: usize, key: Key, value: &str) -> Result<Draft, Refusal>
    ensures { result ≡ with_file draft place key value.now }
{
    if value.is_empty() {
        return Err(Refusal::Value(place, key));
    }
    match key {
        Key::Names => draft.names = Some(place),
        _ => draft.file = Some(place),
    }
    Ok(draft)
}

/// The same of a value that stands in the word itself.
fn set_value(mut draft: Draft, place: usize, key: Key, value: &str) -> Result<Draft, Refusal>
    ensures { result ≡ with_own draft place key value.now }
{
    match (
        key,
        read_hexadecimal(value.as_bytes(), 8),
        read_count(value),
    ) {
        (Key::Word, Some(word), _) => draft.word = Some(word),
        (Key::At, Some(at), _) => draft.at = Some(at),
        (Key::Count, _, Some(count)) => draft.count = Some(count),
        (Key::Frames, _, _) if value == "all" => draft.frames = Frames::All,
        (Key::Set, _, _) => draft.set = Some(read_set(value).ok_or(Refusal::Value(place, key))?),
        _ => return Err(Refusal::Value(place, key)),
    }
    Ok(draft)
}

/// An instruction set by its name.
fn read_set(value: &str) -> Option<Isa>
    ensures { result ≡ set_in value.now }
{
    match value {
        "68k" => Some(Isa::M68),
        "ppc" => Some(Isa::Ppc),
        _ => None,
    }
}

/// How many bytes are told.
fn read_count(value: &str) -> Option<u32>
    ensures { result ≡ count_in value.now }
{
    match read_decimal(value.as_bytes()) {
        Some(count) if 1 <= count && count <= MOST_BYTES => Some(count),
        _ => None,
    }
}

/// The command of a draft.
fn make(topic: Topic, draft: Draft) -> Result<Look, Refusal>
    ensures { result ≡ made topic draft }
{
    match (topic, draft.word, draft.file) {
        (Topic::ToInfo, Some(word), _) => Ok(Look::Info(word)),
        (Topic::ToInfo, None, _) => Err(Refusal::Missing(Key::Word)),
        (Topic::ToTrace, _, Some(file)) => Ok(Look::Trace(file, draft.names)),
        (Topic::ToPicture, _, Some(file)) => Ok(Look::Picture(file, draft.names)),
        (Topic::ToFork, _, Some(file)) => Ok(Look::Fork(file)),
        (Topic::ToData, _, Some(file)) => Ok(Look::Data(file)),
        (Topic::ToImage, _, Some(file)) => make_image(file, draft),
        (Topic::ToImage, _, None) => Err(Refusal::Missing(Key::Image)),
        (Topic::ToScript, _, Some(file)) => Ok(Look::WhyScript(file)),
        (Topic::ToScript, _, None) => Err(Refusal::Missing(Key::Script)),
        (Topic::ToText, _, Some(file)) => make_text(file, draft),
        (Topic::ToText, _, None) => Err(Refusal::Missing(Key::Text)),
        (_, _, None) => Err(Refusal::Missing(Key::File)),
    }
}

/// The command of a draft that has a kept machine.
fn make_image(file: usize, draft: Draft) -> Result<Look, Refusal>
    ensures { result ≡ image_of file draft }
{
    match (draft.at, draft.count) {
        (Some(at), count) => {
            let count = count.unwrap_or(FEW_BYTES);
            Ok(Look::Image(file, Some(Span { at, count }), draft.frames))
        }
        (None, Some(_)) => Err(Refusal::Missing(Key::At)),
        (None, None) => Ok(Look::Image(file, None, draft.frames)),
    }
}

/// The command of a draft that has a text.
fn make_text(file: usize, draft: Draft) -> Result<Look, Refusal>
    ensures { result ≡ text_in file draft }
{
    match (draft.set, draft.at) {
        (Some(set), Some(at)) => Ok(Look::WhyText(set, file, at)),
        (None, _) => Err(Refusal::Missing(Key::Set)),
        (Some(_), None) => Err(Refusal::Missing(Key::At)),
    }
}
