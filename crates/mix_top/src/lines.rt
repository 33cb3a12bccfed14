// The lines of the trace that a call ends with before it runs a program.
ghost use Rattle.std.specs.Prelude.{◌≡◌, ◌+◌, ◌≤◌, ◌++◌, length};
ghost use Rattle.std.specs.Option.{option_map};
ghost use Rattle.mix_top.specs.Lines.{file_number as file_number_of, fetch_line, fork_refusal, head_refusal, key_number as key_number_of, load_line, load_refusal, long_file, numbered as numbered_line, refusal, reloc_refusal, words_line};
ghost use Rattle.mix_top.specs.Debugging.{script_refusal};
ghost use Rattle.mix_top.specs.Assembling.{line_refusal, reason_name as reason_name_of};
ghost use Rattle.mix_top.specs.Continuing.{image_refusal};

use itoa::Buffer;
use job_words::Key;
use mix_bits::{File, Line};
use mix_image::ImageError;
use mix_load::LoadError;
use mix_text::{Reason, Refused};
use pef_head::PefError;
use pef_reloc::RelocError;
use rsrc_fork::RsrcError;

/// `words PLACE`
pub fn words_text(place: u32) -> Line
    ensures { result ≡ words_line place }
{
    numbered("words", "", place as i128)
}

/// `fetch KEY`
pub fn fetch_text(key: Key) -> Line
    ensures { result ≡ fetch_line key }
{
    let mut line = Line::new();
    line.add("fetch ");
    line.add(key.text());
    line.add("\n");
    line
}

/// The line for a file above the limit.
pub fn long_text(key: Key) -> Line
    ensures { result ≡ load_line (long_file key) }
{
    refused("long", key_number(key) as i128)
}

/// The line for a script of which a line is no command.
pub fn script_text(number: u32) -> Line
    ensures { result ≡ load_line (script_refusal number) }
{
    refused("script", number as i128)
}

/// The line for a program that was not loaded, none where there was no memory.
pub fn load_text(error: LoadError) -> Option<Line>
    ensures { result ≡ option_map load_line (load_refusal error) }
{
    match error {
        LoadError::NoMemory => None,
        LoadError::Empty(file) => Some(refused("empty", file_number(file) as i128)),
        LoadError::Rsrc(error) => Some(fork_text(error)),
        LoadError::NoCode(id) => Some(refused("nocode", id as i128)),
        LoadError::Far(id) => Some(refused("far", id as i128)),
        LoadError::JumpTable(place) => Some(refused("jumptable", place as i128)),
        LoadError::Pef(error) => Some(head_text(error)),
        LoadError::TooLarge(end) => Some(refused("toolarge", end as i128)),
        LoadError::Reloc(error) => Some(reloc_text(error)),
        LoadError::Unresolved(import) => Some(refused("unresolved", import as i128)),
        LoadError::NoMain => Some(refused("nomain", 0)),
    }
}

/// The line for a file that is no resource fork.
fn fork_text(error: RsrcError) -> Line
    ensures { result ≡ load_line (fork_refusal error) }
{
    match error {
        RsrcError::NoMemory => refused("memory", 0),
        RsrcError::Short(length) => refused("rsrc-short", length as i128),
        RsrcError::Overlap => refused("rsrc-overlap", 0),
        RsrcError::BadOffset(offset) => refused("rsrc-offset", offset as i128),
        RsrcError::Twice(_, id) => refused("rsrc-twice", id as i128),
        RsrcError::Compressed(_, id) => refused("rsrc-compressed", id as i128),
    }
}

/// The line for a file that is no container.
fn head_text(error: PefError) -> Line
    ensures { result ≡ load_line (head_refusal error) }
{
    match error {
        PefError::Short(length) => refused("pef-short", length as i128),
        PefError::Magic => refused("pef-magic", 0),
        PefError::Architecture => refused("pef-architecture", 0),
        PefError::Version => refused("pef-version", 0),
        PefError::Section(section) => refused("pef-section", section as i128),
        PefError::NoLoader => refused("pef-noloader", 0),
        PefError::Loader(place) => refused("pef-loader", place as i128),
        PefError::Name(place) => refused("pef-name", place as i128),
        PefError::Init => refused("pef-init", 0),
    }
}

/// The line for a section that was not unpacked or relocated.
fn reloc_text(error: RelocError) -> Line
    ensures { result ≡ load_line (reloc_refusal error) }
{
    match error {
        RelocError::Pattern(place) => refused("pattern", place as i128),
        RelocError::Short(place) => refused("reloc-short", place as i128),
        RelocError::Unsupported(place) => refused("reloc-unsupported", place as i128),
        RelocError::OutsideSection(place) => refused("reloc-outside", place as i128),
        RelocError::ImportIndex(place) => refused("reloc-import", place as i128),
        RelocError::SectionIndex(place) => refused("reloc-section", place as i128),
        RelocError::RepeatFront(place) => refused("reloc-repeat", place as i128),
        RelocError::Work => refused("reloc-work", 0),
    }
}

/// The line for a line that is refused.
pub fn line_text(line: Refused) -> Line
    ensures { result ≡ load_line (line_refusal line) }
{
    refused(reason_name(line.reason), line.line as i128)
}

/// The name of a reason.
fn reason_name(reason: Reason) -> &'static str
    ensures text { result.now ≡ reason_name_of reason }
    ensures short { length result.now ≤ 20 }
{
    match reason {
        Reason::Address => "asm-address",
        Reason::Name => "asm-name",
        Reason::Operands => "asm-operands",
    }
}

/// The line for an image that is refused, none where there was no memory.
pub fn image_text(error: ImageError) -> Option<Line>
    ensures { result ≡ option_map load_line (image_refusal error) }
{
    match error {
        ImageError::NoMemory => None,
        ImageError::Short(length) => Some(refused("image-short", length as i128)),
        ImageError::Magic => Some(refused("image-magic", 0)),
        ImageError::Ram(kib) => Some(refused("image-ram", kib as i128)),
        ImageError::Main(set) => Some(refused("image-main", set as i128)),
        ImageError::StartSp(sp) => Some(refused("image-startsp", sp as i128)),
        ImageError::Heap => Some(refused("image-heap", 0)),
        ImageError::Block(number) => Some(refused("image-block", number as i128)),
        ImageError::Active(set) => Some(refused("image-active", set as i128)),
        ImageError::Ccr(long) => Some(refused("image-ccr", long as i128)),
        ImageError::Page(number) => Some(refused("image-page", number as i128)),
        ImageError::Extra(place) => Some(refused("image-extra", place as i128)),
        ImageError::Gate(address) => Some(refused("image-gate", address as i128)),
        ImageError::Frame(address) => Some(refused("image-frame", address as i128)),
    }
}

/// `load NAME NUMBER`
fn refused(name: &str, number: i128) -> Line
    requires { length name.now ≤ 20 }
    ensures { result ≡ load_line (refusal name.now number) }
{
    numbered("load ", name, number)
}

/// A line of a name in two parts and a number.
fn numbered(head: &str, name: &str, number: i128) -> Line
    requires { length head.now + length name.now ≤ 40 }
    ensures { result ≡ numbered_line (head.now ++ name.now) number }
{
    let mut line = Line::new();
    line.add(head);
    line.add(name);
    line.add(" ");
    line.add(Buffer::new().format(number));
    line.add("\n");
    line
}

/// The number of a file's key.
fn key_number(key: Key) -> u32
    ensures { result ≡ key_number_of key }
{
    match key {
        Key::Program(file) => file_number(file),
        Key::Image => 3,
        Key::Text => 4,
        Key::Script => 5,
    }
}

/// The number of a file.
fn file_number(file: File) -> u32
    ensures { result ≡ file_number_of file }
{
    match file {
        File::Flat => 0,
        File::Rsrc => 1,
        File::Pef => 2,
    }
}
