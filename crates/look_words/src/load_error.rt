// Why a program is not loaded, in a sentence.
ghost use Rattle.std.specs.Prelude.{◌≡◌, ◌^◌, ◌≤◌, None, IfOk, IfSome, length};
ghost use Rattle.std.specs.Fmt.{signed_decimal};
ghost use Rattle.std.specs.String.{string_bytes};
ghost use Rattle.mix_load.specs.LoadClauses.{IsSmall};
ghost use Rattle.pef_head.specs.PartsClauses.{names};
ghost use Rattle.pef_head.specs.Refusals.{refusal_of};
ghost use Rattle.look_words.specs.Refusals.{empty_text as empty_sentence, far_text, fork_refusal_text, lacking_by, lacking_in, lacking_text, large_by, large_text, no_code_text, resource_text, sentence_of, table_refusal_text};

use crate::unmade::unmade_section;
use look_text::{Piece, line_of};
use mix_bits::NoMemory;
use mix_load::{File, FileBytes, Files, LoadError};
use pef_head::{Import, Pef};
use pef_reloc::RelocError;
use rsrc_fork::RsrcError;
use std::alloc::Global;

/// How many bytes of a name are told.
const NAME_BYTES: usize = 255;

/// The rule that files break, in a sentence without a line feed.
pub fn load_error_text(alloc: Global, files: &Files, error: LoadError) -> Result<Vec<u8>, NoMemory>
    requires { IsSmall files.now.pef }
    ensures { IfOk result (λ text. IfSome (sentence_of files.now.pef error) (λ sentence. text.items ≡ sentence)) }
{
    match error {
        LoadError::Empty(file) => told(alloc, empty_text(file)),
        LoadError::Rsrc(e) => fork_refusal(alloc, e),
        LoadError::NoCode(id) => no_code(alloc, id),
        LoadError::Far(id) => far(alloc, id),
        LoadError::JumpTable(at) => jump_table(alloc, at),
        LoadError::Pef(_) => plain(alloc, "the container is none: ", error),
        LoadError::TooLarge(end) => too_large(alloc, end),
        LoadError::Reloc(e) => unmade(alloc, &files.pef, e),
        LoadError::Unresolved(i) => unresolved(alloc, &files.pef, i),
        LoadError::NoMemory | LoadError::NoMain => plain(alloc, "", error),
    }
}

fn empty_text(file: File) -> &'static str
    ensures { result.now ≡ empty_sentence file }
{
    match file {
        File::Flat => "the flat file has no byte",
        File::Rsrc => "the fork's file has no byte",
        File::Pef => "the container's file has no byte",
    }
}

fn fork_refusal(alloc: Global, error: RsrcError) -> Result<Vec<u8>, NoMemory>
    ensures { IfOk result (λ text. IfSome (fork_refusal_text error) (λ sentence. text.items ≡ sentence)) }
{
    match error {
        RsrcError::Twice(kind, id) => resource(alloc, kind, id, " stands twice in the fork"),
        RsrcError::Compressed(kind, id) => resource(alloc, kind, id, " is compressed"),
        RsrcError::NoMemory | RsrcError::Short(_) | RsrcError::Overlap | RsrcError::BadOffset(_) =>
            plain(alloc, "the fork is none: ", LoadError::Rsrc(error)),
    }
}

/// A sentence about a resource.
fn resource(alloc: Global, kind: u32, id: i16, rest: &str) -> Result<Vec<u8>, NoMemory>
    ensures { IfOk result (λ text. text.items ≡ resource_text kind id rest.now) }
{
    let kind = kind.to_be_bytes();
    let id = numeral(alloc, id)?;
    line_of(
        alloc,
        &[
            Piece::Text("the resource "),
            Piece::Bytes(&kind),
            Piece::Text(" "),
            Piece::Text(id.as_str()),
            Piece::Text(rest),
        ],
    )
}

/// A number in decimal.
fn numeral(alloc: Global, number: i16) -> Result<String, NoMemory>
    ensures { IfOk result (λ text. string_bytes text ≡ signed_decimal number) }
{
    Ok(format!(in alloc; "{number}")?)
}

/// A sentence about a CODE that is missing.
fn no_code(alloc: Global, id: i16) -> Result<Vec<u8>, NoMemory>
    ensures { IfOk result (λ text. text.items ≡ no_code_text id) }
{
    if id == 1 {
        return told(alloc, "the fork has no CODE above 0");
    }
    let id = numeral(alloc, id)?;
    line_of(
        alloc,
        &[
            Piece::Text("the fork has no CODE "),
            Piece::Text(id.as_str()),
        ],
    )
}

/// A sentence about a CODE of the far model.
fn far(alloc: Global, id: i16) -> Result<Vec<u8>, NoMemory>
    ensures { IfOk result (λ text. text.items ≡ far_text id) }
{
    let id = numeral(alloc, id)?;
    line_of(
        alloc,
        &[
            Piece::Text("CODE "),
            Piece::Text(id.as_str()),
            Piece::Text(" is of the far model, which is not loaded"),
        ],
    )
}

/// A sentence about the jump table.
fn jump_table(alloc: Global, at: u32) -> Result<Vec<u8>, NoMemory>
    ensures { IfOk result (λ text. text.items ≡ table_refusal_text at) }
{
    if at == 0 {
        told(
            alloc,
            "CODE 0 has no jump table above A5, or a CODE has fewer than 4 bytes",
        )
    } else {
        line_of(
            alloc,
            &[
                Piece::Text("the jump table's entry at "),
                Piece::Number(at),
                Piece::Text(" in CODE 0 names no place in a CODE"),
            ],
        )
    }
}

/// A sentence about a program that would reach the stack.
fn too_large(alloc: Global, end: u64) -> Result<Vec<u8>, NoMemory>
    ensures { IfOk result (λ text. IfSome (large_by end) (λ sentence. text.items ≡ sentence)) }
{
    if end < 0x1_0000_0000 {
        large(alloc, end as u32)
    } else {
        larger(alloc, end)
    }
}

fn large(alloc: Global, end: u32) -> Result<Vec<u8>, NoMemory>
    ensures { IfOk result (λ text. text.items ≡ large_text end) }
{
    line_of(
        alloc,
        &[
            Piece::Text("the program would end at $"),
            Piece::Long(end),
            Piece::Text(", in the quarter of RAM that is the stack's"),
        ],
    )
}

/// The same of an end above all addresses.
fn larger(alloc: Global, end: u64) -> Result<Vec<u8>, NoMemory> {
    let sentence = format!(in alloc;
        "the program would end at ${end:X}, in the quarter of RAM that is the stack's"
    )?;
    told(alloc, sentence.as_str())
}

/// The sentence about an import that the host lacks.
fn unresolved(alloc: Global, file: &Option<FileBytes>, i: u32) -> Result<Vec<u8>, NoMemory>
    requires { IsSmall file.now }
    ensures { IfOk result (λ text. IfSome (lacking_by file.now i) (λ sentence. text.items ≡ sentence)) }
{
    match file {
        Some(file) => unresolved_by(alloc, file.bytes(), i),
        None => plain(alloc, "", LoadError::Unresolved(i)),
    }
}

fn unresolved_by(alloc: Global, bytes: &[u8], i: u32) -> Result<Vec<u8>, NoMemory>
    requires { length bytes.now ≤ 2 ^ 24 }
    ensures { IfOk result (λ text. IfSome (lacking_in (refusal_of bytes.now) bytes.now i) (λ sentence. text.items ≡ sentence)) }
{
    match Pef::read(bytes) {
        Ok(pef) => unresolved_in(alloc, &pef, i),
        Err(_) => plain(alloc, "", LoadError::Unresolved(i)),
    }
}

fn unresolved_in(alloc: Global, pef: &Pef, i: u32) -> Result<Vec<u8>, NoMemory>
    ensures { IfOk result (λ text. IfSome (lacking_in None pef.now i) (λ sentence. text.items ≡ sentence)) }
{
    if pef.imports() <= i {
        return plain(alloc, "", LoadError::Unresolved(i));
    }
    let owners = pef.owners(alloc)?;
    named(
        alloc,
        i,
        pef.import_within(i, owners[i as usize], NAME_BYTES),
    )
}

#[tactic(auto, unfolding(crate::specs::Refusals::lacking_text))]
fn named(alloc: Global, i: u32, import: Import) -> Result<Vec<u8>, NoMemory>
    ensures { IfOk result (λ text. text.items ≡ lacking_text i (names import.entry)) }
{
    line_of(
        alloc,
        &[
            Piece::Text("the host has no "),
            Piece::Bytes(import.name),
            Piece::Text(" of "),
            Piece::Bytes(import.library),
            Piece::Text(", which is import "),
            Piece::Number(i),
            Piece::Text(" of the container"),
        ],
    )
}

/// The sentence about a section that is not made.
fn unmade(alloc: Global, file: &Option<FileBytes>, error: RelocError) -> Result<Vec<u8>, NoMemory>
    requires { IsSmall file.now }
{
    match unmade_in(alloc, file, error)? {
        Some(k) => unmade_at(alloc, k, error),
        None => plain(alloc, "a section is not made: ", LoadError::Reloc(error)),
    }
}

fn unmade_at(alloc: Global, k: u32, error: RelocError) -> Result<Vec<u8>, NoMemory> {
    let reason = reason(alloc, LoadError::Reloc(error))?;
    line_of(
        alloc,
        &[
            Piece::Text("section "),
            Piece::Number(k),
            Piece::Text(" is not made: "),
            Piece::Text(reason.as_str()),
        ],
    )
}

/// The number of that section.
fn unmade_in(
    alloc: Global,
    file: &Option<FileBytes>,
    error: RelocError,
) -> Result<Option<u32>, NoMemory>
    requires { IsSmall file.now }
{
    if let Some(file) = file {
        if let Ok(pef) = Pef::read(file.bytes()) {
            return unmade_section(alloc, &pef, error);
        }
    }
    Ok(None)
}

/// A sentence that ends in the text of an error.
fn plain(alloc: Global, front: &str, error: LoadError) -> Result<Vec<u8>, NoMemory> {
    let reason = reason(alloc, error)?;
    line_of(alloc, &[Piece::Text(front), Piece::Text(reason.as_str())])
}

/// The text of an error.
fn reason(alloc: Global, error: LoadError) -> Result<String, NoMemory> {
    Ok(format!(in alloc; "{error}")?)
}

fn told(alloc: Global, sentence: &str) -> Result<Vec<u8>, NoMemory>
    ensures { IfOk result (λ text. text.items ≡ sentence.now) }
{
    Ok(Vec::from_slice(alloc, sentence.as_bytes())?)
}
