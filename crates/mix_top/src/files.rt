// The files that a command wants.
ghost use Rattle.std.specs.Prelude.{◌≡◌, IfErr, IfOk, OnOk, map};
ghost use Rattle.std.specs.String.{string_bytes};
ghost use Rattle.job_words.specs.JobsClauses.{NamesFiles};
ghost use Rattle.job_words.specs.Jobs.{keys_in_order};
ghost use Rattle.mix_top.specs.Files.{AreFiles, IsOf, bytes_in};
ghost use Rattle.mix_top.specs.World.{NoneRose};
ghost use Rattle.mix_top.specs.WorldClauses.{counting};
ghost use Rattle.mix_top.specs.inner.Parts.{Adds, Misses, MissesFirst, with_file as with_file_of};

use job_words::{Command, Key, file_name};
use mix_bits::File;
use mix_io::{FetchError, Shelf};
use mix_load::{FileBytes, Files};
use std::alloc::Global;

/// The files that a command wants: those of a program, an image, a text, and a script.
#[derive(Drop)]
pub struct Fetched {
    pub program: Files,
    pub image: Option<FileBytes>,
    pub text: Option<FileBytes>,
    pub script: Option<FileBytes>,
}

/// A file that was not fetched: its key, the place of the word that names it, and why.
#[derive(Drop)]
pub struct Missing {
    pub key: Key,
    pub place: u32,
    pub error: FetchError,
}

/// Fetches the files that a command wants, in the order of their keys.
pub fn fetch_files<F: Shelf>(
    alloc: Global,
    words: &[String],
    command: Command,
    shelf: &mut F,
) -> Result<Fetched, Missing>
    requires { NamesFiles (map string_bytes words.now) command }
    ensures contents { F.contents shelf.new ≡ F.contents shelf.old }
    ensures files { IfOk result (AreFiles (map string_bytes words.now) (F.contents shelf.old) command) }
    ensures counts { OnOk result (NoneRose (counting (F.faults shelf.old) (F.excesses shelf.old)) (counting (F.faults shelf.new) (F.excesses shelf.new))) }
    ensures missing { IfErr result (MissesFirst (map string_bytes words.now) (F.contents shelf.old) command keys_in_order (counting (F.faults shelf.old) (F.excesses shelf.old)) (counting (F.faults shelf.new) (F.excesses shelf.new))) }
{
    let none = Fetched {
        program: Files {
            flat: None,
            rsrc: None,
            pef: None,
        },
        image: None,
        text: None,
        script: None,
    };
    add_files(alloc, words, command, &Key::ALL, none, shelf)
}

/// Adds the files of some keys that a command wants.
fn add_files<F: Shelf>(
    alloc: Global,
    words: &[String],
    command: Command,
    keys: &[Key],
    files: Fetched,
    shelf: &mut F,
) -> Result<Fetched, Missing>
    requires { NamesFiles (map string_bytes words.now) command }
    ensures contents { F.contents shelf.new ≡ F.contents shelf.old }
    ensures files { IfOk result (Adds (map string_bytes words.now) (F.contents shelf.old) command keys.now files) }
    ensures counts { OnOk result (NoneRose (counting (F.faults shelf.old) (F.excesses shelf.old)) (counting (F.faults shelf.new) (F.excesses shelf.new))) }
    ensures missing { IfErr result (MissesFirst (map string_bytes words.now) (F.contents shelf.old) command keys.now (counting (F.faults shelf.old) (F.excesses shelf.old)) (counting (F.faults shelf.new) (F.excesses shelf.new))) }
{
    match keys {
        [] => Ok(files),
        [key, rest @ ..] => match fetch_file(alloc, words, command, *key, shelf) {
            Ok(file) => {
                let more = with_file(files, *key, file);
                add_files(alloc, words, command, rest, more, shelf)
            }
            Err(missing) => Err(missing),
        },
    }
}

/// The files with that of a key.
fn with_file(files: Fetched, key: Key, file: Option<FileBytes>) -> Fetched
    ensures { result ≡ with_file_of files key file }
{
    let Fetched {
        program,
        image,
        text,
        script,
    } = files;
    match key {
        Key::Program(File::Flat) => Fetched {
            program: Files {
                flat: file,
                ..program
            },
            image,
            text,
            script,
        },
        Key::Program(File::Rsrc) => Fetched {
            program: Files {
                rsrc: file,
                ..program
            },
            image,
            text,
            script,
        },
        Key::Program(File::Pef) => Fetched {
            program: Files {
                pef: file,
                ..program
            },
            image,
            text,
            script,
        },
        Key::Image => Fetched {
            program,
            image: file,
            text,
            script,
        },
        Key::Text => Fetched {
            program,
            image,
            text: file,
            script,
        },
        Key::Script => Fetched {
            program,
            image,
            text,
            script: file,
        },
    }
}

/// The bytes of a file, none where there is no file.
pub fn bytes_of(file: &Option<FileBytes>) -> &[u8]
    ensures { result.now ≡ bytes_in file.now }
{
    match file {
        Some(file) => file.bytes(),
        None => &[],
    }
}

/// Fetches the file of a key, if the command wants it.
fn fetch_file<F: Shelf>(
    alloc: Global,
    words: &[String],
    command: Command,
    key: Key,
    shelf: &mut F,
) -> Result<Option<FileBytes>, Missing>
    requires { NamesFiles (map string_bytes words.now) command }
    ensures contents { F.contents shelf.new ≡ F.contents shelf.old }
    ensures file { IfOk result (IsOf (map string_bytes words.now) (F.contents shelf.old) command key) }
    ensures counts { OnOk result (NoneRose (counting (F.faults shelf.old) (F.excesses shelf.old)) (counting (F.faults shelf.new) (F.excesses shelf.new))) }
    ensures missing { IfErr result (Misses (map string_bytes words.now) (F.contents shelf.old) command key (counting (F.faults shelf.old) (F.excesses shelf.old)) (counting (F.faults shelf.new) (F.excesses shelf.new))) }
{
    let Some(place) = command.place(key) else {
        return Ok(None);
    };
    match shelf.fetch(alloc, file_name(words, place), key.limit()) {
        Ok(bytes) => Ok(Some(FileBytes::of(bytes))),
        Err(error) => Err(Missing { key, place, error }),
    }
}
