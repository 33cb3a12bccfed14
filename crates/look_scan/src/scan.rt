// What a program would ask for.
ghost use Rattle.std.specs.Prelude.{◌*◌, ◌^◌, ◌≤◌, length};
ghost use Rattle.mix_load.specs.LoadClauses.{AreLoadable, IsSmall};

use crate::code::{add_traps, first_lacking};
use crate::counts::{add_counts, add_trap};
use crate::described::{add_descriptors, add_untold};
use crate::imports::add_imports;
use crate::place::{Part, Place, add_place};
use look_text::{Mapped, add};
use mix_bits::{Isa, NoMemory, word_at};
use mix_load::{FileBytes, Files, LoadError, load, segment_at};
use pef_head::Pef;
use rsrc_fork::{Fork, RsrcError};
use std::alloc::Global;

/// A trap that the library lacks, and where it stands.
#[derive(Clone, Copy)]
struct Lacking {
    place: Place,
    trap: u16,
}

/// What was found so far.
#[derive(Drop)]
struct Scan {
    text: Vec<u8>,
    traps: Vec<u16>,
    lacking: Option<Lacking>,
    descriptors: u32,
}

/// Says what a program would ask for: the traps in its code, the routine descriptors in its files and its imports, and
/// what stops it first, as far as that is seen without a run. What is refused by a reader of files is passed over.
pub fn scan_program(alloc: Global, files: &Files, main: Isa, kib: u32) -> Result<Mapped, NoMemory>
    requires files { AreLoadable files.now main }
    requires least { 128 ≤ kib }
    requires most { kib ≤ 16384 }
{
    let mut scan = Scan {
        text: Vec::new(alloc),
        traps: Vec::new(alloc),
        lacking: None,
        descriptors: 0,
    };
    add_files(alloc, &mut scan, files, main)?;
    let Scan {
        mut text,
        traps,
        lacking,
        descriptors,
    } = scan;
    add_untold(&mut text, descriptors)?;
    add_counts(alloc, &mut text, &traps)?;
    match load(alloc, files, main, kib) {
        Ok(_) => {
            add_stop(&mut text, lacking)?;
            Ok(Mapped::Loaded(text))
        }
        Err(LoadError::NoMemory) => Err(NoMemory),
        Err(error) => Ok(Mapped::Refused(text, error)),
    }
}

/// Appends what stops a program first that is loaded.
fn add_stop(text: &mut Vec<u8>, lacking: Option<Lacking>) -> Result<(), NoMemory> {
    let Some(Lacking { place, trap }) = lacking else {
        return add(
            text,
            "nothing that stands in it is missing in the library\n",
        );
    };
    add(text, "missing first: trap ")?;
    add_trap(text, trap)?;
    add(text, " at ")?;
    add_place(text, place)?;
    add(text, "\n")
}

/// Scans the files that there are.
fn add_files(alloc: Global, scan: &mut Scan, files: &Files, main: Isa) -> Result<(), NoMemory>
    requires flat { IsSmall files.now.flat }
    requires rsrc { IsSmall files.now.rsrc }
    requires pef { IsSmall files.now.pef }
{
    add_flat(alloc, scan, &files.flat, main)?;
    add_fork_file(alloc, scan, &files.rsrc)?;
    add_container_file(alloc, scan, &files.pef)
}

/// Scans a flat file, which has code of the main set.
fn add_flat(
    alloc: Global,
    scan: &mut Scan,
    file: &Option<FileBytes>,
    main: Isa,
) -> Result<(), NoMemory>
    requires { IsSmall file.now }
{
    match file {
        Some(file) => add_image(alloc, scan, file.bytes(), main),
        None => Ok(()),
    }
}

fn add_image(alloc: Global, scan: &mut Scan, bytes: &[u8], main: Isa) -> Result<(), NoMemory>
    requires { length bytes.now ≤ 2 ^ 24 }
{
    if let Isa::M68 = main {
        add_code(scan, Part::Flat, bytes, 0)?;
    }
    described(alloc, scan, Part::Flat, bytes)
}

/// Scans a fork's file.
fn add_fork_file(alloc: Global, scan: &mut Scan, file: &Option<FileBytes>) -> Result<(), NoMemory>
    requires { IsSmall file.now }
{
    match file {
        Some(file) => add_fork(alloc, scan, file.bytes()),
        None => Ok(()),
    }
}

/// Scans the CODEs of a fork above 0.
fn add_fork(alloc: Global, scan: &mut Scan, bytes: &[u8]) -> Result<(), NoMemory>
    requires { length bytes.now ≤ 2 ^ 24 }
{
    match Fork::read(alloc, bytes) {
        Ok(fork) => add_segments(alloc, scan, &fork, bytes.len()),
        Err(RsrcError::NoMemory) => Err(NoMemory),
        Err(_) => Ok(()),
    }
}

/// Scans segments up to the first ones that have more bytes together than there are: such share them.
fn add_segments(alloc: Global, scan: &mut Scan, fork: &Fork, bytes: usize) -> Result<(), NoMemory> {
    let mut room = bytes;
    for id in 1..32768 {
        if let Some(code) = segment_at(fork, id) {
            if room < code.len() {
                return add(
                    &mut scan.text,
                    "the CODEs share bytes: not all were scanned\n",
                );
            }
            room -= code.len();
            add_segment(alloc, scan, id, code)?;
        }
    }
    Ok(())
}

/// Scans a container's file.
fn add_container_file(
    alloc: Global,
    scan: &mut Scan,
    file: &Option<FileBytes>,
) -> Result<(), NoMemory>
    requires { IsSmall file.now }
{
    match file {
        Some(file) => add_container(alloc, scan, file.bytes()),
        None => Ok(()),
    }
}

/// Scans a segment. Its code stands behind a header of two words.
fn add_segment(alloc: Global, scan: &mut Scan, id: u16, code: &[u8]) -> Result<(), NoMemory>
    requires { length code.now ≤ 2 ^ 24 }
{
    if 4 <= code.len() {
        add_code(scan, Part::Code(id), &code[4..], 4)?;
    }
    described(alloc, scan, Part::Code(id), code)
}

/// Scans 68K code that begins in a part at an offset.
fn add_code(scan: &mut Scan, part: Part, code: &[u8], start: u32) -> Result<(), NoMemory>
    requires small { length code.now ≤ 2 ^ 24 }
    requires near { start ≤ 4 }
{
    add_traps(&mut scan.traps, code)?;
    if scan.lacking.is_none() {
        scan.lacking = lacking_in(part, code, start);
    }
    Ok(())
}

/// The first trap in code that the library lacks.
fn lacking_in(part: Part, code: &[u8], start: u32) -> Option<Lacking>
    requires small { length code.now ≤ 2 ^ 24 }
    requires near { start ≤ 4 }
{
    match first_lacking(code) {
        Some(k) => Some(Lacking {
            place: Place {
                part,
                offset: start + 2 * k,
            },
            trap: word_at(code, 2 * k),
        }),
        None => None,
    }
}

/// Scans the sections of a container that are not packed, and its imports.
fn add_container(alloc: Global, scan: &mut Scan, bytes: &[u8]) -> Result<(), NoMemory>
    requires { length bytes.now ≤ 2 ^ 24 }
{
    let Ok(pef) = Pef::read(bytes) else {
        return Ok(());
    };
    let mut room = bytes.len();
    for k in 0..pef.sections() {
        let section = pef.section(k);
        if !section.is_pattern() && section.bytes.len() <= room {
            room -= section.bytes.len();
            described(alloc, scan, Part::Section(k), section.bytes)?;
        }
    }
    add_imports(alloc, &mut scan.text, &pef)
}

/// Scans a part for routine descriptors.
fn described(alloc: Global, scan: &mut Scan, part: Part, bytes: &[u8]) -> Result<(), NoMemory>
    requires { length bytes.now ≤ 2 ^ 24 }
{
    scan.descriptors = add_descriptors(alloc, &mut scan.text, part, bytes, scan.descriptors)?;
    Ok(())
}
