// What a container imports.
ghost use Rattle.std.specs.Prelude.{◌≡◌, ℕ, ◌<◌, ◌≤◌, length, slice_index};
ghost use Rattle.pef_head.specs.Parts.{import_count};
ghost use Rattle.pef_head.specs.PartsByNumber.{library_of};

use indexmap::IndexMap;
use look_text::{Piece, add_line};
use mix_bits::NoMemory;
use pef_head::{Import, Pef};
use std::alloc::Global;
use toolbox::import_index;

/// How many bytes of a name are told.
const NAME_BYTES: usize = 255;

/// How many imports that the library lacks are told.
const MOST: u32 = 256;

/// How many symbols of an imported library the host has, and how many it lacks.
#[derive(Clone, Copy)]
struct Tally {
    has: u32,
    lacks: u32,
}

/// Appends a line for each import that the library lacks, and one for each library of a container.
pub fn add_imports(alloc: Global, text: &mut Vec<u8>, pef: &Pef) -> Result<(), NoMemory> {
    let owners = pef.owners(alloc)?;
    let count = pef.imports();
    let mut tallies = IndexMap::new(alloc);
    add_each(text, &mut tallies, pef, &owners, count)?;
    add_tallies(text, &tallies)
}

/// Counts the first imports, by the numbers of their libraries, and appends the lines of those that the library lacks.
fn add_each<'a>(
    text: &mut Vec<u8>,
    tallies: &mut IndexMap<&'a [u8], Tally>,
    pef: &Pef<'a>,
    owners: &[u32],
    count: u32,
) -> Result<(), NoMemory>
    requires below { count ≤ import_count pef.now }
    requires owners { (i : ℕ) → i < import_count pef.now → slice_index owners.now i ≡ library_of pef.now i }
    requires len { length owners.now ≡ import_count pef.now }
{
    let mut lacking = 0;
    for i in 0..count {
        let import = pef.import_within(i, owners[i as usize], NAME_BYTES);
        let has = import_index(import.library, import.name).is_some();
        count_import(tallies, import.library, has)?;
        if !has {
            lacking = add_lacking(text, i, import, lacking)?;
        }
    }
    Ok(())
}

/// Counts a symbol of a library.
fn count_import<'a>(
    tallies: &mut IndexMap<&'a [u8], Tally>,
    library: &'a [u8],
    has: bool,
) -> Result<(), NoMemory> {
    let before = tallies
        .get(&library)
        .copied()
        .unwrap_or(Tally { has: 0, lacks: 0 });
    let after = if has {
        Tally {
            has: before.has.saturating_add(1),
            lacks: before.lacks,
        }
    } else {
        Tally {
            has: before.has,
            lacks: before.lacks.saturating_add(1),
        }
    };
    tallies.insert(library, after)?;
    Ok(())
}

/// Appends the line of an import that the library lacks, unless so many were told, and counts it.
fn add_lacking(text: &mut Vec<u8>, i: u32, import: Import, told: u32) -> Result<u32, NoMemory> {
    if told == MOST {
        add_line(text, &[Piece::Text("import ..: and more\n")])?;
    } else if told < MOST {
        add_line(
            text,
            &[
                Piece::Text("import "),
                Piece::Number(i),
                Piece::Text(": "),
                Piece::Bytes(import.library),
                Piece::Text(" "),
                Piece::Bytes(import.name),
                Piece::Text(if import.weak {
                    ", not in the library, and may be missing\n"
                } else {
                    ", not in the library\n"
                }),
            ],
        )?;
    }
    Ok(told.saturating_add(1))
}

fn add_tallies(text: &mut Vec<u8>, tallies: &IndexMap<&[u8], Tally>) -> Result<(), NoMemory> {
    for (library, tally) in tallies.iter() {
        add_line(
            text,
            &[
                Piece::Text("imports of "),
                Piece::Bytes(*library),
                Piece::Text(": "),
                Piece::Number(tally.has),
                Piece::Text(" in the library, "),
                Piece::Number(tally.lacks),
                Piece::Text(" not\n"),
            ],
        )?;
    }
    Ok(())
}
