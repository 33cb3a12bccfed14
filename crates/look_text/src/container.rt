// A container: its sections and its imports.
ghost use Rattle.std.specs.Prelude.{◌≡◌, ℕ, ◌^◌, ◌<◌, ◌≤◌, ◌++◌, IfSome, OnOk, length, slice_index};
ghost use Rattle.big_memory.specs.Map.{host_functions};
ghost use Rattle.pef_head.specs.Parts.{import_count};
ghost use Rattle.pef_head.specs.PartsByNumber.{library_of};
ghost use Rattle.pef_head.specs.PartsClauses.{names};
ghost use Rattle.mix_load.specs.LoadClauses.{IsSmall};
ghost use Rattle.look_text.specs.Maps.{container_file_text};
ghost use Rattle.look_text.specs.Containers.{host_line, host_text, import_line, imports_text, parts_text};

use crate::line::{Piece, add_line};
use crate::pieces::add;
use crate::sections::add_sections;
use big_memory::host_vector;
use mix_bits::NoMemory;
use mix_load::FileBytes;
use pef_head::{Import, Pef};
use std::alloc::Global;
use toolbox::import_index;

/// How many bytes of a name are told.
const NAME_BYTES: usize = 255;

/// Appends the lines of a container's file, if there is one, whose sections begin behind `start`.
pub fn add_container(
    alloc: Global,
    text: &mut Vec<u8>,
    file: &Option<FileBytes>,
    start: u64,
) -> Result<(), NoMemory>
    requires small { IsSmall file.now }
    requires near { start ≤ 2 ^ 43 }
    ensures { OnOk result (text.new.items ≡ text.old.items ++ container_file_text start file.now) }
{
    let Some(file) = file else {
        return Ok(());
    };
    match Pef::read(file.bytes()) {
        Ok(pef) => add_parts(alloc, text, &pef, start),
        Err(_) => Ok(()),
    }
}

#[tactic(auto, using(std::proofs::Common::append_assoc))]
fn add_parts(alloc: Global, text: &mut Vec<u8>, pef: &Pef, start: u64) -> Result<(), NoMemory>
    requires { start ≤ 2 ^ 43 }
    ensures { OnOk result (text.new.items ≡ text.old.items ++ parts_text pef.now start) }
{
    add_sections(text, pef, start, pef.sections())?;
    let owners = pef.owners(alloc)?;
    add_imports(text, pef, &owners, pef.imports())
}

/// Appends the lines of the first imports, by the numbers of their libraries.
#[tactic(auto, using(std::proofs::Common::append_assoc))]
fn add_imports(text: &mut Vec<u8>, pef: &Pef, owners: &[u32], count: u32) -> Result<(), NoMemory>
    requires below { count ≤ import_count pef.now }
    requires owners { (i : ℕ) → i < import_count pef.now → slice_index owners.now i ≡ library_of pef.now i }
    requires len { length owners.now ≡ import_count pef.now }
    ensures { OnOk result (text.new.items ≡ text.old.items ++ imports_text pef.now count) }
{
    for i in 0..count {
        add_import(
            text,
            i,
            pef.import_within(i, owners[i as usize], NAME_BYTES),
        )?;
    }
    Ok(())
}

/// Appends the line of an import.
#[tactic(auto, using(std::proofs::Common::append_assoc), unfolding(crate::specs::Containers::import_line))]
fn add_import(text: &mut Vec<u8>, i: u32, import: Import) -> Result<(), NoMemory>
    ensures { OnOk result (text.new.items ≡ text.old.items ++ import_line i (names import.entry)) }
{
    add_line(
        text,
        &[
            Piece::Text("import "),
            Piece::Number(i),
            Piece::Text(": "),
            Piece::Bytes(import.library),
            Piece::Text(" "),
            Piece::Bytes(import.name),
        ],
    )?;
    add_host(text, import.weak, import_index(import.library, import.name))
}

/// Appends what the host has for an import.
fn add_host(text: &mut Vec<u8>, weak: bool, index: Option<u32>) -> Result<(), NoMemory>
    requires { IfSome index (λ k. k < host_functions) }
    ensures { OnOk result (text.new.items ≡ text.old.items ++ host_text index weak) }
{
    match index {
        Some(k) => add_function(text, k, host_vector(k)),
        None => add(text, missing(weak)),
    }
}

#[tactic(auto, unfolding(crate::specs::Containers::host_line))]
fn add_function(text: &mut Vec<u8>, k: u32, vector: u32) -> Result<(), NoMemory>
    ensures { OnOk result (text.new.items ≡ text.old.items ++ host_line k vector) }
{
    add_line(
        text,
        &[
            Piece::Text(", host function "),
            Piece::Number(k),
            Piece::Text(" at "),
            Piece::Long(vector),
            Piece::Text("\n"),
        ],
    )
}

/// What is said of an import that the host lacks.
fn missing(weak: bool) -> &'static str
    ensures { result.now ≡ host_text None weak }
{
    if weak {
        ", not in the library, and may be missing\n"
    } else {
        ", not in the library\n"
    }
}
