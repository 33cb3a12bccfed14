// What could be read of the files of a program.
ghost use Rattle.std.specs.Prelude.{◌≡◌, ◌^◌, ◌<◌, ◌≤◌, ◌++◌, IfOk, OnOk};
ghost use Rattle.mix_load.specs.LoadClauses.{IsSmall};
ghost use Rattle.look_text.specs.Maps.{files_text, flat_text, fork_file_end, fork_file_text, pieces_text};

use crate::container::add_container;
use crate::fork::add_fork;
use crate::line::{Piece, add_line, line_of};
use mix_bits::NoMemory;
use mix_load::{FileBytes, Files};
use std::alloc::Global;
use switch_frame::PROGRAM_START;

/// The lines of files, with the CODEs below a count of ids, in `len` bytes of RAM.
#[tactic(auto, unfolding(crate::specs::Maps::ram_line))]
pub fn listing(alloc: Global, files: &Files, len: u32, ids: u16) -> Result<Vec<u8>, NoMemory>
    requires flat { IsSmall files.now.flat }
    requires rsrc { IsSmall files.now.rsrc }
    requires pef { IsSmall files.now.pef }
    requires few { 0 < ids }
    ensures { IfOk result (λ text. text.items ≡ files_text ids len files.now) }
{
    let mut text = line_of(
        alloc,
        &[
            Piece::Text("RAM: "),
            Piece::Number(len),
            Piece::Text(" bytes\n"),
        ],
    )?;
    add_files(alloc, &mut text, files, ids)?;
    Ok(text)
}

/// Appends the lines of files.
#[tactic(auto, using(std::proofs::Common::append_assoc))]
fn add_files(alloc: Global, text: &mut Vec<u8>, files: &Files, ids: u16) -> Result<(), NoMemory>
    requires flat { IsSmall files.now.flat }
    requires rsrc { IsSmall files.now.rsrc }
    requires pef { IsSmall files.now.pef }
    requires few { 0 < ids }
    ensures { OnOk result (text.new.items ≡ text.old.items ++ pieces_text ids files.now) }
{
    add_flat(text, &files.flat)?;
    let end = add_fork_file(alloc, text, &files.rsrc, ids)?;
    add_container(alloc, text, &files.pef, end)
}

/// Appends the line of a flat file, if there is one.
#[tactic(auto, unfolding(crate::specs::Maps::flat_line))]
fn add_flat(text: &mut Vec<u8>, file: &Option<FileBytes>) -> Result<(), NoMemory>
    requires { IsSmall file.now }
    ensures { OnOk result (text.new.items ≡ text.old.items ++ flat_text file.now) }
{
    match file {
        Some(file) => add_line(
            text,
            &[
                Piece::Text("flat file: at 00010000, "),
                Piece::Number(file.bytes().len() as u32),
                Piece::Text(" bytes\n"),
            ],
        ),
        None => Ok(()),
    }
}

/// Appends the lines of a fork's file, if there is one, and says where its CODEs end.
fn add_fork_file(
    alloc: Global,
    text: &mut Vec<u8>,
    file: &Option<FileBytes>,
    ids: u16,
) -> Result<u64, NoMemory>
    requires small { IsSmall file.now }
    requires few { 0 < ids }
    ensures text { IfOk result (λ _. text.new.items ≡ text.old.items ++ fork_file_text ids file.now) }
    ensures end { IfOk result (λ end. end ≡ fork_file_end ids file.now) }
    ensures near { IfOk result (λ end. end ≤ 2 ^ 42) }
{
    match file {
        Some(file) => add_fork(alloc, text, file.bytes(), ids),
        None => Ok(u64::from(PROGRAM_START)),
    }
}
