ghost use Rattle.std.specs.Prelude.{◌≡◌, ◌==◌, ◌*◌, ◌%◌, ◌≤◌, IfErr, IfOk, MatchResult, length, false, true};
ghost use Rattle.switch_frame.specs.ProgramClauses.{IsProgram};
ghost use Rattle.mix_load.specs.ContainerImage.{with_container};
ghost use Rattle.mix_load.specs.ForkImage.{with_fork};
ghost use Rattle.mix_load.specs.LoadClauses.{AreLoadable, IsSmall};
ghost use Rattle.mix_load.specs.Load.{load_of, no_image, with_file, with_flat};
ghost use Rattle.mix_load.specs.inner.Loaded.{IsImage};
ghost use Rattle.mix_load.specs.OutcomeClauses.{Gives};

use crate::container::add_container;
use crate::error::LoadError;
use crate::files::{FileBytes, Files};
use crate::flat::add_flat;
use crate::fork::add_fork;
use crate::image::Image;
use crate::program::program;
use big_memory::Ram;
use mix_bits::{File, Isa};
use std::alloc::Global;
use switch_frame::{PROGRAM_START, Program};

/// Memory without a program.
fn no_image(alloc: Global, len: u32) -> Result<Image, LoadError>
    requires least { 131072 ≤ len }
    requires most { len ≤ 16777216 }
    requires whole { len % 1024 ≡ 0 }
    ensures is { IfOk result (λ image. image ≡ no_image len) }
    ensures whole { IfOk result IsImage }
    ensures memory { IfErr result (λ e. e ≡ LoadError.NoMemory) }
{
    let ram = Ram::new(alloc, len)?;
    Ok(Image {
        ram,
        end: PROGRAM_START,
        entry: 0,
        vector: 0,
        a5: 0,
    })
}

/// The bytes of a file, which has at least one.
fn bytes_of(bytes: &FileBytes, file: File) -> Result<&[u8], LoadError>
    ensures { MatchResult result
        (λ found. (found.now ≡ bytes.now) × ((length bytes.now == 0) ≡ false))
        (λ e. (e ≡ LoadError.Empty file) × ((length bytes.now == 0) ≡ true)) }
{
    let found = bytes.bytes();
    if found.is_empty() {
        Err(LoadError::Empty(file))
    } else {
        Ok(found)
    }
}

/// Adds the flat file, if there is one.
fn with_flat_file(files: &Files, main: Isa, image: Image) -> Result<Image, LoadError>
    requires small { IsSmall files.now.flat }
    requires whole { IsImage image }
    ensures is { Gives result (with_file File.Flat (with_flat main) files.now.flat image) }
    ensures whole { IfOk result IsImage }
{
    let Some(file) = &files.flat else {
        return Ok(image);
    };
    add_flat(bytes_of(file, File::Flat)?, main, image)
}

/// Adds the fork's file, if there is one.
fn with_fork_file(alloc: Global, files: &Files, image: Image) -> Result<Image, LoadError>
    requires small { IsSmall files.now.rsrc }
    requires whole { IsImage image }
    ensures is { Gives result (with_file File.Rsrc with_fork files.now.rsrc image) }
    ensures whole { IfOk result IsImage }
{
    let Some(file) = &files.rsrc else {
        return Ok(image);
    };
    add_fork(alloc, bytes_of(file, File::Rsrc)?, image)
}

/// Adds the container's file, if there is one.
fn with_container_file(
    alloc: Global,
    files: &Files,
    main: Isa,
    image: Image,
) -> Result<Image, LoadError>
    requires small { IsSmall files.now.pef }
    requires whole { IsImage image }
    ensures is { Gives result (with_file File.Pef (with_container main) files.now.pef image) }
    ensures whole { IfOk result IsImage }
{
    let Some(file) = &files.pef else {
        return Ok(image);
    };
    add_container(alloc, bytes_of(file, File::Pef)?, main, image)
}

/// Loads the files of a program into `kib` KiB of RAM.
///
/// The files are a flat file, or a fork, a container or both, among them that of the set `main`; none of
/// them has more than 16 MiB. A refusal is that of the first rule that is broken: the fork is read and placed
/// before the container is read, and a file without a byte is refused first.
pub fn load(alloc: Global, files: &Files, main: Isa, kib: u32) -> Result<Program, LoadError>
    requires files { AreLoadable files.now main }
    requires least { 128 ≤ kib }
    requires most { kib ≤ 16384 }
    ensures is { Gives result (load_of files.now main (1024 * kib)) }
    ensures loaded { IfOk result IsProgram }
{
    let none = no_image(alloc, 1024 * kib)?;
    let flat = with_flat_file(files, main, none)?;
    let fork = with_fork_file(alloc, files, flat)?;
    let whole = with_container_file(alloc, files, main, fork)?;
    Ok(program(main, whole))
}
