//! Resource forks as programs.
ghost use Rattle.std.specs.Prelude.{◌≡◌, ◌^◌, ◌≤◌, length, IfOk, OnOk};
ghost use Rattle.mix_bits.specs.declared.file.TheConstants.{MOST_BYTES};
ghost use Rattle.std.specs.Result.{result_err};
ghost use Rattle.mix_load.specs.inner.ForkImage.{HasRoom};
ghost use Rattle.mix_load.specs.ForkImage.{fork_end, fork_memory, fork_refusal, with_codes, with_fork, with_resources};
ghost use Rattle.mix_load.specs.inner.Loaded.{IsImage};
ghost use Rattle.mix_load.specs.OutcomeClauses.{Gives};
ghost use Rattle.mix_load.specs.Segments.{code_at, header_of};

use crate::error::{LoadError, fork_error};
use crate::header::{CodeHeader, a5_of, segments_start, table_start};
use crate::image::{Image, test_end};
use crate::segments::{code_at, code_count, put_segments, segments_end, test_segments};
use crate::table::{put_table, test_table};
use big_memory::Ram;
use rsrc_fork::Fork;
use std::alloc::{AllocError, Global};

/// How many ids are not negative.
pub const ID_COUNT: u16 = 32768;

/// What was found of the CODEs of a fork that are not refused.
#[derive(Clone, Copy)]
struct Codes {
    header: CodeHeader,
    /// Where the segments end.
    end: u64,
}

/// Tests the segments below a count of ids and the jump table, and gives the longs of CODE 0 and where the segments end.
fn test_codes(fork: &Fork, code0: &[u8], ids: u16, floor: u32) -> Result<Codes, LoadError>
    requires small { length code0.now ≤ MOST_BYTES }
    requires few { ids ≤ 32768 }
    ensures refusal { result_err result ≡ fork_refusal ids floor fork.now code0.now }
    ensures header { IfOk result (λ codes. codes.header ≡ header_of code0.now) }
    ensures end { IfOk result (λ codes. codes.end ≡ fork_end ids fork.now (header_of code0.now)) }
    ensures room { OnOk result (HasRoom ids floor fork.now code0.now) }
{
    test_segments(fork, ids)?;
    let header = test_table(fork, code0)?;
    let start = segments_start(header);
    let end = segments_end(fork, start, ids);
    test_end(end, floor)?;
    Ok(Codes { header, end })
}

/// Puts the segments and the jump table.
fn put_codes(
    alloc: Global,
    ram: &mut Ram,
    fork: &Fork,
    code0: &[u8],
    header: CodeHeader,
    ids: u16,
) -> Result<(), AllocError>
    requires room { HasRoom ids (length ram.old.bytes) fork.now code0.now }
    requires header { header ≡ header_of code0.now }
    requires small { length ram.old.bytes ≤ 2 ^ 24 }
    requires brief { length code0.now ≤ MOST_BYTES }
    ensures memory { OnOk result (ram.new ≡ fork_memory ids fork.now code0.now ram.old) }
    ensures len { length ram.new.bytes ≡ length ram.old.bytes }
{
    let start = segments_start(header);
    let places = put_segments(alloc, ram, fork, start, ids)?;
    put_table(ram, code0, header, &places);
    Ok(())
}

/// Adds the CODEs of a fork, with the segments below a count of ids.
fn add_codes(
    alloc: Global,
    fork: &Fork,
    code0: &[u8],
    ids: u16,
    mut image: Image,
) -> Result<Image, LoadError>
    requires few { ids ≤ 32768 }
    requires brief { length code0.now ≤ MOST_BYTES }
    requires whole { IsImage image }
    ensures is { Gives result (with_codes ids fork.now (Some code0.now) image) }
    ensures whole { IfOk result IsImage }
{
    let codes = test_codes(fork, code0, ids, image.ram.floor())?;
    put_codes(alloc, &mut image.ram, fork, code0, codes.header, ids)?;
    image.end = codes.end as u32;
    image.entry = (table_start(codes.header) + 2) as u32;
    image.a5 = a5_of(codes.header) as u32;
    Ok(image)
}

/// Adds the resources of a fork.
fn add_resources(alloc: Global, fork: &Fork, ids: u16, image: Image) -> Result<Image, LoadError>
    requires few { ids ≤ 32768 }
    requires whole { IsImage image }
    ensures is { Gives result (with_resources ids (Ok fork.now) image) }
    ensures whole { IfOk result IsImage }
{
    match code_at(fork, 0) {
        Some(code0) => add_codes(alloc, fork, code0, ids, image),
        None => Err(LoadError::NoCode(0)),
    }
}

/// Adds the program of a fork's file.
pub fn add_fork(alloc: Global, bytes: &[u8], image: Image) -> Result<Image, LoadError>
    requires small { length bytes.now ≤ MOST_BYTES }
    requires whole { IsImage image }
    ensures is { Gives result (with_fork bytes.now image) }
    ensures whole { IfOk result IsImage }
{
    match Fork::read(alloc, bytes) {
        Ok(fork) => add_resources(alloc, &fork, code_count(&fork), image),
        Err(e) => Err(fork_error(e)),
    }
}
