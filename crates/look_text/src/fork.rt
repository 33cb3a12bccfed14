// The CODEs of a fork.
ghost use Rattle.std.specs.Prelude.{◌≡◌, ◌≢◌, ◌^◌, ◌<◌, ◌≤◌, ◌++◌, [], IfOk, OnOk, length};
ghost use Rattle.rsrc_fork.specs.References.{resources_of};
ghost use Rattle.rsrc_fork.specs.declared.error.RsrcError.TheVariants.{NoMemory as NoForkMemory};
ghost use Rattle.switch_frame.specs.Program.{program_start};
ghost use Rattle.mix_load.specs.Segments.{has_table as has_table_by, header_of, segments_end, segments_start as start_in};
ghost use Rattle.look_text.specs.Forks.{a5_line, fork_end, fork_text, table_line, table_text, world_text};

use crate::entries::add_entries;
use crate::line::{Piece, add_line};
use crate::segments::add_segments;
use mix_bits::NoMemory;
use mix_load::{a5_of, code_at, read_header, segments_start, table_header, table_start};
use rsrc_fork::{Fork, RsrcError};
use std::alloc::Global;
use switch_frame::PROGRAM_START;

/// Appends the lines of the fork in a file's bytes, with the CODEs below a count of ids, and says where they end.
pub fn add_fork(alloc: Global, text: &mut Vec<u8>, bytes: &[u8], ids: u16) -> Result<u64, NoMemory>
    requires small { length bytes.now ≤ 2 ^ 24 }
    requires few { 0 < ids }
    ensures text { IfOk result (λ _. text.new.items ≡ text.old.items ++ fork_text ids (resources_of bytes.now)) }
    ensures end { IfOk result (λ end. end ≡ fork_end ids (resources_of bytes.now)) }
    ensures near { IfOk result (λ end. end ≤ 2 ^ 42) }
{
    match Fork::read(alloc, bytes) {
        Ok(fork) => add_codes(alloc, text, &fork, ids),
        Err(e) => end_without(e),
    }
}

/// Where a program ends that is nothing but a fork that was refused, unless there was no memory.
fn end_without(e: RsrcError) -> Result<u64, NoMemory>
    ensures end { IfOk result (λ end. end ≡ program_start) }
    ensures why { OnOk result (e ≢ NoForkMemory) }
{
    match e {
        RsrcError::NoMemory => Err(NoMemory),
        _ => Ok(u64::from(PROGRAM_START)),
    }
}

/// Appends the lines of the CODEs. Without the longs of CODE 0 there is no world of A5.
fn add_codes(alloc: Global, text: &mut Vec<u8>, fork: &Fork, ids: u16) -> Result<u64, NoMemory>
    ensures text { IfOk result (λ _. text.new.items ≡ text.old.items ++ fork_text ids (Ok fork.now)) }
    ensures end { IfOk result (λ end. end ≡ fork_end ids (Ok fork.now)) }
    ensures near { IfOk result (λ end. end ≤ 2 ^ 42) }
{
    let mut places = Vec::new(alloc);
    match code_at(fork, 0) {
        Some(code0) if 16 <= code0.len() => add_world(text, fork, code0, &mut places, ids),
        _ => add_segments(text, fork, &mut places, u64::from(PROGRAM_START), ids),
    }
}

/// Appends the lines of the world of A5, and of the segments, whose places are kept.
#[tactic(auto, using(std::proofs::Common::append_assoc))]
fn add_world(
    text: &mut Vec<u8>,
    fork: &Fork,
    code0: &[u8],
    places: &mut Vec<u64>,
    ids: u16,
) -> Result<u64, NoMemory>
    requires longs { 16 ≤ length code0.now }
    requires small { length code0.now ≤ 2 ^ 24 }
    requires empty { places.old.items ≡ [] }
    ensures text { IfOk result (λ _. text.new.items ≡ text.old.items ++ world_text ids fork.now code0.now) }
    ensures end { IfOk result (λ end. end ≡ segments_end fork.now (start_in (header_of code0.now)) ids) }
    ensures near { IfOk result (λ end. end ≤ 2 ^ 42) }
{
    let h = read_header(code0);
    add_a5(text, a5_of(h))?;
    let end = add_segments(text, fork, places, segments_start(h), ids)?;
    add_table(text, fork, code0, places)?;
    Ok(end)
}

#[tactic(auto, unfolding(crate::specs::Forks::a5_line))]
fn add_a5(text: &mut Vec<u8>, a5: u64) -> Result<(), NoMemory>
    ensures { OnOk result (text.new.items ≡ text.old.items ++ a5_line a5) }
{
    add_line(
        text,
        &[Piece::Text("A5: "), Piece::Address(a5), Piece::Text("\n")],
    )
}

/// Appends the lines of the jump table, if there is one.
#[tactic(auto, using(std::proofs::Common::append_assoc))]
fn add_table(text: &mut Vec<u8>, fork: &Fork, code0: &[u8], places: &[u64]) -> Result<(), NoMemory>
    requires longs { 16 ≤ length code0.now }
    requires small { length code0.now ≤ 2 ^ 24 }
    ensures { OnOk result (text.new.items ≡ text.old.items ++ table_text fork.now places.now code0.now (has_table_by code0.now)) }
{
    let Some(header) = table_header(code0) else {
        return Ok(());
    };
    let count = header.table_len / 8;
    add_table_line(text, table_start(header), count)?;
    add_entries(text, fork, code0, places, count)
}

#[tactic(auto, unfolding(crate::specs::Forks::table_line))]
fn add_table_line(text: &mut Vec<u8>, at: u64, count: u32) -> Result<(), NoMemory>
    ensures { OnOk result (text.new.items ≡ text.old.items ++ table_line at count) }
{
    add_line(
        text,
        &[
            Piece::Text("jump table: at "),
            Piece::Address(at),
            Piece::Text(", "),
            Piece::Number(count),
            Piece::Text(" entries\n"),
        ],
    )
}
