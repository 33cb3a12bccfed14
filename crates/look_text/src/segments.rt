// The segments of a fork: its CODEs above 0.
ghost use Rattle.std.specs.Prelude.{◌≡◌, ◌+◌, ◌^◌, ◌<◌, ◌≤◌, ◌++◌, [], IfOk, IfSome, length, option_map};
ghost use Rattle.mix_bits.specs.Multiples.{rounded_up};
ghost use Rattle.mix_load.specs.Segments.{segments_end, with_segment};
ghost use Rattle.mix_load.specs.SegmentsClauses.{segment_places};
ghost use Rattle.look_text.specs.Forks.{segment_line, segments_text};

use crate::line::{Piece, add_line};
use mix_bits::{NoMemory, round_up};
use mix_load::segment_at;
use rsrc_fork::Fork;

/// Appends the lines of the segments below a count of ids, which begin behind `start`, and their places, and says where
/// they end.
pub fn add_segments(
    text: &mut Vec<u8>,
    fork: &Fork,
    places: &mut Vec<u64>,
    start: u64,
    ids: u16,
) -> Result<u64, NoMemory>
    requires start { start ≤ 2 ^ 34 }
    requires empty { places.old.items ≡ [] }
    ensures text { IfOk result (λ _. text.new.items ≡ text.old.items ++ segments_text fork.now start ids) }
    ensures places { IfOk result (λ _. places.new.items ≡ segment_places fork.now start ids) }
    ensures end { IfOk result (λ end. end ≡ segments_end fork.now start ids) }
    ensures near { IfOk result (λ end. end ≤ 2 ^ 42) }
{
    let mut end = start;
    for id in 0..ids {
        places.push(round_up(end, 16))?;
        end = add_segment(text, id, end, segment_at(fork, id))?;
    }
    Ok(end)
}

/// Appends the line of a segment, if there is one, behind an end, and gives the end behind it.
#[tactic(auto, unfolding(crate::specs::Forks::code_line))]
fn add_segment(
    text: &mut Vec<u8>,
    id: u16,
    end: u64,
    segment: Option<&[u8]>,
) -> Result<u64, NoMemory>
    requires near { end ≤ 2 ^ 50 }
    requires small { IfSome segment (λ code. length code.now ≤ 2 ^ 24) }
    ensures text { IfOk result (λ _. text.new.items ≡ text.old.items ++ segment_line id (rounded_up 16 end) (option_map (λ code. code.now) segment.entry)) }
    ensures end { IfOk result (λ next. next ≡ with_segment end (option_map (λ code. code.now) segment.entry)) }
    ensures near { IfOk result (λ next. next ≤ end + 2 ^ 25) }
{
    let Some(code) = segment else {
        return Ok(end);
    };
    let (place, size) = (round_up(end, 16), code.len() as u32);
    add_line(
        text,
        &[
            Piece::Text("CODE "),
            Piece::Number(u32::from(id)),
            Piece::Text(": at "),
            Piece::Address(place),
            Piece::Text(", "),
            Piece::Number(size),
            Piece::Text(" bytes\n"),
        ],
    )?;
    Ok(place + u64::from(size))
}
