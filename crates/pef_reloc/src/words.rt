// Relocation words, and what stands at a place among them.
ghost use Rattle.std.specs.Prelude.{◌≡◌, ◌+◌, ◌≤◌, length};
ghost use Rattle.mix_bits.specs.Fields.{word_at};
ghost use Rattle.mix_bits.specs.declared.file.TheConstants.{MOST_BYTES};
ghost use Rattle.pef_reloc.specs.Program.{fits_in, is_span, reading_at, width};
ghost use Rattle.pef_reloc.specs.Rows.{first_of};

use crate::error::RelocError;
use crate::instruction::{First, Reading};
use crate::rows::{first_of, whole_of};
use mix_bits::word_at;

/// What the word at a place begins.
pub fn first_at(words: &[u8], place: usize) -> First
    requires within { place + 2 ≤ length words.now }
    requires small { length words.now ≤ MOST_BYTES }
    ensures { result ≡ first_of (word_at words.now place) }
{
    first_of(word_at(words, place as u32))
}

/// How many bytes the instruction has that begins so.
pub fn width(first: First) -> usize
    ensures is { result ≡ width first }
    ensures some { 2 ≤ result }
    ensures few { result ≤ 4 }
{
    match first {
        First::Two(_, _) => 4,
        _ => 2,
    }
}

/// The instruction that begins so at a place.
pub fn reading_at(words: &[u8], place: usize, first: First) -> Result<Reading, RelocError>
    requires within { place + 2 ≤ length words.now }
    requires small { length words.now ≤ MOST_BYTES }
    requires first { first ≡ first_of (word_at words.now place) }
    ensures { result ≡ reading_at words.now place }
{
    match first {
        First::One(instruction) => Ok(Reading::Whole(instruction)),
        First::Two(large, high) => {
            if words.len() < place + 4 {
                return Err(RelocError::Short(place as u32));
            }
            let low = u32::from(word_at(words, place as u32 + 2));
            Ok(Reading::Whole(whole_of(large, high * 65536 + low)))
        }
        First::Repeat(count, further) => Ok(Reading::Again(count, further)),
        First::NoRow => Err(RelocError::Unsupported(u32::from(word_at(words, place as u32)))),
    }
}

/// Whether no repeat begins so at a place, and what does ends within the span.
fn fits_in(span: &[u8], place: usize, first: First) -> bool
    requires within { place + 2 ≤ length span.now }
    requires small { length span.now ≤ MOST_BYTES }
    requires first { first ≡ first_of (word_at span.now place) }
    ensures { result ≡ fits_in span.now place }
{
    match first {
        First::Repeat(_, _) => false,
        _ => place + width(first) <= span.len(),
    }
}

/// Whether instructions, none of them a repeat, fill a span.
pub fn is_span(span: &[u8]) -> bool
    requires { length span.now ≤ MOST_BYTES }
    ensures { result ≡ is_span span.now }
{
    let mut place = 0;
    while place + 2 <= span.len() {
        let first = first_at(span, place);
        if !fits_in(span, place, first) {
            return false;
        }
        place += width(first);
    }
    true
}
