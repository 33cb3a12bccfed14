// The lines of returns, asks and ends.
ghost use Rattle.std.specs.Prelude.{◌≡◌, codes, drop, length};
ghost use Rattle.std.specs.Option.{option_and_then, option_map};
ghost use Rattle.trace_lines.specs.inner.Pieces.{after_mark, hex_front};
ghost use Rattle.trace_lines.specs.inner.Reading.{answer_in, ask_of, details_of, end_of, fault_of, kind_in, place_of, return_of, size_by};

use crate::event::Event;
use crate::pieces::{after, front_hex, front_set, front_value, past, space};
use call_trace::{End, fault_name};
use dev_rack::Answer;
use mix_bits::{Fault, FaultKind, Isa, Size, read_decimal, read_hexadecimal};

/// All kinds of faults.
const KINDS: [FaultKind; 20] = [
    FaultKind::Illegal,
    FaultKind::Privileged,
    FaultKind::Odd,
    FaultKind::Outside,
    FaultKind::GateStore,
    FaultKind::FrameStore,
    FaultKind::GateFetch,
    FaultKind::Vector,
    FaultKind::BadInstr,
    FaultKind::Trap,
    FaultKind::NoTrap,
    FaultKind::BadDesc,
    FaultKind::Info,
    FaultKind::Mismatch,
    FaultKind::NoRecord,
    FaultKind::FramesFull,
    FaultKind::StackOutside,
    FaultKind::StackCrossed,
    FaultKind::StackFull,
    FaultKind::Unmatched,
];

/// The return whose line, behind `ret`, a text is.
pub fn read_return(text: &[u8]) -> Option<Event>
    ensures { result ≡ return_of text.now }
{
    let size = size_of_text(text.len())?;
    Some(Event::Returned(size, front_value(text, " ", size)?))
}

/// The size of a result whose text has so many bytes.
fn size_of_text(bytes: usize) -> Option<Size>
    ensures { result ≡ size_by bytes }
{
    match bytes {
        0 => Some(Size::Zero),
        3 => Some(Size::One),
        5 => Some(Size::Two),
        9 => Some(Size::Four),
        _ => None,
    }
}

/// The ask whose line, behind `ask `, a text is.
#[tactic(auto, unfolding(crate::specs::inner::Reading::ask_of))]
pub fn read_ask(text: &[u8]) -> Option<Event>
    ensures { result ≡ ask_of text.now }
{
    let end = space(text)?;
    let slot = read_decimal(&text[..end])?;
    read_asked(slot, past(text, end + 1))
}

/// `WORD ANSWER`
#[inline(always)]
fn read_asked(slot: u32, text: &[u8]) -> Option<Event>
    ensures { result ≡ option_and_then (λ word.
        option_and_then (λ behind. option_map (λ answer. Event.Asked slot word answer) (answer_in behind))
        (after_mark (codes " ") (drop 8 text.now)))
        (hex_front 8 text.now) }
{
    let word = front_hex(text, 8)?;
    let text = after(past(text, 8), " ")?;
    Some(Event::Asked(slot, word, read_answer(text)?))
}

/// What came of an ask.
fn read_answer(text: &[u8]) -> Option<Answer>
    ensures { result ≡ answer_in text.now }
{
    if text == b"fail".as_slice() {
        Some(Answer::Failed)
    } else if text == b"empty".as_slice() {
        Some(Answer::Empty)
    } else if text == b"full".as_slice() {
        Some(Answer::Full)
    } else {
        Some(Answer::Word(read_hexadecimal(text, 8)?))
    }
}

/// The end whose line a text is.
#[tactic(auto, unfolding(crate::specs::inner::Reading::end_of))]
pub fn read_end(text: &[u8]) -> Option<End>
    ensures { result ≡ end_of text.now }
{
    if text == b"limit".as_slice() {
        Some(End::Limit)
    } else if let Some(code) = after(text, "exit ") {
        Some(End::Exit(read_decimal(code)?))
    } else {
        read_fault(after(text, "fault ")?)
    }
}

/// The fault whose line, behind `fault `, a text is.
#[tactic(auto, unfolding(crate::specs::inner::Reading::fault_of))]
fn read_fault(text: &[u8]) -> Option<End>
    ensures { result ≡ fault_of text.now }
{
    let end = space(text)?;
    let kind = kind_named(&KINDS, &text[..end])?;
    read_place(kind, past(text, end + 1))
}

/// The first of these kinds with a name.
fn kind_named(kinds: &[FaultKind], name: &[u8]) -> Option<FaultKind>
    ensures { result ≡ kind_in kinds.now name.now }
{
    for kind in kinds {
        if name == fault_name(*kind).as_bytes() {
            return Some(*kind);
        }
    }
    None
}

/// `SET PC DETAIL ALSO`
#[tactic(auto, unfolding(crate::specs::inner::Reading::place_of))]
fn read_place(kind: FaultKind, text: &[u8]) -> Option<End>
    ensures { result ≡ place_of kind text.now }
{
    if text.len() != 30 {
        return None;
    }
    let set = front_set(text)?;
    let pc = front_hex(past(text, 4), 8)?;
    read_details(kind, set, pc, past(text, 12))
}

/// ` DETAIL ALSO`
fn read_details(kind: FaultKind, set: Isa, pc: u32, text: &[u8]) -> Option<End>
    ensures { result ≡ details_of kind set pc text.now }
{
    let detail = front_value(text, " ", Size::Four)?;
    let also = front_value(past(text, 9), " ", Size::Four)?;
    Some(End::Fault(
        set,
        Fault {
            kind,
            pc,
            detail,
            also,
        },
    ))
}
