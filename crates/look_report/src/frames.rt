// The suspended callers.
ghost use Rattle.std.specs.Prelude.{◌≡◌, ◌+◌, ◌≤◌, ◌++◌, OnOk, length};
ghost use Rattle.switch_frame.specs.Chain.{Links, records};
ghost use Rattle.switch_frame.specs.RecordsClauses.{record_of};
ghost use Rattle.look_report.specs.Callers.{frame_line, frame_text, frames_text, passed_text, told_text};

use crate::machine::MANY;
use big_memory::Ram;
use call_trace::set_name;
use fault_words::{Saved, saved_at};
use look_text::{Piece, add_bytes, add_line, info_text};
use mix_bits::NoMemory;
use std::alloc::Global;
use switch_frame::{Held, outer_lo, top};

/// What stands where there is no number.
const NOTHING: Piece = Piece::Text("");

/// Appends the callers from the frame at `lo` outward, numbered from 1 on: the first eight, and those behind so many more
/// that are not told.
pub fn add_frames(
    alloc: Global,
    text: &mut Vec<u8>,
    ram: &Ram,
    lo: u32,
    untold: u32,
) -> Result<(), NoMemory>
    requires { Links ram.now lo (records ram.now.bytes lo) }
    ensures { OnOk result (text.new.items ≡ text.old.items ++ frames_text untold 1 (records ram.now.bytes lo)) }
{
    add_numbered(alloc, text, ram, lo, 1, untold)
}

/// The same of frames of which the first has this number.
fn add_numbered(
    alloc: Global,
    text: &mut Vec<u8>,
    ram: &Ram,
    lo: u32,
    number: u32,
    untold: u32,
) -> Result<(), NoMemory>
    requires links { Links ram.now lo (records ram.now.bytes lo) }
    requires number { number + length (records ram.now.bytes lo) ≤ 257 }
    ensures { OnOk result (text.new.items ≡ text.old.items ++ frames_text untold number (records ram.now.bytes lo)) }
{
    match top(ram, lo) {
        None => Ok(()),
        Some(held) => {
            add_told(alloc, text, &held, number, untold)?;
            add_numbered(alloc, text, ram, outer_lo(ram, lo), number + 1, untold)
        }
    }
}

/// Appends a caller if it is told, or before the first one that is not how many are not.
#[tactic(auto, unfolding(crate::specs::Callers::told_text))]
fn add_told(
    alloc: Global,
    text: &mut Vec<u8>,
    held: &Held,
    number: u32,
    untold: u32,
) -> Result<(), NoMemory>
    ensures { OnOk result (text.new.items ≡ text.old.items ++ told_text untold number (record_of held.now)) }
{
    if number <= MANY || untold < number - MANY {
        return add_frame(alloc, text, held, number);
    }
    if number == MANY + 1 {
        return add_passed(text, untold);
    }
    Ok(())
}

fn add_passed(text: &mut Vec<u8>, untold: u32) -> Result<(), NoMemory>
    ensures { OnOk result (text.new.items ≡ text.old.items ++ passed_text untold) }
{
    add_line(
        text,
        &[
            Piece::Text("and "),
            Piece::Number(untold),
            Piece::Text(" frames more, which frames=all tells\n"),
        ],
    )
}

/// Appends a caller, and what its call passes.
fn add_frame(alloc: Global, text: &mut Vec<u8>, held: &Held, number: u32) -> Result<(), NoMemory>
    ensures { OnOk result (text.new.items ≡ text.old.items ++ frame_text number (record_of held.now)) }
{
    add_place(text, held, number)?;
    add_bytes(text, &info_text(alloc, held.info)?)
}

fn add_place(text: &mut Vec<u8>, held: &Held, number: u32) -> Result<(), NoMemory>
    ensures { OnOk result (text.new.items ≡ text.old.items ++ frame_line number (record_of held.now)) }
{
    add_line(
        text,
        &[
            Piece::Text("frame "),
            Piece::Number(number),
            Piece::Text(", "),
            Piece::Long(held.lo),
            Piece::Text(" to "),
            Piece::Long(held.hi),
            Piece::Text(": "),
            Piece::Text(set_name(held.caller.isa())),
            Piece::Text(" goes on at "),
            Piece::Long(held.caller.pc()),
            Piece::Text(", called "),
            Piece::Long(held.target),
            Piece::Text(", procInfo "),
        ],
    )
}

/// Appends which of the frames from the one at `lo` outward has an address, and what it keeps there.
pub fn add_hit(
    text: &mut Vec<u8>,
    ram: &Ram,
    lo: u32,
    number: u32,
    address: u32,
) -> Result<(), NoMemory>
    requires { Links ram.now lo (records ram.now.bytes lo) }
{
    match top(ram, lo) {
        None => Ok(()),
        Some(held) if held.lo <= address && address < held.hi => add_kept(
            text,
            &held,
            number,
            address - held.lo,
        ),
        Some(_) => add_hit(
            text,
            ram,
            outer_lo(ram, lo),
            number.saturating_add(1),
            address,
        ),
    }
}

/// Appends what a frame keeps at an offset.
fn add_kept(text: &mut Vec<u8>, held: &Held, frame: u32, offset: u32) -> Result<(), NoMemory> {
    let set = held.caller.isa();
    let (name, number) = kept(saved_at(set, offset));
    add_line(
        text,
        &[
            Piece::Text("it hit frame "),
            Piece::Number(frame),
            Piece::Text(", in which a "),
            Piece::Text(set_name(set)),
            Piece::Text(" caller is suspended, where it keeps "),
            Piece::Text(name),
            number,
            Piece::Text("\n"),
        ],
    )
}

/// What a frame keeps, as text: a name, and a number or nothing.
fn kept(saved: Saved) -> (&'static str, Piece<'static>) {
    match saved {
        Saved::Data(number) => ("d", Piece::Number(number)),
        Saved::Address(number) => ("a", Piece::Number(number)),
        Saved::General(number) => ("r", Piece::Number(number)),
        Saved::Cr => ("cr", NOTHING),
        Saved::Lr => ("lr", NOTHING),
        Saved::Ctr => ("ctr", NOTHING),
        Saved::Xer => ("xer", NOTHING),
        Saved::Pc => ("its pc", NOTHING),
        Saved::ConditionCodes => ("its condition codes", NOTHING),
        Saved::Call => ("what tells of the call", NOTHING),
        Saved::Filling => ("nothing", NOTHING),
    }
}
