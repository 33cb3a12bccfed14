// What the two numbers of a fault say.
ghost use Rattle.std.specs.Prelude.{◌≡◌, ◌++◌, OnOk};
ghost use Rattle.fault_words.specs.Meanings.{front as front_of, meaning_of, middle as middle_of, second as second_of, word_name as name_of_word};
ghost use Rattle.look_text.specs.Pieces.{piece_text};

use crate::reasons::{descriptor_reason, info_reason, vector_reason};
use look_text::{Piece, add_line};
use mix_bits::{Fault, FaultKind, NoMemory};
use trap_names::trap_name;

/// Appends what a fault says, and a line feed.
pub fn add_meaning(text: &mut Vec<u8>, fault: Fault) -> Result<(), NoMemory>
    ensures { OnOk result (text.new.items ≡ text.old.items ++ meaning_of fault) }
{
    add_line(
        text,
        &[
            Piece::Text(front(fault.kind)),
            Piece::Long(fault.detail),
            Piece::Text(middle(fault.kind)),
            second(fault),
            Piece::Text("\n"),
        ],
    )
}

/// What stands before the first number.
fn front(kind: FaultKind) -> &'static str
    ensures { result.now ≡ front_of kind }
{
    match kind {
        FaultKind::Illegal => "the word $",
        FaultKind::Privileged => "the word $",
        FaultKind::Odd => "the pc $",
        FaultKind::Outside => "what is asked for at $",
        FaultKind::GateStore => "the store to $",
        FaultKind::FrameStore => "the store to $",
        FaultKind::GateFetch => "at $",
        FaultKind::Vector => "it is the exception of vector $",
        FaultKind::BadInstr => "the word $",
        FaultKind::Trap => "the condition of the trap instruction $",
        FaultKind::NoTrap => "the library lacks the trap $",
        FaultKind::BadDesc => "the routine descriptor at $",
        FaultKind::Info => "the procInfo $",
        FaultKind::Mismatch => "the procInfo $",
        FaultKind::NoRecord => "no routine record can be chosen by the selector $",
        FaultKind::FramesFull => "so many callers are suspended already: $",
        FaultKind::StackOutside => "the stack pointer $",
        FaultKind::StackCrossed => "the stack pointer $",
        FaultKind::StackFull => "the stack pointer of the callee would be $",
        FaultKind::Unmatched => "the stack pointer is $",
    }
}

/// What stands behind it.
fn middle(kind: FaultKind) -> &'static str
    ensures { result.now ≡ middle_of kind }
{
    match kind {
        FaultKind::Illegal => " is no instruction that this host has",
        FaultKind::Privileged => " is an instruction of the supervisor",
        FaultKind::Odd => " is odd, or in PowerPC code no multiple of 4",
        FaultKind::Outside => " is outside RAM",
        FaultKind::GateStore => " is into the gate page",
        FaultKind::FrameStore => " is into the frame of a suspended caller",
        FaultKind::GateFetch => " the gate page has neither a gate nor a function",
        FaultKind::Vector => ", ",
        FaultKind::BadInstr => " is no instruction that this host has, or an invalid form of one",
        FaultKind::Trap => " holds",
        FaultKind::NoTrap => " ",
        FaultKind::BadDesc => " is refused: ",
        FaultKind::Info => " has no signature: ",
        FaultKind::Mismatch => " is not that of the routine record, $",
        FaultKind::NoRecord => "",
        FaultKind::FramesFull => "",
        FaultKind::StackOutside => " is outside the stack, whose floor is $",
        FaultKind::StackCrossed => " is above the innermost frame, which begins at $",
        FaultKind::StackFull => ", below the floor of the stack, $",
        FaultKind::Unmatched => ", and at this gate it has to be $",
    }
}

/// What the second number says, or else the first one.
fn second(fault: Fault) -> Piece<'static>
    ensures { piece_text result ≡ second_of fault }
{
    match fault.kind {
        FaultKind::Vector => Piece::Text(vector_reason(fault.detail)),
        FaultKind::NoTrap => Piece::Text(word_name(fault.detail)),
        FaultKind::BadDesc => Piece::Text(descriptor_reason(fault.also)),
        FaultKind::Info => Piece::Text(info_reason(fault.also)),
        FaultKind::Mismatch => Piece::Long(fault.also),
        FaultKind::StackOutside => Piece::Long(fault.also),
        FaultKind::StackCrossed => Piece::Long(fault.also),
        FaultKind::StackFull => Piece::Long(fault.also),
        FaultKind::Unmatched => Piece::Long(fault.also),
        _ => Piece::Text(""),
    }
}

/// What a trap word calls, where that is known.
fn word_name(word: u32) -> &'static str
    ensures { result.now ≡ name_of_word word }
{
    if word < 65536 {
        trap_name(word as u16).unwrap_or("")
    } else {
        ""
    }
}
