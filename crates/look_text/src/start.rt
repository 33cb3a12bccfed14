// A program as it starts.
ghost use Rattle.std.specs.Prelude.{◌≡◌, ◌++◌, OnOk};
ghost use Rattle.switch_frame.specs.ProgramClauses.{IsProgram};
ghost use Rattle.look_text.specs.Maps.{file_text, room_text, start_text, vector_text};

use crate::line::{Piece, add_line};
use m68_isa::Regs68;
use mix_bits::NoMemory;
use ppc_isa::RegsPpc;
use switch_frame::{Active, MAIN_VECTOR_PLACE, Program};

/// Appends where a program starts, and what its heap and its stack are.
#[tactic(auto, using(std::proofs::Common::append_assoc))]
pub fn add_start(text: &mut Vec<u8>, program: &Program) -> Result<(), NoMemory>
    requires { IsProgram program.now }
    ensures { OnOk result (text.new.items ≡ text.old.items ++ start_text program.now) }
{
    add_vector(text, program.ram.read_long(MAIN_VECTOR_PLACE))?;
    add_file(text, &program.active)?;
    add_room(text, program.heap_lo, program.heap_hi, program.ram.len())
}

/// Appends the main vector, if there is one.
#[tactic(auto, unfolding(crate::specs::Maps::vector_text))]
fn add_vector(text: &mut Vec<u8>, vector: u32) -> Result<(), NoMemory>
    ensures { OnOk result (text.new.items ≡ text.old.items ++ vector_text vector) }
{
    if vector == 0 {
        return Ok(());
    }
    add_line(
        text,
        &[
            Piece::Text("main vector: at "),
            Piece::Long(vector),
            Piece::Text("\n"),
        ],
    )
}

fn add_file(text: &mut Vec<u8>, file: &Active) -> Result<(), NoMemory>
    ensures { OnOk result (text.new.items ≡ text.old.items ++ file_text file.now) }
{
    match file {
        Active::M68(regs) => add_m68(text, regs),
        Active::Ppc(regs) => add_ppc(text, regs),
    }
}

#[tactic(auto, unfolding(crate::specs::Maps::file_text))]
fn add_m68(text: &mut Vec<u8>, regs: &Regs68) -> Result<(), NoMemory>
    ensures { OnOk result (text.new.items ≡ text.old.items ++ file_text (Active.M68 regs.now)) }
{
    add_line(
        text,
        &[
            Piece::Text("entry: 68k at "),
            Piece::Long(regs.pc),
            Piece::Text(", a5 "),
            Piece::Long(regs.a[5]),
            Piece::Text(", a7 "),
            Piece::Long(regs.a[7]),
            Piece::Text("\n"),
        ],
    )
}

#[tactic(auto, unfolding(crate::specs::Maps::file_text))]
fn add_ppc(text: &mut Vec<u8>, regs: &RegsPpc) -> Result<(), NoMemory>
    ensures { OnOk result (text.new.items ≡ text.old.items ++ file_text (Active.Ppc regs.now)) }
{
    add_line(
        text,
        &[
            Piece::Text("entry: ppc at "),
            Piece::Long(regs.pc),
            Piece::Text(", r1 "),
            Piece::Long(regs.gpr[1]),
            Piece::Text(", r2 "),
            Piece::Long(regs.gpr[2]),
            Piece::Text("\n"),
        ],
    )
}

/// Appends the heap from `low` on, and the stack behind it up to `end`.
#[tactic(auto, unfolding(crate::specs::Maps::room_text))]
fn add_room(text: &mut Vec<u8>, low: u32, high: u32, end: u32) -> Result<(), NoMemory>
    ensures { OnOk result (text.new.items ≡ text.old.items ++ room_text low high end) }
{
    add_line(
        text,
        &[
            Piece::Text("heap: from "),
            Piece::Long(low),
            Piece::Text(" to "),
            Piece::Long(high),
            Piece::Text("\nstack: from "),
            Piece::Long(high),
            Piece::Text(" to "),
            Piece::Long(end),
            Piece::Text("\n"),
        ],
    )
}
