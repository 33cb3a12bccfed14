// The registers of the active set.
ghost use Rattle.std.specs.Prelude.{◌≡◌, ◌+◌, ◌≤◌, ◌++◌, OnOk, length};
ghost use Rattle.look_report.specs.inner.Registers.{bank_text, codes_line, flag as flag_of, register_text, registers_text, row_text, special_line};

use look_text::{Piece, add, add_line};
use m68_isa::{Ccr, Regs68};
use mix_bits::NoMemory;
use ppc_isa::RegsPpc;
use switch_frame::Active;

/// Appends the registers of a file, but the pc.
pub fn add_registers(text: &mut Vec<u8>, file: &Active) -> Result<(), NoMemory>
    ensures { OnOk result (text.new.items ≡ text.old.items ++ registers_text file.now) }
{
    match file {
        Active::M68(regs) => add_m68(text, regs),
        Active::Ppc(regs) => add_ppc(text, regs),
    }
}

#[tactic(auto, using(std::proofs::Common::append_assoc))]
fn add_m68(text: &mut Vec<u8>, regs: &Regs68) -> Result<(), NoMemory>
    ensures { OnOk result (text.new.items ≡ text.old.items ++ registers_text (Active.M68 regs.now)) }
{
    add_bank(text, "d", 0, &regs.d)?;
    add_bank(text, "a", 0, &regs.a)?;
    add_codes(text, regs.ccr)
}

#[tactic(auto, using(std::proofs::Common::append_assoc))]
fn add_ppc(text: &mut Vec<u8>, regs: &RegsPpc) -> Result<(), NoMemory>
    ensures { OnOk result (text.new.items ≡ text.old.items ++ registers_text (Active.Ppc regs.now)) }
{
    add_row(text, &regs.gpr, 0)?;
    add_row(text, &regs.gpr, 8)?;
    add_row(text, &regs.gpr, 16)?;
    add_row(text, &regs.gpr, 24)?;
    add_special(text, regs)
}

/// Appends the eight general registers from a number on.
fn add_row(text: &mut Vec<u8>, gpr: &[u32; 32], first: usize) -> Result<(), NoMemory>
    requires { first ≤ 24 }
    ensures { OnOk result (text.new.items ≡ text.old.items ++ row_text gpr.now first) }
{
    add_bank(text, "r", first as u32, &gpr[first..first + 8])
}

/// Appends registers of a bank, the first of which has this number.
#[tactic(auto, using(std::proofs::Common::append_assoc))]
fn add_bank(text: &mut Vec<u8>, bank: &str, first: u32, values: &[u32]) -> Result<(), NoMemory>
    requires { first + length values.now ≤ 100 }
    ensures { OnOk result (text.new.items ≡ text.old.items ++ bank_text bank.now first values.now) }
{
    match values {
        [] => add(text, "\n"),
        [value, rest @ ..] => {
            add_register(text, bank, first, *value)?;
            add_bank(text, bank, first + 1, rest)
        }
    }
}

fn add_register(text: &mut Vec<u8>, bank: &str, number: u32, value: u32) -> Result<(), NoMemory>
    ensures { OnOk result (text.new.items ≡ text.old.items ++ register_text bank.now number value) }
{
    add_line(
        text,
        &[
            Piece::Text(" "),
            Piece::Text(bank),
            Piece::Number(number),
            Piece::Text("="),
            Piece::Long(value),
        ],
    )
}

fn add_codes(text: &mut Vec<u8>, ccr: Ccr) -> Result<(), NoMemory>
    ensures { OnOk result (text.new.items ≡ text.old.items ++ codes_line ccr) }
{
    add_line(
        text,
        &[
            Piece::Text(" x="),
            Piece::Text(flag(ccr.x)),
            Piece::Text(" n="),
            Piece::Text(flag(ccr.n)),
            Piece::Text(" z="),
            Piece::Text(flag(ccr.z)),
            Piece::Text(" v="),
            Piece::Text(flag(ccr.v)),
            Piece::Text(" c="),
            Piece::Text(flag(ccr.c)),
            Piece::Text("\n"),
        ],
    )
}

fn flag(set: bool) -> &'static str
    ensures { result.now ≡ flag_of set }
{
    if set { "1" } else { "0" }
}

#[tactic(auto, unfolding(crate::specs::inner::Registers::special_line))]
fn add_special(text: &mut Vec<u8>, regs: &RegsPpc) -> Result<(), NoMemory>
    ensures { OnOk result (text.new.items ≡ text.old.items ++ special_line regs.now) }
{
    add_line(
        text,
        &[
            Piece::Text(" cr="),
            Piece::Long(regs.cr),
            Piece::Text(" lr="),
            Piece::Long(regs.lr),
            Piece::Text(" ctr="),
            Piece::Long(regs.ctr),
            Piece::Text(" xer="),
            Piece::Long(regs.xer),
            Piece::Text("\n"),
        ],
    )
}
