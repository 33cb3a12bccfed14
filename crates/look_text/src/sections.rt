// The sections of a container.
ghost use Rattle.std.specs.Prelude.{◌≡◌, ◌+◌, ◌^◌, ◌≤◌, ◌++◌, IfOk, OnOk};
ghost use Rattle.pef_head.specs.Container.{instantiated_count};
ghost use Rattle.pef_head.specs.PartsClauses.{parts};
ghost use Rattle.mix_load.specs.Sections.{base_behind as base_of};
ghost use Rattle.look_text.specs.Containers.{kind_name as name_of_kind, section_text, sections_text};

use crate::line::{Piece, add_line};
use mix_bits::NoMemory;
use mix_load::base_behind;
use pef_head::{Pef, Section};

/// Appends the lines of the first sections, which begin behind `start`.
#[tactic(auto, using(std::proofs::Common::append_assoc))]
pub fn add_sections(text: &mut Vec<u8>, pef: &Pef, start: u64, count: u32) -> Result<(), NoMemory>
    requires below { count ≤ instantiated_count pef.now }
    requires many { count ≤ 65535 }
    requires near { start ≤ 2 ^ 43 }
    ensures { OnOk result (text.new.items ≡ text.old.items ++ sections_text pef.now start count) }
{
    let mut end = start;
    for k in 0..count {
        end = add_section(text, k, pef.section(k), end)?;
    }
    Ok(())
}

/// Appends the line of a section behind an end, and gives the end behind it.
#[tactic(auto, unfolding(crate::specs::Containers::section_text))]
fn add_section(text: &mut Vec<u8>, k: u32, section: Section, end: u64) -> Result<u64, NoMemory>
    requires near { end ≤ 2 ^ 60 }
    requires aligned { section.align ≤ 4096 }
    ensures text { IfOk result (λ _. text.new.items ≡ text.old.items ++ section_text k (parts section.entry) (base_of (parts section.entry) end)) }
    ensures end { IfOk result (λ next. next ≡ base_of (parts section.entry) end + section.entry.total) }
    ensures near { IfOk result (λ next. next ≤ end + 2 ^ 33) }
{
    let base = base_behind(section, end);
    add_line(
        text,
        &[
            Piece::Text("section "),
            Piece::Number(k),
            Piece::Text(": "),
            Piece::Text(kind_name(section.kind)),
            Piece::Text(" at "),
            Piece::Address(base),
            Piece::Text(", "),
            Piece::Number(section.total),
            Piece::Text(" bytes\n"),
        ],
    )?;
    Ok(base + u64::from(section.total))
}

/// The words for a kind of sections.
fn kind_name(kind: u8) -> &'static str
    ensures { result.now ≡ name_of_kind kind }
{
    match kind {
        0 => "code",
        1 => "data",
        2 => "pattern data",
        3 => "constant",
        _ => "executable data",
    }
}
