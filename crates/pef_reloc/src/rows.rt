// Reading relocation words.
ghost use Rattle.std.specs.Prelude.{◌≡◌};
ghost use Rattle.pef_reloc.specs.Rows.{first_of, set_or_by_section, whole_of};

use crate::instruction::{First, Instruction, Large, Turn};

/// What a word begins, by its top seven bits.
pub fn first_of(word: u16) -> First
    ensures { result ≡ first_of word }
{
    let word = u32::from(word);
    let low = word % 512;
    match word / 512 {
        0x00..=0x1F => First::One(Instruction::BySectDWithSkip(word / 64 % 256, word % 64)),
        0x20 => First::One(Instruction::Run(Turn::SectC, low + 1)),
        0x21 => First::One(Instruction::Run(Turn::SectD, low + 1)),
        0x22 => First::One(Instruction::Run(Turn::TVector12, low + 1)),
        0x23 => First::One(Instruction::Run(Turn::TVector8, low + 1)),
        0x24 => First::One(Instruction::Run(Turn::VTable8, low + 1)),
        0x25 => First::One(Instruction::Run(Turn::ImportRun, low + 1)),
        0x30 => First::One(Instruction::ByImport(low)),
        0x31 => First::One(Instruction::SetSectC(low)),
        0x32 => First::One(Instruction::SetSectD(low)),
        0x33 => First::One(Instruction::BySection(low)),
        0x40..=0x47 => First::One(Instruction::IncrPosition(word % 4096 + 1)),
        0x48..=0x4F => First::Repeat(word / 256 % 16 + 1, word % 256 + 1),
        0x50..=0x51 => First::Two(Large::LgSetPosition, word % 1024),
        0x52..=0x53 => First::Two(Large::LgByImport, word % 1024),
        0x5A..=0x5B => set_or_by_section(word),
        _ => First::NoRow,
    }
}

/// The first word of LgSetOrBySection.
fn set_or_by_section(word: u32) -> First
    ensures { result ≡ set_or_by_section word }
{
    match word / 64 % 16 {
        0 => First::Two(Large::LgBySection, word % 64),
        1 => First::Two(Large::LgSetSectC, word % 64),
        2 => First::Two(Large::LgSetSectD, word % 64),
        _ => First::NoRow,
    }
}

/// The instruction of two words with this number.
pub fn whole_of(large: Large, n: u32) -> Instruction
    ensures { result ≡ whole_of large n }
{
    match large {
        Large::LgSetPosition => Instruction::SetPosition(n),
        Large::LgByImport => Instruction::ByImport(n),
        Large::LgBySection => Instruction::BySection(n),
        Large::LgSetSectC => Instruction::SetSectC(n),
        Large::LgSetSectD => Instruction::SetSectD(n),
    }
}
