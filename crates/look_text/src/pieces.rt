// Pieces appended to a text.
ghost use Rattle.std.specs.Prelude.{◌≡◌, ◌⊎◌, ◌++◌, OnOk, decimal};
ghost use Rattle.mix_bits.specs.Text.{hexadecimal};

use mix_bits::{Line, NoMemory};

/// Appends a text.
pub fn add(text: &mut Vec<u8>, piece: &str) -> Result<(), NoMemory>
    ensures { OnOk result (text.new.items ≡ text.old.items ++ piece.now) }
{
    add_bytes(text, piece.as_bytes())
}

pub fn add_bytes(text: &mut Vec<u8>, piece: &[u8]) -> Result<(), NoMemory>
    ensures { OnOk result (text.new.items ≡ text.old.items ++ piece.now) }
{
    text.extend_from_slice(piece)?;
    Ok(())
}

/// Appends the lowest 2, 4 or 8 hexadecimal digits of a number.
pub fn add_hex(text: &mut Vec<u8>, v: u32, digits: u32) -> Result<(), NoMemory>
    requires { (digits ≡ 2) ⊎ (digits ≡ 4) ⊎ (digits ≡ 8) }
    ensures { OnOk result (text.new.items ≡ text.old.items ++ hexadecimal digits v) }
{
    let mut line = Line::new();
    line.add_hex(v, digits);
    add_bytes(text, line.bytes())
}

/// Appends a number in decimal.
pub fn add_dec(text: &mut Vec<u8>, v: u32) -> Result<(), NoMemory>
    ensures { OnOk result (text.new.items ≡ text.old.items ++ decimal v) }
{
    let mut line = Line::new();
    line.add_dec(v);
    add_bytes(text, line.bytes())
}
