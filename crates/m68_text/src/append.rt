ghost use Rattle.std.specs.Prelude.{◌≡◌, ◌+◌, ◌≤◌, ◌⊎◌, ◌++◌, length, decimal};
ghost use Rattle.m68_text.specs.Operands.{hex};

use mix_bits::Line;

/// Appends the lowest 2, 4 or 8 hexadecimal digits of a number, with the sign of the base.
#[tactic(auto, using(crate::proofs::Digits::hexadecimal_length))]
pub fn add_hex(line: &mut Line, number: u32, digits: u32)
    requires digits { (digits ≡ 2) ⊎ (digits ≡ 4) ⊎ (digits ≡ 8) }
    requires room { length line.old + 1 + digits ≤ 160 }
    ensures text { line.new ≡ line.old ++ hex digits number }
    ensures grows { length line.new ≡ length line.old + 1 + digits }
{
    line.add("$");
    let _fits = line.hex(number, digits);
}

/// Appends a number in decimal.
pub fn add_number(line: &mut Line, number: u8)
    requires { length line.old + 3 ≤ 160 }
    ensures text { line.new ≡ line.old ++ decimal number }
    ensures grows { length line.new ≤ length line.old + 3 }
{
    let _fits = line.dec(u32::from(number));
}
