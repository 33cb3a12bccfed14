ghost use Rattle.std.specs.Prelude.{◌≡◌, ◌+◌, ◌≤◌, ◌++◌, length, decimal};
ghost use Rattle.mix_bits.specs.Text.{hexadecimal};

use mix_bits::Line;

/// Appends eight hexadecimal digits.
pub fn add_long(line: &mut Line, number: u32)
    requires { length line.old + 8 ≤ 160 }
    ensures text { line.new ≡ line.old ++ hexadecimal 8 number }
    ensures grows { length line.new ≡ length line.old + 8 }
{
    let _fits = line.hex(number, 8);
}

/// Appends a number in decimal.
pub fn add_number(line: &mut Line, number: u16)
    requires { length line.old + 5 ≤ 160 }
    ensures text { line.new ≡ line.old ++ decimal number }
    ensures grows { length line.new ≤ length line.old + 5 }
{
    let _fits = line.dec(u32::from(number));
}
