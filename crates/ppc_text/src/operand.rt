ghost use Rattle.std.specs.Prelude.{◌≡◌, ◌+◌, ◌*◌, ◌<◌, ◌≤◌, ◌++◌, length};
ghost use Rattle.ppc_text.specs.Operands.{joined, operand_text, operands_text, register_text, signed_text};
ghost use Rattle.ppc_text.specs.inner.Operands.{listed};

use super::append::{add_long, add_number};
use mix_bits::Line;

/// An operand as it is written.
#[derive(Clone, Copy)]
pub enum Operand {
    /// A general purpose register.
    Register(u8),
    /// A field of the word.
    Number(u16),
    /// Sixteen bits as a signed number.
    Signed(u16),
    /// The same, counted from a base register.
    Displaced(u16, u8),
    /// The address that a branch goes to.
    Target(u32),
}

/// The operands of an instruction: at most five.
#[derive(Clone, Copy)]
pub enum Operands {
    None,
    One(Operand),
    Two(Operand, Operand),
    Three(Operand, Operand, Operand),
    Four(Operand, Operand, Operand, Operand),
    Five(Operand, Operand, Operand, Operand, Operand),
}

fn add_register(line: &mut Line, n: u8)
    requires { length line.old + 6 ≤ 160 }
    ensures text { line.new ≡ line.old ++ register_text n }
    ensures grows { length line.new ≤ length line.old + 6 }
{
    line.add("r");
    add_number(line, u16::from(n));
}

/// Appends sixteen bits as a signed number.
#[tactic(auto, using(crate::proofs::Decimals::text_positive, crate::proofs::Decimals::text_negative))]
fn add_signed(line: &mut Line, bits: u16)
    requires { length line.old + 6 ≤ 160 }
    ensures text { line.new ≡ line.old ++ signed_text bits }
    ensures grows { length line.new ≤ length line.old + 6 }
{
    if bits < 0x8000 {
        add_number(line, bits);
    } else {
        line.add("-");
        add_number(line, u16::MAX - bits + 1);
    }
}

fn add_operand(line: &mut Line, operand: Operand)
    requires { length line.old + 14 ≤ 160 }
    ensures text { line.new ≡ line.old ++ operand_text operand }
    ensures grows { length line.new ≤ length line.old + 14 }
{
    match operand {
        Operand::Register(n) => add_register(line, n),
        Operand::Number(n) => add_number(line, n),
        Operand::Signed(bits) => add_signed(line, bits),
        Operand::Displaced(offset, base) => {
            add_signed(line, offset);
            line.add("(");
            add_register(line, base);
            line.add(")");
        }
        Operand::Target(address) => {
            line.add("$");
            add_long(line, address);
        }
    }
}

/// Appends operands with commas between them.
fn add_joined(line: &mut Line, operands: &[Operand])
    requires { length line.old + 15 * length operands.now ≤ 160 }
    ensures text { line.new ≡ line.old ++ joined operands.now }
    ensures grows { length line.new ≤ length line.old + 15 * length operands.now }
{
    match operands {
        [] => {}
        [last] => add_operand(line, *last),
        [first, rest @ ..] => {
            add_operand(line, *first);
            line.add(",");
            add_joined(line, rest);
        }
    }
}

/// Appends a space and operands.
fn add_list(line: &mut Line, operands: &[Operand])
    requires some { 0 < length operands.now }
    requires room { length line.old + 15 * length operands.now + 1 ≤ 160 }
    ensures text { line.new ≡ line.old ++ operands_text operands.now }
    ensures grows { length line.new ≤ length line.old + 15 * length operands.now + 1 }
{
    line.add(" ");
    add_joined(line, operands);
}

/// Appends the operands of an instruction.
pub fn add_operands(line: &mut Line, operands: Operands)
    requires { length line.old ≤ 8 }
    ensures text { line.new ≡ line.old ++ operands_text (listed operands) }
    ensures grows { length line.new ≤ length line.old + 76 }
{
    match operands {
        Operands::None => {}
        Operands::One(a) => add_list(line, &[a]),
        Operands::Two(a, b) => add_list(line, &[a, b]),
        Operands::Three(a, b, c) => add_list(line, &[a, b, c]),
        Operands::Four(a, b, c, d) => add_list(line, &[a, b, c, d]),
        Operands::Five(a, b, c, d, e) => add_list(line, &[a, b, c, d, e]),
    }
}
