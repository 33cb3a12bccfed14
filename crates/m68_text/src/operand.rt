ghost use Rattle.std.specs.Prelude.{◌≡◌, ◌+◌, ◌≤◌, ◌⊎◌, ◌++◌, codes, length};
ghost use Rattle.m68_text.specs.Operands.{address_register, data_register, hex, index_text, indirect, operand_text, operands_text, scale_text as scale_text_of};
ghost use Rattle.m68_text.specs.inner.Operands.{listed};

use super::append::{add_hex, add_number};
use m68_isa::Index;
use mix_bits::Line;

/// An operand as it is written. Of displacements, short addresses and immediates the low digits
/// are, as many as the words have.
#[derive(Clone, Copy)]
pub enum Operand {
    /// A data register.
    Data(u8),
    /// Two data registers that hold one number, the register of its high 32 bits first.
    Pair(u8, u8),
    /// An address register.
    Address(u8),
    /// Memory at an address register.
    Indirect(u8),
    /// The same with postincrement.
    PostIncrement(u8),
    /// The same with predecrement.
    PreDecrement(u8),
    /// The same with displacement.
    Displaced(u8, u32),
    /// The same with index.
    Indexed(u8, Index),
    /// Memory at an address of one word.
    ShortAddress(u32),
    /// Memory at an address of two words.
    LongAddress(u32),
    /// Memory at the program counter with displacement.
    PcDisplaced(u32),
    /// Memory at the program counter with index.
    PcIndexed(Index),
    /// An immediate byte in the first word.
    Byte(u32),
    /// An immediate of one extension word.
    Word(u32),
    /// An immediate of two extension words.
    Long(u32),
    /// A small number in the first word.
    Number(u8),
    /// The condition codes.
    ConditionCodes,
    /// The status register.
    StatusRegister,
    /// The address that a branch goes to.
    Target(u32),
}

/// The operands of an instruction.
#[derive(Clone, Copy)]
pub enum Operands {
    None,
    One(Operand),
    Two(Operand, Operand),
    Three(Operand, Operand, Operand),
}

fn add_data_register(line: &mut Line, n: u8)
    requires { length line.old + 4 ≤ 160 }
    ensures text { line.new ≡ line.old ++ data_register n }
    ensures grows { length line.new ≤ length line.old + 4 }
{
    line.add("d");
    add_number(line, n);
}

fn add_address_register(line: &mut Line, n: u8)
    requires { length line.old + 4 ≤ 160 }
    ensures text { line.new ≡ line.old ++ address_register n }
    ensures grows { length line.new ≤ length line.old + 4 }
{
    line.add("a");
    add_number(line, n);
}

/// Appends an address register in parentheses.
fn add_indirect(line: &mut Line, n: u8)
    requires { length line.old + 6 ≤ 160 }
    ensures text { line.new ≡ line.old ++ indirect n }
    ensures grows { length line.new ≤ length line.old + 6 }
{
    line.add("(");
    add_address_register(line, n);
    line.add(")");
}

/// What an index is multiplied by, if by more than 1.
fn scale_text(scale: u32) -> &'static str
    ensures text { result.now ≡ scale_text_of scale }
    ensures short { length result.now ≤ 2 }
{
    match scale {
        1 => "",
        2 => "*2",
        4 => "*4",
        _ => "*8",
    }
}

/// Appends an index register, with how much of it counts and its scale.
fn add_index(line: &mut Line, index: Index)
    requires { length line.old + 8 ≤ 160 }
    ensures text { line.new ≡ line.old ++ index_text index }
    ensures grows { length line.new ≤ length line.old + 8 }
{
    if index.address {
        add_address_register(line, index.reg);
    } else {
        add_data_register(line, index.reg);
    }
    line.add(if index.long { ".l" } else { ".w" });
    line.add(scale_text(index.scale));
}

/// Appends two data registers that hold one number.
fn add_pair(line: &mut Line, high: u8, low: u8)
    requires { length line.old + 9 ≤ 160 }
    ensures text { line.new ≡ line.old ++ (data_register high ++ (codes ":" ++ data_register low)) }
    ensures grows { length line.new ≤ length line.old + 9 }
{
    add_data_register(line, high);
    line.add(":");
    add_data_register(line, low);
}

/// Appends an absolute address of 4 or 8 digits, with its size.
fn add_absolute(line: &mut Line, address: u32, digits: u32, suffix: &str)
    requires digits { (digits ≡ 4) ⊎ (digits ≡ 8) }
    requires suffix { length suffix.now ≡ 2 }
    requires room { length line.old + 11 ≤ 160 }
    ensures text { line.new ≡ line.old ++ (hex digits address ++ suffix.now) }
    ensures grows { length line.new ≤ length line.old + 11 }
{
    add_hex(line, address, digits);
    line.add(suffix);
}

/// Appends an immediate of 2, 4 or 8 digits.
fn add_immediate(line: &mut Line, value: u32, digits: u32)
    requires digits { (digits ≡ 2) ⊎ (digits ≡ 4) ⊎ (digits ≡ 8) }
    requires room { length line.old + 10 ≤ 160 }
    ensures text { line.new ≡ line.old ++ (codes "#" ++ hex digits value) }
    ensures grows { length line.new ≤ length line.old + 10 }
{
    line.add("#");
    add_hex(line, value, digits);
}

/// Appends a base in `(` with its displacement before it, and an index behind it.
fn add_indexed(line: &mut Line, n: u8, index: Index)
    requires { length line.old + 18 ≤ 160 }
    ensures text { line.new ≡ line.old ++ (hex 2 index.disp ++ (codes "(" ++ (address_register n ++ (codes "," ++ (index_text index ++ codes ")"))))) }
    ensures grows { length line.new ≤ length line.old + 18 }
{
    add_hex(line, index.disp, 2);
    line.add("(");
    add_address_register(line, n);
    line.add(",");
    add_index(line, index);
    line.add(")");
}

fn add_operand(line: &mut Line, operand: Operand)
    requires { length line.old + 18 ≤ 160 }
    ensures text { line.new ≡ line.old ++ operand_text operand }
    ensures grows { length line.new ≤ length line.old + 18 }
{
    match operand {
        Operand::Data(n) => add_data_register(line, n),
        Operand::Pair(high, low) => add_pair(line, high, low),
        Operand::Address(n) => add_address_register(line, n),
        Operand::Indirect(n) => add_indirect(line, n),
        Operand::PostIncrement(n) => {
            add_indirect(line, n);
            line.add("+");
        }
        Operand::PreDecrement(n) => {
            line.add("-");
            add_indirect(line, n);
        }
        Operand::Displaced(n, disp) => {
            add_hex(line, disp, 4);
            add_indirect(line, n);
        }
        Operand::Indexed(n, index) => add_indexed(line, n, index),
        Operand::ShortAddress(address) => add_absolute(line, address, 4, ".w"),
        Operand::LongAddress(address) => add_absolute(line, address, 8, ".l"),
        Operand::PcDisplaced(disp) => {
            add_hex(line, disp, 4);
            line.add("(pc)");
        }
        Operand::PcIndexed(index) => {
            add_hex(line, index.disp, 2);
            line.add("(pc,");
            add_index(line, index);
            line.add(")");
        }
        Operand::Byte(value) => add_immediate(line, value, 2),
        Operand::Word(value) => add_immediate(line, value, 4),
        Operand::Long(value) => add_immediate(line, value, 8),
        Operand::Number(n) => {
            line.add("#");
            add_number(line, n);
        }
        Operand::ConditionCodes => line.add("ccr"),
        Operand::StatusRegister => line.add("sr"),
        Operand::Target(address) => add_hex(line, address, 8),
    }
}

/// Appends a space and the operands with commas between them.
pub fn add_operands(line: &mut Line, operands: Operands)
    requires { length line.old ≤ 8 }
    ensures text { line.new ≡ line.old ++ operands_text (listed operands) }
    ensures grows { length line.new ≤ length line.old + 57 }
{
    match operands {
        Operands::None => {}
        Operands::One(operand) => {
            line.add(" ");
            add_operand(line, operand);
        }
        Operands::Two(first, second) => {
            line.add(" ");
            add_operand(line, first);
            line.add(",");
            add_operand(line, second);
        }
        Operands::Three(first, second, third) => {
            line.add(" ");
            add_operand(line, first);
            line.add(",");
            add_operand(line, second);
            line.add(",");
            add_operand(line, third);
        }
    }
}
