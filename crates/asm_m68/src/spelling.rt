// The words of a form and its operands.
ghost use Rattle.std.specs.Prelude.{◌≡◌, ◌+◌, ◌≤◌, ◌<◌, ◌++◌, ◌^◌, length};
ghost use Rattle.asm_m68.specs.Code.{IsPadded, kept};
ghost use Rattle.asm_m68.specs.laws.Spelling.{bits_of as bits_of_operand, content, contents, first_word as first_word_of, holds as holds_of, index_word as index_word_of, is_word as is_word_of, leading as leading_of, number_of as number_of_operand, placed as placed_of, registers_of as registers_of_operands, scale_bits as scale_bits_of, spelled, value_of as value_of_operand, way as way_to, way_of as way_of_operand};

use super::code::Code68;
use super::form::{Choice, Form, Place};
use super::operands::Parsed;
use m68_isa::Index;
use m68_text::Operand;

/// The six bits of an operand, its mode before its register; of a number the number itself.
fn bits_of(operand: Operand) -> u32
    ensures value { result ≡ bits_of_operand operand }
    ensures below { result < 512 }
{
    match operand {
        Operand::Data(n) => u32::from(n),
        Operand::Pair(_, _) => 0,
        Operand::Address(n) => 8 + u32::from(n),
        Operand::Indirect(n) => 16 + u32::from(n),
        Operand::PostIncrement(n) => 24 + u32::from(n),
        Operand::PreDecrement(n) => 32 + u32::from(n),
        Operand::Displaced(n, _) => 40 + u32::from(n),
        Operand::Indexed(n, _) => 48 + u32::from(n),
        Operand::ShortAddress(_) => 56,
        Operand::LongAddress(_) => 57,
        Operand::PcDisplaced(_) => 58,
        Operand::PcIndexed(_) => 59,
        Operand::Byte(value) => value % 256,
        Operand::Word(_) => 60,
        Operand::Long(_) => 60,
        Operand::Number(n) => u32::from(n),
        Operand::ConditionCodes => 60,
        Operand::StatusRegister => 0,
        Operand::Target(_) => 0,
    }
}

/// The bits of two operands at their places.
fn placed(place: Place, first: u32, second: u32) -> u32
    requires first { first < 512 }
    requires second { second < 512 }
    ensures value { result ≡ placed_of place first second }
    ensures below { result < 2 ^ 17 }
{
    match place {
        Place::Nowhere => 0,
        Place::First => first,
        Place::Second => second,
        Place::UpperFirst => first % 8 * 0x200 + second,
        Place::UpperSecond => first + second % 8 * 0x200,
        Place::Both => first + second % 8 * 0x200 + second / 8 * 0x40,
    }
}

fn is_word(operand: Operand) -> bool
    ensures { result ≡ is_word_of operand }
{
    matches!(operand, Operand::Word(_))
}

/// Whether the first of a form's two places is the one of these operands.
fn holds(choice: Choice, first: Operand, second: Operand) -> bool
    ensures { result ≡ holds_of choice first second }
{
    match choice {
        Choice::FirstData => matches!(first, Operand::Data(_)),
        Choice::SecondData => matches!(second, Operand::Data(_)),
        Choice::FirstWord => is_word(first),
        Choice::SecondCodes => matches!(second, Operand::ConditionCodes),
        Choice::DataAddress => {
            let data = matches!(first, Operand::Data(_));
            let address = matches!(second, Operand::Address(_));
            data && address
        }
    }
}

/// The first word of a form but for a displacement in it.
fn first_word(form: Form, first: Operand, second: Operand) -> u32
    ensures value { result ≡ first_word_of form first second }
    ensures below { result < 2 ^ 18 }
{
    let o = bits_of(first);
    let p = bits_of(second);
    match form {
        Form::Data => 0,
        Form::Always(place, base) => u32::from(base) + placed(place, o, p),
        Form::Near(base) => u32::from(base),
        Form::Far(base) => u32::from(base),
        Form::Registers(base, _) => u32::from(base) + o,
        Form::Chosen(choice, place, base, other, word) => {
            if holds(choice, first, second) {
                u32::from(base) + placed(place, o, p)
            } else {
                u32::from(word) + placed(other, o, p)
            }
        }
    }
}

/// How far a target is from the address behind the first word, as 32 bits.
fn way(at: u32, target: u32) -> u32
    ensures { result ≡ way_to at target }
{
    let distance = u64::from(target) + 0x2_0000_0000 - (u64::from(at) + 2);
    (distance % 0x1_0000_0000) as u32
}

/// That of an operand, 0 where it is no target.
fn way_of(at: u32, operand: Operand) -> u32
    ensures { result ≡ way_of_operand at operand }
{
    match operand {
        Operand::Target(target) => way(at, target),
        _ => 0,
    }
}

/// The number of an immediate word.
fn value_of(operand: Operand) -> u32
    ensures { result ≡ value_of_operand operand }
{
    match operand {
        Operand::Word(value) => value,
        _ => 0,
    }
}

/// Bits 10 and 9 of an index word.
fn scale_bits(scale: u32) -> u32
    ensures value { result ≡ scale_bits_of scale }
    ensures below { result < 2048 }
{
    match scale {
        1 => 0,
        2 => 0x200,
        4 => 0x400,
        _ => 0x600,
    }
}

/// The word of an index and its displacement.
fn index_word(index: Index) -> u32
    ensures { result ≡ index_word_of index }
{
    let address = if index.address { 0x8000 } else { 0 };
    let long = if index.long { 0x800 } else { 0 };
    address + u32::from(index.reg) * 0x1000 + long + scale_bits(index.scale) + index.disp % 0x100
}

/// The words with the extension words of an operand.
fn add_operand(code: Code68, at: u32, operand: Operand) -> Code68
    requires room { code.count < 4 }
    requires padded { IsPadded code }
    ensures words { kept result ≡ kept code ++ content at operand }
    ensures count { result.count ≤ code.count + 2 }
    ensures padded { IsPadded result }
{
    match operand {
        Operand::Displaced(_, disp) => code.push(disp),
        Operand::Indexed(_, index) => code.push(index_word(index)),
        Operand::ShortAddress(address) => code.push(address),
        Operand::LongAddress(address) => code.push_long(address),
        Operand::PcDisplaced(disp) => code.push(disp),
        Operand::PcIndexed(index) => code.push(index_word(index)),
        Operand::Word(value) => code.push(value),
        Operand::Long(value) => code.push_long(value),
        Operand::Target(target) => code.push(way(at, target)),
        _ => code,
    }
}

/// The words with those of two operands, a mask of registers first.
fn add_operands(code: Code68, at: u32, first: Operand, second: Operand) -> Code68
    requires room { code.count < 2 }
    requires padded { IsPadded code }
    ensures words { kept result ≡ kept code ++ contents at first second }
    ensures count { result.count ≤ code.count + 4 }
    ensures padded { IsPadded result }
{
    if is_word(second) {
        add_operand(add_operand(code, at, second), at, first)
    } else {
        add_operand(add_operand(code, at, first), at, second)
    }
}

fn number_of(operand: Operand) -> u32
    ensures value { result ≡ number_of_operand operand }
    ensures below { result < 2 ^ 8 }
{
    match operand {
        Operand::Data(n) => u32::from(n),
        _ => 0,
    }
}

/// The bits of two data registers, as a long product or quotient has them in its second word.
fn registers_of(first: Operand, second: Operand) -> u32
    ensures value { result ≡ registers_of_operands first second }
    ensures below { result < 2 ^ 21 }
{
    match first {
        Operand::Pair(high, low) => 0x400 + u32::from(low) * 0x1000 + u32::from(high),
        _ => number_of(second) * 0x1000 + number_of(first),
    }
}

/// The first word of a form.
fn leading(form: Form, at: u32, operands: Parsed) -> u32
    ensures { result ≡ leading_of form at operands }
{
    match form {
        Form::Data => value_of(operands.first),
        Form::Near(base) => u32::from(base) + way_of(at, operands.first) % 0x100,
        _ => first_word(form, operands.first, operands.second),
    }
}

/// The words of a form and its operands at an address. Operands that do not fit give words of another text.
pub fn spell(form: Form, at: u32, operands: Parsed) -> Code68
    ensures words { kept result ≡ spelled form at operands }
    ensures few { result.count ≤ 5 }
    ensures padded { IsPadded result }
{
    let code = Code68::empty().push(leading(form, at, operands));
    match form {
        Form::Data => code,
        Form::Near(_) => code,
        Form::Far(_) => code.push_long(way_of(at, operands.first)),
        Form::Registers(_, registers) => {
            let word = u32::from(registers) + registers_of(operands.second, operands.third);
            add_operand(code.push(word), at, operands.first)
        }
        _ => add_operands(code, at, operands.first, operands.second),
    }
}
