// Why a line is refused whose name is good.
ghost use Rattle.std.specs.Prelude.{◌≡◌, false};
ghost use Rattle.look_why.specs.Operands.{byte_rule as byte_rule_of, digit_rule as digit_rule_of, first_rule as first_rule_of, has_decimal as has_decimal_of, is_hexadecimal as is_hexadecimal_of, is_quick as is_quick_of, last_rule as last_rule_of, operand_rule as operand_rule_of, words_rule as words_rule_of};

use crate::kind::Kind;
use crate::rule::Rule;
use mix_bits::{Isa, split_name};

/// The rule that a line without its address breaks, of which the set has the name.
pub fn operand_rule(set: Isa, text: &[u8]) -> Rule
    ensures { result ≡ operand_rule_of set text.now }
{
    if text.ends_with(b"\r") {
        Rule::Return
    } else if text.ends_with(b" ") {
        Rule::Behind
    } else if text.ends_with(b"\t") {
        Rule::Behind
    } else {
        let (name, operands) = split_name(text);
        words_rule(set, name, operands)
    }
}

/// The same of a name and of what stands behind the space behind it.
fn words_rule(set: Isa, name: &[u8], operands: &[u8]) -> Rule
    ensures { result ≡ words_rule_of set name.now operands.now }
{
    match first_rule(operands) {
        Some(rule) => rule,
        None => last_rule(set, name, operands),
    }
}

/// What the first byte breaks that breaks something.
fn first_rule(operands: &[u8]) -> Option<Rule>
    ensures { result ≡ first_rule_of false 0 operands.now }
{
    let mut hexadecimal = false;
    let mut before = 0;
    for byte in operands {
        if let Some(rule) = byte_rule(hexadecimal, before, *byte) {
            return Some(rule);
        }
        hexadecimal = is_hexadecimal(hexadecimal, *byte);
        before = *byte;
    }
    None
}

/// What a byte breaks behind another one, and in a hexadecimal number or not.
fn byte_rule(hexadecimal: bool, before: u8, byte: u8) -> Option<Rule>
    ensures { result ≡ byte_rule_of hexadecimal before byte }
{
    match byte {
        b';' => Some(Rule::Comment),
        b'\t' => Some(Rule::Tab),
        b' ' => Some(Rule::Spaces),
        b'%' => Some(Rule::Percent),
        b'x' => if before == b'0' {
            Some(Rule::Prefix)
        } else {
            None
        },
        _ => digit_rule(hexadecimal, byte),
    }
}

/// The same of a letter.
fn digit_rule(hexadecimal: bool, byte: u8) -> Option<Rule>
    ensures { result ≡ digit_rule_of hexadecimal byte }
{
    if hexadecimal && b'a' <= byte && byte <= b'f' {
        Some(Rule::LowerDigit)
    } else if Kind::Capital.is(byte) && !is_hexadecimal(hexadecimal, byte) {
        Some(Rule::Upper)
    } else {
        None
    }
}

/// Whether a number in hexadecimal goes on behind a byte, or begins.
fn is_hexadecimal(hexadecimal: bool, byte: u8) -> bool
    ensures { result ≡ is_hexadecimal_of hexadecimal byte }
{
    if byte == b'$' {
        true
    } else {
        hexadecimal && ((b'0' <= byte && byte <= b'9') || (b'A' <= byte && byte <= b'F'))
    }
}

/// The rule of operands of which no byte alone breaks one.
fn last_rule(set: Isa, name: &[u8], operands: &[u8]) -> Rule
    ensures { result ≡ last_rule_of set name.now operands.now }
{
    match set {
        Isa::M68 => {
            if has_decimal(operands) && !is_quick(name) {
                Rule::Decimal
            } else {
                Rule::Operands
            }
        }
        Isa::Ppc => {
            if Kind::Dollar.is_in(operands) && !name.starts_with(b"b") && !name.starts_with(b".") {
                Rule::Dollar
            } else {
                Rule::Operands
            }
        }
    }
}

/// Whether a decimal digit stands behind a #.
fn has_decimal(operands: &[u8]) -> bool
    ensures { result ≡ has_decimal_of 0 operands.now }
{
    let mut before = 0;
    for byte in operands {
        if before == b'#' && b'0' <= *byte && *byte <= b'9' {
            return true;
        }
        before = *byte;
    }
    false
}

/// Whether a 68K instruction has a decimal number behind the #.
#[tactic(auto, unfolding(crate::specs::Operands::is_quick))]
fn is_quick(name: &[u8]) -> bool
    ensures { result ≡ is_quick_of name.now }
{
    name.starts_with(b"addq")
        || name.starts_with(b"subq")
        || name.starts_with(b"as")
        || name.starts_with(b"ls")
        || name.starts_with(b"ro")
        || name.starts_with(b"trap")
}
