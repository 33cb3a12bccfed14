// Why a text to assemble is refused.
ghost use Rattle.std.specs.Prelude.{◌≡◌, ◌^◌, ◌<◌, length};
ghost use Rattle.look_why.specs.Texts.{IsKnown, IsPlaced, IsRule, IsTold, bare, name_rule as name_rule_of, other_set, spelling_rule as spelling_rule_of, unknown};

use crate::kind::Kind;
use crate::lines::{nth_line, without_feed};
use crate::operands::operand_rule;
use crate::place::place_behind;
use crate::report::Report;
use crate::rule::Rule;
use mix_bits::{Isa, read_hexadecimal, split_name};
use mix_text::{Reason, Refused, check_text};

/// Says of a text of a set that every line is taken, the first at an address and each other behind the bytes of those
/// before it, or which one is the first that is not, and why.
pub fn explain_text(set: Isa, text: &[u8], at: u32) -> Report
    requires { length text.now < 2 ^ 31 }
    ensures { IsTold set at text.now result.text.items result.is_taken }
{
    match check_text(set, text, at) {
        Ok(()) => Report::taken(),
        Err(
            Refused {
                line: number,
                reason,
            },
        ) => {
            let line = without_feed(nth_line(text, number));
            let rule = text_rule(set, at, line, reason);
            Report::refused(number, line, rule, place(set, at, text, number, reason))
        }
    }
}

/// Where the line with a number stands, which is refused for a reason: told where an address in front is wrong.
fn place(set: Isa, at: u32, text: &[u8], number: u32, reason: Reason) -> Option<u32>
    requires { length text.now < 2 ^ 31 }
    ensures { IsPlaced set at text.now number reason result }
{
    match reason {
        Reason::Address => place_behind(set, text, at, number.saturating_sub(1)),
        _ => None,
    }
}

/// The rule that a line breaks which is refused for a reason.
fn text_rule(set: Isa, at: u32, line: &[u8], reason: Reason) -> Rule
    requires { length line.now < 2 ^ 31 }
    ensures { IsRule set at line.now reason result }
{
    match reason {
        Reason::Address => Rule::Elsewhere,
        Reason::Name => {
            let text = behind_address(line);
            name_rule(set, is_known(other(set), at, text), text)
        }
        Reason::Operands => operand_rule(set, behind_address(line)),
    }
}

/// A line without the address in front, if it has one.
fn behind_address(line: &[u8]) -> &[u8]
    requires { length line.now < 2 ^ 31 }
    ensures is { result.now ≡ bare line.now }
    ensures short { length result.now < 2 ^ 31 }
{
    if line.len() >= 10
        && line[8] == b':'
        && line[9] == b' '
        && read_hexadecimal(&line[..8], 8).is_some()
    {
        &line[10..]
    } else {
        line
    }
}

fn other(set: Isa) -> Isa
    ensures { result ≡ other_set set }
{
    match set {
        Isa::M68 => Isa::Ppc,
        Isa::Ppc => Isa::M68,
    }
}

/// Whether a set has the name of a line.
fn is_known(set: Isa, at: u32, text: &[u8]) -> bool
    requires { length text.now < 2 ^ 31 }
    ensures { IsKnown set at text.now result }
{
    match check_text(set, text, at) {
        Ok(()) => true,
        Err(Refused { line: _, reason }) => match reason {
            Reason::Operands => true,
            _ => false,
        },
    }
}

/// The rule that the name of a line breaks, which the other set has or not.
fn name_rule(set: Isa, is_known: bool, text: &[u8]) -> Rule
    ensures { result ≡ name_rule_of set is_known text.now }
{
    if text.is_empty() {
        Rule::Nameless
    } else if Kind::Blank.begins(text) {
        Rule::Indented
    } else if text.starts_with(b";") {
        Rule::Comment
    } else if is_known {
        Rule::OtherSet
    } else {
        let (name, _) = split_name(text);
        spelling_rule(set, name)
    }
}

/// The rule that a name breaks which no set has.
fn spelling_rule(set: Isa, name: &[u8]) -> Rule
    ensures { result ≡ spelling_rule_of set name.now }
{
    if name.ends_with(b"\r") {
        Rule::Return
    } else if Kind::Tab.is_in(name) {
        Rule::Tab
    } else if Kind::Colon.is_in(name) {
        Rule::Label
    } else if Kind::Capital.is_in(name) {
        Rule::Capitals
    } else if name.starts_with(b".") {
        Rule::Directive
    } else {
        unknown_name(set)
    }
}

fn unknown_name(set: Isa) -> Rule
    ensures { result ≡ unknown set }
{
    match set {
        Isa::M68 => Rule::Name68,
        Isa::Ppc => Rule::NamePpc,
    }
}
