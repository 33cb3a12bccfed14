// Why a script of the debugger is refused.
ghost use Rattle.std.specs.Prelude.{◌≡◌, ◌^◌, ◌<◌, length};
ghost use Rattle.mix_top.specs.Scripts.{script_of};
ghost use Rattle.look_why.specs.Scripts.{address_rule as address_rule_of, argument_rule as argument_rule_of, command_rule as command_rule_of, count_rule as count_rule_of, is_bare as is_bare_of, place_rule as place_rule_of, script_rule as script_rule_of, script_text, takes, word_rule as word_rule_of};

use crate::kind::Kind;
use crate::lines::{nth_line, without_feed};
use crate::report::Report;
use crate::rule::Rule;
use mix_top::{BadLine, Script};

/// Says of a script that every line is taken, or which one is the first that is not, and why.
pub fn explain_script(text: &[u8]) -> Report
    requires { length text.now < 2 ^ 31 }
    ensures text { result.text.items ≡ script_text (script_of text.now) text.now }
    ensures refused { result.is_taken ≡ takes (script_of text.now) }
{
    match Script::read(text) {
        Ok(_) => Report::taken(),
        Err(BadLine { number }) => {
            let line = nth_line(text, number);
            Report::refused(number, without_feed(line), script_rule(line), None)
        }
    }
}

/// The rule that a line breaks that is no command.
fn script_rule(line: &[u8]) -> Rule
    ensures { result ≡ script_rule_of line.now }
{
    if line.ends_with(b"\n") {
        command_rule(&line[..line.len() - 1])
    } else {
        Rule::Open
    }
}

/// The same of a line without its line feed.
fn command_rule(text: &[u8]) -> Rule
    ensures { result ≡ command_rule_of text.now }
{
    if text.is_empty() {
        Rule::Empty
    } else if text.ends_with(b"\r") {
        Rule::Return
    } else {
        argument_rule(text)
    }
}

/// The same of one that is not empty, and may want a number of steps.
#[tactic(auto, unfolding(crate::specs::Scripts::argument_rule))]
fn argument_rule(text: &[u8]) -> Rule
    ensures { result ≡ argument_rule_of text.now }
{
    if text.starts_with(b"step ") {
        count_rule(&text[5..])
    } else if text.starts_with(b"over ") {
        count_rule(&text[5..])
    } else if text.starts_with(b"go ") {
        count_rule(&text[3..])
    } else if text.starts_with(b"back ") {
        count_rule(&text[5..])
    } else {
        place_rule(text)
    }
}

/// The same of one that may want an address.
#[tactic(auto, unfolding(crate::specs::Scripts::place_rule))]
fn place_rule(text: &[u8]) -> Rule
    ensures { result ≡ place_rule_of text.now }
{
    if text.starts_with(b"break ") {
        address_rule(&text[6..])
    } else if text.starts_with(b"clear ") {
        address_rule(&text[6..])
    } else {
        word_rule(text)
    }
}

/// The same of one that does not begin with a command and a space.
fn word_rule(text: &[u8]) -> Rule
    ensures { result ≡ word_rule_of text.now }
{
    if text.starts_with(b"where") {
        Rule::Behind
    } else if is_bare(text) {
        Rule::Missing
    } else if Kind::Blank.begins(text) {
        Rule::Indented
    } else if Kind::Capital.begins(text) {
        Rule::Capitals
    } else {
        Rule::Command
    }
}

/// Whether a text is a command without what it wants.
#[tactic(auto, unfolding(crate::specs::Scripts::is_bare))]
fn is_bare(text: &[u8]) -> bool
    ensures { result ≡ is_bare_of text.now }
{
    text == b"step".as_slice()
        || text == b"over".as_slice()
        || text == b"go".as_slice()
        || text == b"back".as_slice()
        || text == b"break".as_slice()
        || text == b"clear".as_slice()
}

/// The rule that a number of steps breaks.
fn count_rule(text: &[u8]) -> Rule
    ensures { result ≡ count_rule_of text.now }
{
    if text.is_empty() {
        Rule::Missing
    } else if Kind::Blank.begins(text) {
        Rule::Spaces
    } else if Kind::NoDigit.begins(text) {
        Rule::Count
    } else if Kind::Blank.is_in(text) {
        Rule::Behind
    } else if Kind::NoDigit.is_in(text) {
        Rule::Count
    } else if text == b"0".as_slice() {
        Rule::Zero
    } else if text.starts_with(b"0") {
        Rule::Leading
    } else {
        Rule::Large
    }
}

/// The rule that an address breaks.
fn address_rule(text: &[u8]) -> Rule
    ensures { result ≡ address_rule_of text.now }
{
    if text.is_empty() {
        Rule::Missing
    } else if Kind::Blank.begins(text) {
        Rule::Spaces
    } else if Kind::NoHexadecimal.begins(text) {
        Rule::Address
    } else if Kind::Blank.is_in(text) {
        Rule::Behind
    } else if Kind::NoHexadecimal.is_in(text) {
        Rule::Address
    } else if text.len() == 8 {
        Rule::LowerAddress
    } else {
        Rule::Length
    }
}
