//! The commands that the user gives behind `monitor`.
ghost use Rattle.std.specs.Prelude.{◌≡◌, drop};
ghost use Rattle.look_gdb.specs.Commands.{command_of, tale_named as tale_of, with_budget as budget_with, with_steps as steps_with, with_word as word_with};

use mix_bits::{read_decimal, read_hexadecimal};

/// What a command asks for.
#[derive(Clone, Copy, Debug, PartialEq, Eq)]
pub enum Command {
    /// A walk is to have at most so many steps from here on.
    Budget(u32),
    /// The machine is to go to the place of the run behind so many steps.
    Go(u32),
    /// Something is to be told.
    Tell(Tale),
}

/// What is to be told.
#[derive(Clone, Copy, Debug, PartialEq, Eq)]
pub enum Tale {
    /// How many steps were done, where the code is, and where each suspended caller.
    Where,
    /// How many steps were done.
    Step,
    /// The open calls across.
    Calls,
    /// The blocks of the heap.
    Heap,
    /// What a procInfo word says.
    Info(u32),
    /// Which commands there are.
    Help,
}

/// The command that a text is.
#[tactic(auto, unfolding(crate::specs::Commands::command_of))]
pub fn read_command(text: &[u8]) -> Command
    ensures { result ≡ command_of text.now }
{
    if text.starts_with(b"budget ") {
        return with_budget(read_decimal(behind(text, 7)));
    }
    if text.starts_with(b"go ") {
        return with_steps(read_decimal(behind(text, 3)));
    }
    if text.starts_with(b"info ") {
        return with_word(read_hexadecimal(behind(text, 5), 8));
    }
    Command::Tell(tale_named(text))
}

fn tale_named(text: &[u8]) -> Tale
    ensures { result ≡ tale_of text.now }
{
    if text == b"where".as_slice() {
        Tale::Where
    } else if text == b"step".as_slice() {
        Tale::Step
    } else if text == b"calls".as_slice() {
        Tale::Calls
    } else if text == b"heap".as_slice() {
        Tale::Heap
    } else {
        Tale::Help
    }
}

fn with_budget(budget: Option<u32>) -> Command
    ensures { result ≡ budget_with budget }
{
    match budget {
        None => Command::Tell(Tale::Help),
        Some(budget) => Command::Budget(budget),
    }
}

fn with_steps(steps: Option<u32>) -> Command
    ensures { result ≡ steps_with steps }
{
    match steps {
        None => Command::Tell(Tale::Help),
        Some(steps) => Command::Go(steps),
    }
}

fn with_word(word: Option<u32>) -> Command
    ensures { result ≡ word_with word }
{
    match word {
        None => Command::Tell(Tale::Help),
        Some(word) => Command::Tell(Tale::Info(word)),
    }
}

fn behind(text: &[u8], count: usize) -> &[u8]
    ensures { result.now ≡ drop count text.now }
{
    if count < text.len() {
        &text[count..]
    } else {
        &[]
    }
}
