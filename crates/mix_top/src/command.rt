// The commands of a script, and the texts that they are.
ghost use Rattle.std.specs.Prelude.{◌≡◌};
ghost use Rattle.mix_top.specs.Commands.{command_of, count_in};

use mix_bits::{read_decimal, read_hexadecimal};

/// A command of a script. A number of steps is at least 1.
#[derive(Clone, Copy, Debug, PartialEq, Eq)]
pub enum ScriptCommand {
    /// Does steps, up to so many.
    Step(u32),
    /// Does steps, up to so many, until no more frames are live than before the first.
    Over(u32),
    /// Does steps, up to so many, until the code comes to an address that is set to stop at.
    Go(u32),
    /// Takes steps back, up to so many.
    Back(u32),
    /// Sets an address to stop at.
    Break(u32),
    /// Clears it again.
    Clear(u32),
    /// Says where the code is, and where each suspended caller.
    Where,
}

/// The command that a text is, which has no line feed.
#[tactic(auto, unfolding(crate::specs::Commands::command_of))]
pub fn read_command(text: &[u8]) -> Option<ScriptCommand>
    ensures { result ≡ command_of text.now }
{
    if text == b"where".as_slice() {
        Some(ScriptCommand::Where)
    } else if text.starts_with(b"step ") {
        read_count(&text[5..]).map(ScriptCommand::Step)
    } else if text.starts_with(b"over ") {
        read_count(&text[5..]).map(ScriptCommand::Over)
    } else if text.starts_with(b"go ") {
        read_count(&text[3..]).map(ScriptCommand::Go)
    } else if text.starts_with(b"back ") {
        read_count(&text[5..]).map(ScriptCommand::Back)
    } else if text.starts_with(b"break ") {
        read_hexadecimal(&text[6..], 8).map(ScriptCommand::Break)
    } else if text.starts_with(b"clear ") {
        read_hexadecimal(&text[6..], 8).map(ScriptCommand::Clear)
    } else {
        None
    }
}

/// The number of steps that a text is: in decimal, without leading zeros, from 1 on.
fn read_count(text: &[u8]) -> Option<u32>
    ensures { result ≡ count_in text.now }
{
    match read_decimal(text) {
        Some(0) => None,
        count => count,
    }
}
