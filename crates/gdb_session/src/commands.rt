//! The command that the user gives behind `monitor`.
ghost use Rattle.std.specs.Prelude.{◌≡◌, IfOk, drop};
ghost use Rattle.gdb_session.specs.Commands.{command_of};

use gdb_packets::append_said;
use mix_bits::NoMemory;
use std::alloc::Global;

/// The command that a packet's data has in digits behind `qRcmd,`, or nothing where these are no digits.
#[tactic(auto, unfolding(crate::specs::Commands::command_of))]
pub fn read_command(alloc: Global, data: &[u8]) -> Result<Vec<u8>, NoMemory>
    ensures { IfOk result (λ text. text.items ≡ command_of «data».now) }
{
    let mut text = Vec::new(alloc);
    if append_said(&mut text, behind(data, 6))? {
        Ok(text)
    } else {
        Ok(Vec::new(alloc))
    }
}

fn behind(text: &[u8], count: usize) -> &[u8]
    ensures { result.now ≡ drop count text.now }
{
    if count < text.len() {
        &text[count..]
    } else {
        &[]
    }
}
