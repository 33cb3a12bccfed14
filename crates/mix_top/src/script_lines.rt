// The lines of a text, each with the line feed that ends it.
ghost use Rattle.std.specs.Prelude.{◌≡◌, ◌<◌, ◌≤◌, length};
ghost use Rattle.mix_top.specs.ScriptLines.{behind_line, first_line, line_length as line_length_of};
ghost use Rattle.mix_top.specs.Scripts.{command_in};

use crate::command::{ScriptCommand, read_command};

/// The first line of a text, and what stands behind it.
pub fn split_line(text: &[u8]) -> (&[u8], &[u8])
    ensures line { result.0.now ≡ first_line text.now }
    ensures rest { result.1.now ≡ behind_line text.now }
{
    let end = line_length(text);
    (&text[..end], &text[end..])
}

/// How many bytes the first line has; all, where there is no line feed.
fn line_length(text: &[u8]) -> usize
    ensures value { result ≡ line_length_of text.now }
    ensures within { result ≤ length text.now }
{
    for (i, b) in text.iter().enumerate() {
        if *b == b'\n' {
            return i + 1;
        }
    }
    text.len()
}

/// The command that a line is, which has to end with a line feed.
pub fn read_line(line: &[u8]) -> Option<ScriptCommand>
    ensures { result ≡ command_in line.now }
{
    if line.ends_with(b"\n") {
        read_command(&line[..line.len() - 1])
    } else {
        None
    }
}
