ghost use Rattle.std.specs.Prelude.{◌≡◌, ◌^◌, ◌<◌, ◌∷◌, [], Ok, Err, MatchOption, MatchResult, length};
ghost use Rattle.mix_top.specs.inner.Scripts.{bad_in};
ghost use Rattle.mix_top.specs.Scripts.{script_of};

use crate::command::ScriptCommand;
use crate::script_lines::{read_line, split_line};
use std::marker::Model;

/// The first line of a text that is no command: its number, counted from 1.
#[derive(Clone, Copy, Debug, PartialEq, Eq)]
pub struct BadLine {
    pub number: u32,
}

/// The commands that are still to be done of a text in which each line is one.
#[derive(Drop)]
pub struct Script<'a> {
    rest: &'a [u8],
}

impl<'a> Model for Script<'a> {
    ghost use Rattle.std.specs.Prelude.{List};
    ghost use Rattle.mix_top.specs.declared.command.ScriptCommand.{ScriptCommand};
    ghost use Rattle.mix_top.specs.inner.Scripts.{AreCommands, commands_among};
    ghost use Rattle.mix_top.specs.Scripts.{lines_of};

    ghost Value = { List ScriptCommand };

    ghost view = { λ s. commands_among (lines_of s.rest.now) };

    ghost invariant = { λ s. AreCommands (lines_of s.rest.now) };
}

impl<'a> Script<'a> {
    /// Reads a text, of which each line has to be a command and to end with a line feed.
    pub fn read(text: &[u8]) -> Result<Script<'_>, BadLine>
        requires { length text.now < 2 ^ 31 }
        ensures { MatchResult result (λ s. script_of text.now ≡ Ok s) (λ bad. script_of text.now ≡ Err bad.number) }
    {
        match first_bad(text) {
            None => Ok(Script { rest: text }),
            Some(number) => Err(BadLine { number }),
        }
    }

    /// Takes the next command.
    pub fn next(&mut self) -> Option<ScriptCommand>
        ensures { MatchOption result ((self.old ≡ []) × (self.new ≡ [])) (λ c. self.old ≡ c ∷ self.new) }
    {
        if self.rest.is_empty() {
            return None;
        }
        let (line, behind) = split_line(self.rest);
        self.rest = behind;
        read_line(line)
    }
}

/// The number of the first line that is no command, if there is one.
fn first_bad(text: &[u8]) -> Option<u32>
    requires { length text.now < 2 ^ 31 }
    ensures { result ≡ bad_in (script_of text.now) }
{
    let mut rest = text;
    let mut number = 1;
    'lines: while !rest.is_empty() {
        let (line, behind) = split_line(rest);
        if read_line(line).is_none() {
            return Some(number);
        }
        rest = behind;
        number += 1;
    }
    None
}
