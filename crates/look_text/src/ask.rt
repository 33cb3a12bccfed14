// What `mix_io` says of a command with one word behind it.
ghost use Rattle.std.specs.Prelude.{◌≡◌, IfOk};
ghost use Rattle.look_text.specs.Reasons.{is_refused};

use job_words::read_words;
use mix_bits::NoMemory;
use std::alloc::Global;

/// Whether `mix_io` refuses a word as the first one behind a command.
pub fn is_refused(alloc: Global, command: &str, word: &str) -> Result<bool, NoMemory>
    ensures { IfOk result (λ refused. refused ≡ is_refused command.now word.now) }
{
    let words = [
        String::from_str(alloc, command)?,
        String::from_str(alloc, word)?,
    ];
    Ok(match read_words(&words) {
        Ok(_) => false,
        Err(bad) => bad.place == 1,
    })
}
