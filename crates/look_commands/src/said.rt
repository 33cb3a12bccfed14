// What is said, and to whom.
ghost use Rattle.std.specs.Prelude.{◌≡◌, IfErr, IfOk};
ghost use Rattle.look_commands.specs.Puts.{LacksMemory, Prints};

use look_words::Failure;
use look_words::status::{NO_MEMORY, OUTPUT_FAILED, SUCCESS};
use mix_bits::NoMemory;
use mix_io::write_whole;
use std::io::Write;

/// Says why a command is not done, and answers its status.
pub fn fail<E: Write>(errors: &mut E, failure: Failure) -> u8
    ensures { result ≡ failure.status }
{
    if let Some(sentence) = &failure.sentence {
        say(errors, sentence);
    }
    failure.status
}

/// Puts a sentence and a line feed to the errors.
pub fn say<E: Write>(errors: &mut E, text: &[u8]) {
    tell(errors, b"mixedlook: ");
    tell(errors, text);
    tell(errors, b"\n");
}

/// Puts a piece to the errors. A failure is passed over: the status says it all.
pub fn tell<E: Write>(errors: &mut E, piece: &[u8]) {
    let mut faults = 0;
    let _done = write_whole(errors, &mut faults, piece);
}

/// Puts a text to the output, and answers the status.
pub fn print<W: Write>(out: &mut W, text: &[u8]) -> u8
    ensures { Prints text.now (W.contents out.old) (W.contents out.new) result }
{
    let mut faults = 0;
    match write_whole(out, &mut faults, text) {
        Ok(()) => SUCCESS,
        Err(_) => OUTPUT_FAILED,
    }
}

/// Puts a text to the output, and answers the status, also where there was no memory for the text.
pub fn print_made<W: Write>(out: &mut W, text: Result<Vec<u8>, NoMemory>) -> u8
    ensures made { IfOk text (λ text. Prints text.items (W.contents out.old) (W.contents out.new) result) }
    ensures lacks { IfErr text (λ _. LacksMemory (W.contents out.old) (W.contents out.new) result) }
{
    match text {
        Ok(text) => print(out, &text),
        Err(NoMemory) => NO_MEMORY,
    }
}
