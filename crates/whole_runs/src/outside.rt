// What fails outside, and what is short: words such as `in=3`, `shelf=1,2` or `trace=1` for the calls that
// fail, by their numbers from 1, `out-room=5` and `trace-room=20` for how many bytes a stream holds, `keep=1`,
// `keep-room=5` and `keep-name=t` for the keeper, and `script=5,-,7` for a device in slot 0 whose second ask
// fails. Numbers are decimal.
use crate::words::{no_memory, number_or, numbers, value_of};
use mix_io::{MemKeep, MemSink, ScriptDevice};
use std::alloc::{AllocError, Global};
use std::io;

/// Room for more than a case puts.
const AMPLE: u32 = 0x1_0000;

/// Room for the image of a machine with 1024 KiB of RAM.
const IMAGE: u32 = 0x12_0000;

/// A stream with the room and the failures that the words for its keys say.
pub fn sink(alloc: Global, text: &str, key: &str, room_key: &str) -> io::Result<MemSink> {
    let room = number_or(text, room_key, AMPLE)?;
    let fails = numbers(alloc, text, key)?;
    MemSink::new(alloc, room, fails).map_err(no_memory)
}

/// A keeper of one name, which is `s` where the words say none.
pub fn keeper(alloc: Global, text: &str) -> io::Result<MemKeep> {
    let room = number_or(text, "keep-room", IMAGE)?;
    let fails = numbers(alloc, text, "keep")?;
    let name = String::from_str(alloc, value_of(text, "keep-name").unwrap_or("s"))?;
    MemKeep::new(alloc, name, room, fails).map_err(no_memory)
}

/// A device with the answers of a text.
pub fn scripted(alloc: Global, answers: &str) -> io::Result<ScriptDevice> {
    ScriptDevice::new(alloc, script(alloc, answers)?).map_err(no_memory)
}

/// Answers with commas between; what is no number is a failure.
fn script(alloc: Global, text: &str) -> Result<Vec<Option<u32>>, AllocError> {
    let mut answers = Vec::new(alloc);
    for word in text.split(',') {
        answers.push(word.parse::<u32>().ok())?;
    }
    Ok(answers)
}
