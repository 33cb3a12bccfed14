//! Processes and threads.
ghost use Rattle.std.specs.Prelude.{◌≡◌};
ghost use Rattle.gdb_requests.specs.Threads.{id_said, in_process, thread_part, thread_said};

use super::parts::{back, does_begin, front, is_word, skip};
use super::request::{Id, Thread};
use gdb_packets::read_number;

/// The id that a text is.
#[tactic(auto, unfolding(crate::specs::Threads::id_said))]
pub fn read_id(text: &[u8]) -> Option<Id>
    ensures { result ≡ id_said text.now }
{
    if is_word(text, b"-1") {
        return Some(Id::Any);
    }
    match read_number(text) {
        Some(0) => Some(Id::Any),
        Some(number) => Some(Id::Number(number)),
        None => None,
    }
}

/// The thread that a text is, with or without its process.
#[tactic(auto, unfolding(crate::specs::Threads::thread_said))]
pub fn read_thread(text: &[u8]) -> Option<Thread>
    ensures { result ≡ thread_said text.now }
{
    if does_begin(text, b"p") {
        let rest = skip(text, 1);
        join(read_id(front(rest, b'.')), read_part(back(rest, b'.')))
    } else {
        join(Some(Id::Any), read_id(text))
    }
}

#[tactic(auto, unfolding(crate::specs::Threads::thread_part))]
fn read_part(text: &[u8]) -> Option<Id>
    ensures { result ≡ thread_part text.now }
{
    if text.is_empty() {
        Some(Id::Any)
    } else {
        read_id(text)
    }
}

fn join(process: Option<Id>, thread: Option<Id>) -> Option<Thread>
    ensures { result ≡ in_process process thread }
{
    match (process, thread) {
        (Some(process), Some(thread)) => Some(Thread { process, thread }),
        _ => None,
    }
}
