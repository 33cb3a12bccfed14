//! Actions of `vCont`.
ghost use Rattle.std.specs.Prelude.{◌≡◌};
ghost use Rattle.gdb_requests.specs.Actions.{acting, action_said, resume_said, step_said};
ghost use Rattle.gdb_requests.specs.Actions.{resuming, second_said, signalled, thread_or_any};

use super::parts::{back, front, is_word};
use super::request::{Action, Id, Request, Thread};
use super::threads::read_thread;
use gdb_packets::read_number;

/// The actions behind `vCont;`.
#[tactic(auto, unfolding(crate::specs::Actions::resume_said))]
pub fn read_actions(text: &[u8]) -> Request
    ensures { result ≡ resume_said text.now }
{
    let rest = back(text, b';');
    let first = read_action(front(text, b';'));
    if rest.is_empty() {
        one(first)
    } else if back(rest, b';').is_empty() {
        two(first, read_action(front(rest, b';')))
    } else {
        Request::Unknown
    }
}

fn one(first: Option<Action>) -> Request
    ensures { result ≡ resuming first }
{
    match first {
        Some(first) => Request::Resume(first, None),
        None => Request::Unknown,
    }
}

fn two(first: Option<Action>, second: Option<Action>) -> Request
    ensures { result ≡ second_said first second }
{
    match (first, second) {
        (Some(first), Some(second)) => Request::Resume(first, Some(second)),
        _ => Request::Unknown,
    }
}

#[tactic(auto, unfolding(crate::specs::Actions::action_said))]
fn read_action(text: &[u8]) -> Option<Action>
    ensures { result ≡ action_said text.now }
{
    join(read_step(front(text, b':')), read_target(back(text, b':')))
}

fn join(is_step: Option<bool>, thread: Option<Thread>) -> Option<Action>
    ensures { result ≡ acting is_step thread }
{
    match (is_step, thread) {
        (Some(is_step), Some(thread)) => Some(Action { is_step, thread }),
        _ => None,
    }
}

#[tactic(auto, unfolding(crate::specs::Actions::thread_or_any))]
fn read_target(text: &[u8]) -> Option<Thread>
    ensures { result ≡ thread_or_any text.now }
{
    if text.is_empty() {
        Some(Thread {
            process: Id::Any,
            thread: Id::Any,
        })
    } else {
        read_thread(text)
    }
}

/// Whether a word is a step; a signal behind `C` or `S` is passed over.
#[tactic(auto, unfolding(crate::specs::Actions::step_said))]
fn read_step(word: &[u8]) -> Option<bool>
    ensures { result ≡ step_said word.now }
{
    if is_word(word, b"c") {
        Some(false)
    } else if is_word(word, b"s") {
        Some(true)
    } else {
        match word {
            [letter, signal @ ..] => with_signal(*letter, read_number(signal)),
            [] => None,
        }
    }
}

fn with_signal(letter: u8, signal: Option<u32>) -> Option<bool>
    ensures { result ≡ signalled letter signal }
{
    match (letter, signal) {
        (b'C', Some(_)) => Some(false),
        (b'S', Some(_)) => Some(true),
        _ => None,
    }
}
