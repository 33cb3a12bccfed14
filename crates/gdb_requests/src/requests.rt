ghost use Rattle.std.specs.Prelude.{◌≡◌};
ghost use Rattle.gdb_requests.specs.Requests.{alive_of, alone, back_said, by_letter, detach_said, detaching, memory_of, point_said, pointing, register_of, request_of, selected, selecting, signalled_request, single_said};

use super::parts::{does_begin, is_word, read_pair, skip};
use super::queries::{query, setting, verbose};
use super::request::{Id, Point, Request, Thread};
use super::threads::{read_id, read_thread};
use gdb_packets::read_number;

/// The request that a packet's data is.
#[tactic(auto, unfolding(crate::specs::Requests::request_of))]
pub fn read_request(data: &[u8]) -> Request
    ensures { result ≡ request_of «data».now }
{
    match data {
        [] => Request::Unknown,
        [letter, rest @ ..] => read_by_letter(*letter, rest),
    }
}

#[tactic(auto, unfolding(crate::specs::Requests::by_letter))]
fn read_by_letter(letter: u8, rest: &[u8]) -> Request
    ensures { result ≡ by_letter letter rest.now }
{
    match letter {
        b'q' => query(rest),
        b'Q' => setting(rest),
        b'v' => verbose(rest),
        b'H' => selection(rest),
        b'm' => memory(read_pair(rest)),
        b'p' => register(read_number(rest)),
        b'Z' => point(rest, true),
        b'z' => point(rest, false),
        b'T' => alive(read_thread(rest)),
        b'D' => detachment(rest),
        b'b' => backward(rest),
        _ => without_fields(letter, rest),
    }
}

/// A request that is one letter, or one with what is passed over.
#[tactic(auto, unfolding(crate::specs::Requests::single_said))]
fn without_fields(letter: u8, rest: &[u8]) -> Request
    ensures { result ≡ single_said letter rest.now }
{
    match letter {
        b'?' => only(rest, Request::Reason),
        b'!' => only(rest, Request::Extended),
        b'g' => only(rest, Request::Registers),
        b'c' => only(rest, Request::Continue),
        b's' => only(rest, Request::Step),
        b'k' => only(rest, Request::Kill(Id::Any)),
        b'C' => with_signal(read_number(rest), Request::Continue),
        b'S' => with_signal(read_number(rest), Request::Step),
        b'G' | b'M' | b'P' | b'X' => Request::Change,
        _ => Request::Unknown,
    }
}

fn only(rest: &[u8], request: Request) -> Request
    ensures { result ≡ alone rest.now request }
{
    if rest.is_empty() {
        request
    } else {
        Request::Unknown
    }
}

fn with_signal(signal: Option<u32>, request: Request) -> Request
    ensures { result ≡ signalled_request signal request }
{
    match signal {
        Some(_) => request,
        None => Request::Unknown,
    }
}

#[tactic(auto, unfolding(crate::specs::Requests::selected))]
fn selection(text: &[u8]) -> Request
    ensures { result ≡ selected text.now }
{
    if does_begin(text, b"g") {
        select(true, read_thread(skip(text, 1)))
    } else if does_begin(text, b"c") {
        select(false, read_thread(skip(text, 1)))
    } else {
        Request::Unknown
    }
}

fn select(for_registers: bool, thread: Option<Thread>) -> Request
    ensures { result ≡ selecting for_registers thread }
{
    match thread {
        Some(thread) if for_registers => Request::SelectForRegisters(thread),
        Some(thread) => Request::SelectForRunning(thread),
        None => Request::Unknown,
    }
}

fn memory(range: Option<(u32, u32)>) -> Request
    ensures { result ≡ memory_of range }
{
    match range {
        Some((address, length)) => Request::Memory(address, length),
        None => Request::Unknown,
    }
}

fn register(number: Option<u32>) -> Request
    ensures { result ≡ register_of number }
{
    match number {
        Some(number) => Request::Register(number),
        None => Request::Unknown,
    }
}

fn alive(thread: Option<Thread>) -> Request
    ensures { result ≡ alive_of thread }
{
    match thread {
        Some(thread) => Request::IsAlive(thread),
        None => Request::Unknown,
    }
}

#[tactic(auto, unfolding(crate::specs::Requests::point_said))]
fn point(text: &[u8], is_set: bool) -> Request
    ensures { result ≡ point_said is_set text.now }
{
    let range = read_pair(skip(text, 2));
    if does_begin(text, b"0,") {
        place(is_set, Point::Software, range)
    } else if does_begin(text, b"1,") {
        place(is_set, Point::Hardware, range)
    } else if does_begin(text, b"2,") {
        place(is_set, Point::Write, range)
    } else {
        Request::Unknown
    }
}

fn place(is_set: bool, point: Point, range: Option<(u32, u32)>) -> Request
    ensures { result ≡ pointing is_set point range }
{
    match range {
        Some((address, length)) if is_set => Request::Insert(point, address, length),
        Some((address, length)) => Request::Remove(point, address, length),
        None => Request::Unknown,
    }
}

#[tactic(auto, unfolding(crate::specs::Requests::detach_said))]
fn detachment(text: &[u8]) -> Request
    ensures { result ≡ detach_said text.now }
{
    if text.is_empty() {
        Request::Detach(Id::Any)
    } else if does_begin(text, b";") {
        detach(read_id(skip(text, 1)))
    } else {
        Request::Unknown
    }
}

fn detach(id: Option<Id>) -> Request
    ensures { result ≡ detaching id }
{
    match id {
        Some(id) => Request::Detach(id),
        None => Request::Unknown,
    }
}

#[tactic(auto, unfolding(crate::specs::Requests::back_said))]
fn backward(text: &[u8]) -> Request
    ensures { result ≡ back_said text.now }
{
    if is_word(text, b"c") {
        Request::BackContinue
    } else if is_word(text, b"s") {
        Request::BackStep
    } else {
        Request::Unknown
    }
}
