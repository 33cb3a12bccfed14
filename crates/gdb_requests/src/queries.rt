//! Packets that begin with `q`, `Q` or `v`.
ghost use Rattle.std.specs.Prelude.{◌≡◌};
ghost use Rattle.gdb_requests.specs.Queries.{attaching, features_said, general_said, has_word, killing, of_process, query_said, range_said, setting_said, verbose_said};

use super::actions::read_actions;
use super::parts::{does_begin, is_word, read_pair, skip};
use super::request::{Features, Id, Request};
use super::threads::read_id;

/// The request behind `q`.
#[tactic(auto, unfolding(crate::specs::Queries::query_said))]
pub fn query(text: &[u8]) -> Request
    ensures { result ≡ query_said text.now }
{
    if does_begin(text, b"Supported") {
        Request::Supported(features(text))
    } else if does_begin(text, b"Xfer:features:read:target.xml:") {
        description(skip(text, 30))
    } else if does_begin(text, b"Attached:") {
        attached(read_id(skip(text, 9)))
    } else if does_begin(text, b"Rcmd,") {
        Request::Monitor
    } else {
        general(text)
    }
}

/// What gdb knows of.
fn features(text: &[u8]) -> Features
    ensures { result ≡ features_said text.now }
{
    Features {
        processes: has_word(text, b"multiprocess+"),
        breakpoints: has_word(text, b"swbreak+"),
    }
}

/// Whether a word begins somewhere in a text.
#[tactic(auto, unfolding(crate::specs::Queries::has_word))]
fn has_word(text: &[u8], word: &[u8]) -> bool
    ensures { result ≡ has_word word.now text.now }
{
    for i in 0..text.len() {
        if does_begin(skip(text, i), word) {
            return true;
        }
    }
    false
}

#[tactic(auto, unfolding(crate::specs::Queries::range_said))]
fn description(text: &[u8]) -> Request
    ensures { result ≡ range_said text.now }
{
    match read_pair(text) {
        Some((offset, length)) => Request::Description(offset, length),
        None => Request::Unknown,
    }
}

fn attached(id: Option<Id>) -> Request
    ensures { result ≡ of_process id }
{
    match id {
        Some(id) => Request::IsAttached(id),
        None => Request::Unknown,
    }
}

#[tactic(auto, unfolding(crate::specs::Queries::general_said))]
fn general(text: &[u8]) -> Request
    ensures { result ≡ general_said text.now }
{
    if is_word(text, b"fThreadInfo") {
        Request::FirstThreads
    } else if is_word(text, b"sThreadInfo") {
        Request::MoreThreads
    } else if is_word(text, b"C") {
        Request::CurrentThread
    } else if is_word(text, b"Attached") {
        Request::IsAttached(Id::Any)
    } else {
        Request::Unknown
    }
}

/// The request behind `Q`.
#[tactic(auto, unfolding(crate::specs::Queries::setting_said))]
pub fn setting(text: &[u8]) -> Request
    ensures { result ≡ setting_said text.now }
{
    if is_word(text, b"StartNoAckMode") {
        Request::NoAcknowledgements
    } else {
        Request::Unknown
    }
}

/// The request behind `v`.
#[tactic(auto, unfolding(crate::specs::Queries::verbose_said))]
pub fn verbose(text: &[u8]) -> Request
    ensures { result ≡ verbose_said text.now }
{
    if does_begin(text, b"Cont;") {
        read_actions(skip(text, 5))
    } else if does_begin(text, b"Attach;") {
        attach(read_id(skip(text, 7)))
    } else if does_begin(text, b"Kill;") {
        kill(read_id(skip(text, 5)))
    } else if is_word(text, b"Cont?") {
        Request::ResumeWords
    } else {
        Request::Unknown
    }
}

fn attach(id: Option<Id>) -> Request
    ensures { result ≡ attaching id }
{
    match id {
        Some(id) => Request::Attach(id),
        None => Request::Unknown,
    }
}

fn kill(id: Option<Id>) -> Request
    ensures { result ≡ killing id }
{
    match id {
        Some(id) => Request::Kill(id),
        None => Request::Unknown,
    }
}
