//! What is sent at a packet of gdb's.
ghost use Rattle.std.specs.Prelude.{◌≡◌, ◌++◌, [], IfOk, OnOk};
ghost use Rattle.gdb_session.specs.Replies.{DoneBy, Replies, console_packet, placed as placed_by, rules_of, said};
ghost use Rattle.gdb_session.specs.Stops.{halt_answer as halt_told, halt_talk, is_end as is_end_told};

use crate::commands::read_command;
use crate::outcome::Outcome;
use crate::target::{Halt, Target};
use gdb_answers::{Answer, Reason, append_console};
use gdb_packets::append_packet;
use gdb_requests::read_request;
use gdb_talk::{Deed, Talk, Walk};
use mix_bits::{Isa, NoMemory};
use std::alloc::Global;

/// Does what a packet of gdb's with this data asks for, and puts the packets that gdb gets for it into `sent`. `console`
/// has what a walk or a command told on the console. Both are empty before.
pub fn reply<T: Target>(
    alloc: Global,
    target: &mut T,
    talk: &mut Talk,
    data: &[u8],
    console: &mut Vec<u8>,
    sent: &mut Vec<u8>,
) -> Result<Outcome, NoMemory>
    requires console { console.old.items ≡ [] }
    requires sent { sent.old.items ≡ [] }
    ensures { IfOk result (λ outcome. Replies (rules_of T.scene T.walks T.inserts T.removes T.obeys) «data».now talk.old talk.new target.old target.new console.new.items sent.new.items outcome) }
{
    let request = read_request(data);
    let active = target.set();
    let deed = talk.deed(active, request);
    talk.note(active, request);
    obey(alloc, target, talk, deed, data, console, sent)
}

fn obey<T: Target>(
    alloc: Global,
    target: &mut T,
    talk: &mut Talk,
    deed: Deed,
    data: &[u8],
    console: &mut Vec<u8>,
    sent: &mut Vec<u8>,
) -> Result<Outcome, NoMemory>
    requires console { console.old.items ≡ [] }
    requires sent { sent.old.items ≡ [] }
    ensures { IfOk result (λ outcome. DoneBy (rules_of T.scene T.walks T.inserts T.removes T.obeys) «data».now talk.old talk.new target.old target.new console.new.items sent.new.items deed outcome) }
{
    match deed {
        Deed::Answer(answer) => {
            answer_alone(alloc, target, answer, sent)?;
            Ok(Outcome::Answered)
        }
        Deed::Walk(way) => walk(alloc, target, talk, way, console, sent),
        Deed::Insert(point, address, count) => {
            let is_set = target.insert(point, address, count);
            answer_alone(alloc, target, placed(is_set), sent)?;
            Ok(Outcome::Placed(is_set))
        }
        Deed::Remove(point, address, count) => {
            target.remove(point, address, count);
            answer_alone(alloc, target, Answer::Done, sent)?;
            Ok(Outcome::Answered)
        }
        Deed::Command => command(alloc, target, talk, data, console, sent),
        Deed::Leave => {
            answer_alone(alloc, target, Answer::Done, sent)?;
            Ok(Outcome::Ended)
        }
        Deed::End => Ok(Outcome::Ended),
    }
}

/// Puts the packet of an answer where none is yet.
fn answer_alone<T: Target>(
    alloc: Global,
    target: &T,
    answer: Answer,
    sent: &mut Vec<u8>,
) -> Result<(), NoMemory>
    requires { sent.old.items ≡ [] }
    ensures { OnOk result (sent.new.items ≡ said (T.scene target.now) answer) }
{
    put_answer(alloc, target, answer, sent)
}

fn put_answer<T: Target>(
    alloc: Global,
    target: &T,
    answer: Answer,
    sent: &mut Vec<u8>,
) -> Result<(), NoMemory>
    ensures { OnOk result (sent.new.items ≡ sent.old.items ++ said (T.scene target.now) answer) }
{
    let mut data = Vec::new(alloc);
    target.tell(answer, &mut data)?;
    append_packet(sent, &data)
}

fn put_console(alloc: Global, bytes: &[u8], sent: &mut Vec<u8>) -> Result<(), NoMemory>
    ensures { OnOk result (sent.new.items ≡ sent.old.items ++ console_packet bytes.now) }
{
    if bytes.is_empty() {
        return Ok(());
    }
    let mut data = Vec::new(alloc);
    append_console(&mut data, bytes)?;
    append_packet(sent, &data)
}

fn walk<T: Target>(
    alloc: Global,
    target: &mut T,
    talk: &mut Talk,
    way: Walk,
    console: &mut Vec<u8>,
    sent: &mut Vec<u8>,
) -> Result<Outcome, NoMemory>
    requires console { console.old.items ≡ [] }
    requires sent { sent.old.items ≡ [] }
    ensures { IfOk result (λ outcome. DoneBy (rules_of T.scene T.walks T.inserts T.removes T.obeys) [] talk.old talk.new target.old target.new console.new.items sent.new.items (Deed.Walk way) outcome) }
{
    let halt = target.walk(way, console)?;
    put_console(alloc, console, sent)?;
    let active = target.set();
    let answer = halt_answer(talk, active, halt);
    note_halt(talk, active, halt);
    put_answer(alloc, target, answer, sent)?;
    Ok(Outcome::Walked(halt))
}

fn halt_answer(talk: &Talk, active: Isa, halt: Halt) -> Answer
    ensures { result ≡ halt_told active talk.now halt }
{
    match halt {
        Halt::Stopped(reason) => talk.stop_answer(active, reason),
        Halt::Exit(code) => {
            if is_end(talk.reason) {
                talk.exit_answer(active, code)
            } else {
                talk.stop_answer(active, Reason::Ends)
            }
        }
    }
}

fn is_end(reason: Reason) -> bool
    ensures { result ≡ is_end_told reason }
{
    match reason {
        Reason::Ends => true,
        _ => false,
    }
}

fn note_halt(talk: &mut Talk, active: Isa, halt: Halt)
    ensures { talk.new ≡ halt_talk active talk.old halt }
{
    match halt {
        Halt::Stopped(reason) => talk.stop(active, reason),
        Halt::Exit(_) if is_end(talk.reason) => talk.exit(active),
        Halt::Exit(_) => talk.stop(active, Reason::Ends),
    }
}

fn placed(is_set: bool) -> Answer
    ensures { result ≡ placed_by is_set }
{
    if is_set {
        Answer::Done
    } else {
        Answer::Refused
    }
}

fn command<T: Target>(
    alloc: Global,
    target: &mut T,
    talk: &mut Talk,
    data: &[u8],
    console: &mut Vec<u8>,
    sent: &mut Vec<u8>,
) -> Result<Outcome, NoMemory>
    requires console { console.old.items ≡ [] }
    requires sent { sent.old.items ≡ [] }
    ensures { IfOk result (λ outcome. DoneBy (rules_of T.scene T.walks T.inserts T.removes T.obeys) «data».now talk.old talk.new target.old target.new console.new.items sent.new.items Deed.Command outcome) }
{
    let text = read_command(alloc, data)?;
    let has_moved = target.obey(&text, console)?;
    if has_moved {
        talk.go_elsewhere();
    }
    put_console(alloc, console, sent)?;
    put_answer(alloc, target, Answer::Done, sent)?;
    Ok(Outcome::Obeyed(has_moved))
}
