ghost use Rattle.std.specs.Prelude.{◌≡◌, ◌++◌, [], IfErr, IfOk, None, OnOk, Some};
ghost use Rattle.mix_io.specs.Streams.{Grows};
ghost use Rattle.mix_io.specs.StreamsClauses.{output};
ghost use Rattle.switch_frame.specs.Records.{isa_of};
ghost use Rattle.gdb_packets.specs.Reading.{after};
ghost use Rattle.gdb_talk.specs.Talks.{first_talk};
ghost use Rattle.gdb_session.specs.Hearing.{BlamesInput, BlamesOutput, acknowledged};
ghost use Rattle.gdb_session.specs.Replies.{rules_of};
ghost use Rattle.gdb_session.specs.Serving.{BreaksAt, MeetsWhole, Serves, first_standing, is_end, standing};
ghost use Rattle.gdb_session.specs.inner.Listening.{CutsOff, Listens, ListensUntil, RepliesTo, RepliesUntil};

use crate::broken::Broken;
use crate::outcome::Outcome;
use crate::replies::reply;
use crate::target::Target;
use gdb_packets::{Decoder, Event};
use gdb_talk::Talk;
use mix_bits::NoMemory;
use mix_io::{Sink, Source};
use std::alloc::Global;

/// A server of gdb's for a machine.
#[derive(Drop)]
pub struct Server<T> {
    pub target: T,
    pub talk: Talk,
    /// What the last walk told on the console.
    pub console: Vec<u8>,
    /// What the last packet was answered with.
    pub sent: Vec<u8>,
}

impl<T: Target + Drop> Server<T> {
    /// A server before the first packet.
    pub fn new(alloc: Global, target: T) -> Server<T>
        ensures target { result.target ≡ target }
        ensures talk { result.talk ≡ first_talk (isa_of (T.scene target).active) }
        ensures console { result.console.items ≡ [] }
        ensures sent { result.sent.items ≡ [] }
    {
        Server {
            talk: Talk::new(target.set()),
            target,
            console: Vec::new(alloc),
            sent: Vec::new(alloc),
        }
    }

    /// Does what the stream says by an event, with the data of its packet, and sends what gdb gets for it.
    pub fn hear<O: Sink>(
        &mut self,
        alloc: Global,
        event: Event,
        data: &[u8],
        out: &mut O,
    ) -> Result<Option<Outcome>, Broken>
        ensures heard { IfOk result (λ outcome. MeetsWhole (rules_of T.scene T.walks T.inserts T.removes T.obeys) (event, «data».now) outcome (standing self.old.target self.old.talk self.old.console.items self.old.sent.items) (standing self.new.target self.new.talk self.new.console.items self.new.sent.items) (output (O.held out.old) (O.faults out.old)) (output (O.held out.new) (O.faults out.new))) }
        ensures broken { IfErr result (λ broken. BreaksAt (rules_of T.scene T.walks T.inserts T.removes T.obeys) (event, «data».now) (standing self.old.target self.old.talk self.old.console.items self.old.sent.items) (output (O.held out.old) (O.faults out.old)) (output (O.held out.new) (O.faults out.new)) broken) }
    {
        match event {
            Event::Packet => match self.take_packet(alloc, data, out) {
                Ok(outcome) => Ok(Some(outcome)),
                Err(broken) => Err(broken),
            },
            Event::BadSum | Event::TooLong => self.refuse(out),
            Event::Refused => self.repeat(out),
            Event::Acknowledged | Event::Interrupt => Ok(None),
        }
    }

    fn take_packet<O: Sink>(
        &mut self,
        alloc: Global,
        data: &[u8],
        out: &mut O,
    ) -> Result<Outcome, Broken>
        ensures heard { IfOk result (λ outcome. MeetsWhole (rules_of T.scene T.walks T.inserts T.removes T.obeys) (Event.Packet, «data».now) (Some outcome) (standing self.old.target self.old.talk self.old.console.items self.old.sent.items) (standing self.new.target self.new.talk self.new.console.items self.new.sent.items) (output (O.held out.old) (O.faults out.old)) (output (O.held out.new) (O.faults out.new))) }
        ensures broken { IfErr result (λ broken. BreaksAt (rules_of T.scene T.walks T.inserts T.removes T.obeys) (Event.Packet, «data».now) (standing self.old.target self.old.talk self.old.console.items self.old.sent.items) (output (O.held out.old) (O.faults out.old)) (output (O.held out.new) (O.faults out.new)) broken) }
    {
        match acknowledge(self.talk.acknowledges, b'+', out) {
            Ok(()) => self.answer(alloc, data, out),
            Err(broken) => Err(broken),
        }
    }

    fn answer<O: Sink>(
        &mut self,
        alloc: Global,
        data: &[u8],
        out: &mut O,
    ) -> Result<Outcome, Broken>
        ensures replies { IfOk result (λ outcome. RepliesTo (rules_of T.scene T.walks T.inserts T.removes T.obeys) «data».now (standing self.old.target self.old.talk self.old.console.items self.old.sent.items) (standing self.new.target self.new.talk self.new.console.items self.new.sent.items) outcome) }
        ensures sent { OnOk result (Grows (output (O.held out.old) (O.faults out.old)) (output (O.held out.new) (O.faults out.new)) self.new.sent.items) }
        ensures broken { IfErr result (λ broken. RepliesUntil (rules_of T.scene T.walks T.inserts T.removes T.obeys) «data».now (standing self.old.target self.old.talk self.old.console.items self.old.sent.items) (output (O.held out.old) (O.faults out.old)) (output (O.held out.new) (O.faults out.new)) broken) }
    {
        self.console.clear();
        self.sent.clear();
        match reply(
            alloc,
            &mut self.target,
            &mut self.talk,
            data,
            &mut self.console,
            &mut self.sent,
        ) {
            Ok(outcome) => match put(&self.sent, out) {
                Ok(()) => Ok(outcome),
                Err(broken) => Err(broken),
            },
            Err(NoMemory) => Err(Broken::NoMemory),
        }
    }

    fn refuse<O: Sink>(&self, out: &mut O) -> Result<Option<Outcome>, Broken>
        ensures none { IfOk result (λ outcome. outcome ≡ None) }
        ensures sent { OnOk result (Grows (output (O.held out.old) (O.faults out.old)) (output (O.held out.new) (O.faults out.new)) (acknowledged self.now.talk.acknowledges 45)) }
        ensures broken { IfErr result (λ broken. CutsOff (output (O.held out.old) (O.faults out.old)) (output (O.held out.new) (O.faults out.new)) (acknowledged self.now.talk.acknowledges 45) broken) }
    {
        acknowledge(self.talk.acknowledges, b'-', out)?;
        Ok(None)
    }

    fn repeat<O: Sink>(&self, out: &mut O) -> Result<Option<Outcome>, Broken>
        ensures none { IfOk result (λ outcome. outcome ≡ None) }
        ensures sent { OnOk result (Grows (output (O.held out.old) (O.faults out.old)) (output (O.held out.new) (O.faults out.new)) self.now.sent.items) }
        ensures broken { IfErr result (λ broken. CutsOff (output (O.held out.old) (O.faults out.old)) (output (O.held out.new) (O.faults out.new)) self.now.sent.items broken) }
    {
        put(&self.sent, out)?;
        Ok(None)
    }
}

fn acknowledge<O: Sink>(acknowledges: bool, sign: u8, out: &mut O) -> Result<(), Broken>
    ensures sent { OnOk result (Grows (output (O.held out.old) (O.faults out.old)) (output (O.held out.new) (O.faults out.new)) (acknowledged acknowledges sign)) }
    ensures broken { IfErr result (λ broken. CutsOff (output (O.held out.old) (O.faults out.old)) (output (O.held out.new) (O.faults out.new)) (acknowledged acknowledges sign) broken) }
{
    if acknowledges {
        put(&[sign], out)
    } else {
        Ok(())
    }
}

fn put<O: Sink>(piece: &[u8], out: &mut O) -> Result<(), Broken>
    ensures sent { OnOk result (Grows (output (O.held out.old) (O.faults out.old)) (output (O.held out.new) (O.faults out.new)) piece.now) }
    ensures broken { IfErr result (λ broken. CutsOff (output (O.held out.old) (O.faults out.old)) (output (O.held out.new) (O.faults out.new)) piece.now broken) }
{
    match out.put(piece) {
        Ok(()) => Ok(()),
        Err(_) => Err(Broken::Output),
    }
}

/// Serves gdb from its first byte to its last, or until it leaves or ends the program.
pub fn serve<T: Target + Drop, I: Source, O: Sink>(
    alloc: Global,
    target: T,
    input: &mut I,
    out: &mut O,
) -> Result<(), Broken>
    ensures input { BlamesInput (I.faults input.old) (I.faults input.new) result }
    ensures output { BlamesOutput (O.faults out.old) (O.faults out.new) result }
    ensures serves { Serves (rules_of T.scene T.walks T.inserts T.removes T.obeys) (first_standing (rules_of T.scene T.walks T.inserts T.removes T.obeys) target) (I.left input.old) (I.left input.new) (output (O.held out.old) (O.faults out.old)) (output (O.held out.new) (O.faults out.new)) result }
{
    let Ok(mut decoder) = Decoder::new(alloc) else {
        return Err(Broken::NoMemory);
    };
    let mut server = Server::new(alloc, target);
    for _number in 0..u64::MAX {
        let byte = match input.take() {
            Ok(Some(byte)) => byte,
            Ok(None) => return Ok(()),
            Err(_) => return Err(Broken::Input),
        };
        match listen(alloc, &mut server, &mut decoder, byte, out) {
            Ok(outcome) => {
                if is_last(outcome) {
                    return Ok(());
                }
            }
            Err(broken) => return Err(broken),
        }
    }
    Ok(())
}

/// Takes a byte of the stream, and does what it completes.
fn listen<T: Target + Drop, O: Sink>(
    alloc: Global,
    server: &mut Server<T>,
    decoder: &mut Decoder,
    byte: u8,
    out: &mut O,
) -> Result<Option<Outcome>, Broken>
    ensures decoder { decoder.new ≡ after decoder.old byte }
    ensures heard { IfOk result (λ outcome. Listens (rules_of T.scene T.walks T.inserts T.removes T.obeys) decoder.old byte outcome (standing server.old.target server.old.talk server.old.console.items server.old.sent.items) (standing server.new.target server.new.talk server.new.console.items server.new.sent.items) (output (O.held out.old) (O.faults out.old)) (output (O.held out.new) (O.faults out.new))) }
    ensures broken { IfErr result (λ broken. ListensUntil (rules_of T.scene T.walks T.inserts T.removes T.obeys) decoder.old byte (standing server.old.target server.old.talk server.old.console.items server.old.sent.items) (output (O.held out.old) (O.faults out.old)) (output (O.held out.new) (O.faults out.new)) broken) }
{
    match decoder.take(byte) {
        Some(event) => server.hear(alloc, event, decoder.packet(), out),
        None => Ok(None),
    }
}

fn is_last(outcome: Option<Outcome>) -> bool
    ensures { result ≡ is_end outcome }
{
    match outcome {
        Some(Outcome::Ended) => true,
        _ => false,
    }
}
