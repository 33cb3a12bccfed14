ghost use Rattle.std.specs.Prelude.{◌≡◌, ◌≤◌, IfOk, Some, length, vec_capacity, if◌then◌else◌};
ghost use Rattle.gdb_packets.specs.Stream.{signal};
ghost use Rattle.gdb_packets.specs.Reading.{Reading, after, after_in, at_stage, counting, escaped_by, event_at, fresh, framed, keeping, opened, plain_byte, verdict};
ghost use Rattle.gdb_packets.specs.declared.stage.Stage.TheVariants.{Outside, Sealed};

use super::event::Event;
use super::hex::hex_byte;
use super::stage::Stage;
use mix_bits::NoMemory;
use std::alloc::Global;
use std::marker::Model;

/// How many bytes of data a packet may have.
const PACKET_BYTES: usize = 0x4000;

/// Reads packets from a stream, byte by byte. It takes memory only when it is made.
#[derive(Drop)]
pub struct Decoder {
    stage: Stage,
    total: u8,
    kept: Vec<u8>,
    is_long: bool,
}

impl Model for Decoder {
    ghost Value = { Reading };

    ghost view = { λ d. record {
      stage = d.stage;
      total = d.total;
      kept = d.kept.items;
      is_long = d.is_long;
    } };

    ghost invariant = { λ d. (length d.kept.items ≤ 0x4000) × (0x4000 ≤ vec_capacity d.kept) };
}

impl Decoder {
    /// A decoder between packets, with room for a packet.
    pub fn new(alloc: Global) -> Result<Decoder, NoMemory>
        ensures { IfOk result (λ d. d ≡ fresh) }
    {
        Ok(Decoder {
            stage: Stage::Outside,
            total: 0,
            kept: Vec::with_capacity(alloc, PACKET_BYTES)?,
            is_long: false,
        })
    }

    /// The data of the packet that the last byte completed.
    pub fn packet(&self) -> &[u8]
        ensures { result.now ≡ self.now.kept }
    {
        &self.kept
    }

    /// Takes the next byte of the stream, and says what it completes.
    #[tactic(auto, unfolding(crate::specs::Reading::after, crate::specs::Reading::event_at))]
    pub fn take(&mut self, byte: u8) -> Option<Event>
        ensures after { self.new ≡ after self.old byte }
        ensures event { result ≡ event_at self.old byte }
    {
        match self.stage {
            Stage::Outside => self.begin(byte),
            Stage::Inside => self.go_on(byte),
            Stage::Escaped => self.end_escape(byte),
            Stage::Sealed => {
                self.stage = Stage::Half(byte);
                None
            }
            Stage::Half(high) => Some(self.close(high, byte)),
        }
    }

    fn begin(&mut self, byte: u8) -> Option<Event>
        ensures after { self.new ≡ after_in Outside self.old byte }
        ensures event { result ≡ signal byte }
    {
        match byte {
            b'$' => {
                self.open();
                None
            }
            b'+' => Some(Event::Acknowledged),
            b'-' => Some(Event::Refused),
            3 => Some(Event::Interrupt),
            _ => None,
        }
    }

    fn go_on(&mut self, byte: u8) -> Option<Event>
        ensures after { self.new ≡ framed self.old byte (plain_byte self.old byte) }
        ensures event { result ≡ None }
    {
        match byte {
            b'$' => self.open(),
            b'#' => self.stage = Stage::Sealed,
            _ => self.take_plain(byte),
        }
        None
    }

    fn end_escape(&mut self, byte: u8) -> Option<Event>
        ensures after { self.new ≡ framed self.old byte (escaped_by self.old byte) }
        ensures event { result ≡ None }
    {
        match byte {
            b'$' => self.open(),
            b'#' => self.stage = Stage::Sealed,
            _ => self.take_escaped(byte),
        }
        None
    }

    fn open(&mut self)
        ensures { self.new ≡ opened self.old }
    {
        self.stage = Stage::Inside;
        self.total = 0;
        self.kept.clear();
        self.is_long = false;
    }

    fn take_plain(&mut self, byte: u8)
        ensures { self.new ≡ plain_byte self.old byte }
    {
        self.count(byte);
        if byte == b'}' {
            self.stage = Stage::Escaped;
        } else {
            self.keep(byte);
        }
    }

    fn take_escaped(&mut self, byte: u8)
        ensures { self.new ≡ escaped_by self.old byte }
    {
        self.stage = Stage::Inside;
        self.count(byte);
        self.keep(byte ^ 0x20);
    }

    fn count(&mut self, byte: u8)
        ensures { self.new ≡ counting byte self.old }
    {
        self.total = self.total.wrapping_add(byte);
    }

    fn keep(&mut self, byte: u8)
        ensures { self.new ≡ keeping byte self.old }
    {
        if self.kept.len() < PACKET_BYTES {
            let _fits = self.kept.push(byte);
        } else {
            self.is_long = true;
        }
    }

    fn close(&mut self, high: u8, low: u8) -> Event
        ensures after { self.new ≡ at_stage Outside self.old }
        ensures event { result ≡ verdict self.old high low }
    {
        self.stage = Stage::Outside;
        match hex_byte(high, low) {
            Some(total) if total == self.total => self.outcome(),
            _ => Event::BadSum,
        }
    }

    fn outcome(&self) -> Event
        ensures { result ≡ (if self.now.is_long then Event.TooLong else Event.Packet) }
    {
        if self.is_long {
            Event::TooLong
        } else {
            Event::Packet
        }
    }
}
