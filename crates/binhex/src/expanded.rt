// The bytes for which packed ones stand, none of which is kept.
ghost use Rattle.std.specs.Prelude.{◌≡◌, ◌+◌, ◌^◌, ◌<◌, ◌≤◌, drop, length, slice_index, slice_range, take};
ghost use Rattle.crc16.specs.Checksum.{checksum_of};
ghost use Rattle.mix_bits.specs.Fields.{long_at as long_in, word_at as word_in};
ghost use Rattle.mix_io.specs.Told.{Puts};
ghost use Rattle.binhex.specs.OutcomeClauses.{Says};
ghost use Rattle.binhex.specs.Runs.{expanded};

use crate::error::BinHexError;
use crate::rest::Rest;
use crate::runs::measure;
use crc16::with_byte;
use mix_bits::{long_at, word_at};
use mix_io::{Failed, write_whole};
use std::io::Write;
use std::marker::Model;

/// How many bytes are written at a time.
const PIECE: u32 = 4096;

/// The bytes for which packed ones stand. Contracts see it as these bytes.
#[derive(Drop)]
pub struct Expanded {
    packed: Vec<u8>,
    length: u32,
}

impl Model for Expanded {
    ghost use Rattle.std.specs.Prelude.{List, ℕ};
    ghost use Rattle.binhex.specs.inner.Measured.{Counts};
    ghost use Rattle.binhex.specs.inner.Spread.{whole};

    ghost Value = { List ℕ };

    ghost view = { λ bytes. whole bytes.packed.items };

    ghost invariant = { λ bytes. Counts bytes.packed.items bytes.length };
}

/// Where a part lies, but for its check sum.
#[derive(Clone, Copy)]
pub struct Place {
    pub start: u64,
    pub length: u32,
}

impl Expanded {
    /// Reads packed bytes once, and keeps them alone.
    pub fn new(packed: Vec<u8>) -> Result<Expanded, BinHexError>
        ensures { Says (λ bytes. bytes) result (expanded packed.items) }
    {
        let length = measure(&packed)?;
        Ok(Expanded { packed, length })
    }

    pub fn len(&self) -> u32
        ensures is { result ≡ length self.now }
        ensures few { result ≤ 2 ^ 25 }
    {
        self.length
    }

    /// The first byte.
    pub fn first(&self) -> u8
        requires { 1 ≤ length self.now }
        ensures { result ≡ slice_index self.now 0 }
    {
        Rest::new(&self.packed).next()
    }

    /// The number in two bytes.
    pub fn word_at(&self, place: u32) -> u16
        requires { place + 2 ≤ length self.now }
        ensures { result ≡ word_in self.now place }
    {
        let mut word = [0; 2];
        self.rest_at(u64::from(place)).fill(&mut word);
        word_at(&word, 0)
    }

    /// The number in four bytes.
    pub fn long_at(&self, place: u32) -> u32
        requires { place + 4 ≤ length self.now }
        ensures { result ≡ long_in self.now place }
    {
        let mut long = [0; 4];
        self.rest_at(u64::from(place)).fill(&mut long);
        long_at(&long, 0)
    }

    /// The check sum of a part.
    pub fn checksum(&self, place: Place) -> u16
        requires { place.start + place.length ≤ length self.now }
        ensures { result ≡ checksum_of (slice_range self.now place.start (place.start + place.length)) }
    {
        let mut rest = self.rest_at(place.start);
        let mut sum = 0;
        for _ in 0..place.length {
            sum = with_byte(sum, rest.next());
        }
        with_byte(with_byte(sum, 0), 0)
    }

    /// Puts a part.
    pub fn put<W: Write>(&self, place: Place, out: &mut W) -> Result<(), Failed>
        requires { place.start + place.length ≤ length self.now }
        ensures { Puts (W.contents out.old) (W.contents out.new) (slice_range self.now place.start (place.start + place.length)) result }
    {
        let mut rest = self.rest_at(place.start);
        let mut done = 0;
        while done < place.length {
            let count = PIECE.min(place.length - done);
            put_next(&mut rest, count, out)?;
            done += count;
        }
        Ok(())
    }

    /// What is left from a place on.
    fn rest_at(&self, place: u64) -> Rest<'_>
        requires { place ≤ length self.now }
        ensures { result ≡ drop place self.now }
    {
        let mut rest = Rest::new(&self.packed);
        rest.skip(place);
        rest
    }
}

/// Puts the next bytes, so many.
fn put_next<W: Write>(rest: &mut Rest, count: u32, out: &mut W) -> Result<(), Failed>
    requires few { count ≤ 4096 }
    requires there { count ≤ length rest.old }
    ensures put { Puts (W.contents out.old) (W.contents out.new) (take count rest.old) result }
    ensures rest { rest.new ≡ drop count rest.old }
{
    let mut room = [0; PIECE as usize];
    let piece = &mut room[..count as usize];
    rest.fill(piece);
    let mut faults = 0;
    write_whole(out, &mut faults, piece)
}
