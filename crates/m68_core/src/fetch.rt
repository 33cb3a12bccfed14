// The words of the instruction at pc.
ghost use Rattle.std.specs.Prelude.{◌≡◌, ◌+◌, ◌%◌, ◌^◌, ◌<◌, ◌≤◌, length, true};
ghost use Rattle.std.specs.Bool.{OnTrue};
ghost use Rattle.big_memory.specs.Map.{gate_page_end};
ghost use Rattle.m68_ea.specs.Words.{words_at};
ghost use Rattle.m68_core.specs.laws.Edge.{IsFirst, IsThere};
ghost use Rattle.m68_core.specs.FetchClauses.{IsPlain};
ghost use Rattle.m68_core.specs.Fetch.{places_of};

use big_memory::{GATE_PAGE_END, Ram};
use byteorder::{BigEndian, ByteOrder};
use m68_ea::word_laws;

/// At how many even addresses, from the end of the gate page on, five words lie in memory, which is as many as an
/// instruction can have.
#[inline(always)]
pub fn places(ram: &Ram) -> u32
    ensures { result ≡ places_of ram.now }
{
    ram.meets_invariant();
    (ram.len() - (GATE_PAGE_END + 8)) / 2
}

/// Whether an instruction plainly can be fetched: its address is even, from the end of the gate page on, and five
/// words lie in memory there. With the low bit on top, all this is one comparison.
#[inline(always)]
pub fn is_plain(pc: u32, ram: &Ram, places: u32) -> bool
    requires { places ≡ places_of ram.now }
    ensures even { OnTrue result (pc % 2 ≡ 0) }
    ensures outside { OnTrue result (gate_page_end ≤ pc) }
    ensures within { OnTrue result (pc + 10 ≤ length ram.now.bytes) }
    ensures only { IsPlain pc ram.now → result ≡ true }
{
    ram.meets_invariant();
    (pc / 2 + pc % 2 * 0x8000_0000).wrapping_sub(GATE_PAGE_END / 2) < places
}

/// The first word of an instruction that plainly can be fetched.
#[inline(always)]
pub fn plain_word(pc: u32, ram: &Ram) -> u32
    requires { pc + 10 ≤ length ram.now.bytes }
    ensures first { IsFirst result (words_at ram.now pc) }
    ensures there { IsThere (words_at ram.now pc) }
    ensures below { result < 2 ^ 16 }
{
    word_laws();
    ram.meets_invariant();
    u32::from(BigEndian::read_u16(&ram.bytes()[pc as usize..]))
}
