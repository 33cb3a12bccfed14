// Whether there is room for a frame.
ghost use Rattle.std.specs.Prelude.{◌≡◌, ◌≤◌, IfOk};
ghost use Rattle.switch_frame.specs.CallsClauses.{IsPlace};
ghost use Rattle.switch_frame.specs.Calls.{room_of};
ghost use Rattle.switch_frame.specs.Chain.{Chain, records};

use crate::frames::depth;
use crate::kind::frame_size;
use crate::{Full, Kind};
use big_memory::Ram;

/// At most so many frames are live.
pub const MOST_FRAMES: u32 = 256;

/// Where the frame of a caller with the stack pointer `sp` begins and ends, for a callee whose stack
/// pointer is `below` bytes below the frame.
pub fn room(ram: &Ram, top: u32, sp: u32, kind: Kind, below: u32) -> Result<(u32, u32), Full>
    requires chain { Chain ram.now top (records ram.now.bytes top) }
    requires small { below ≤ 128 }
    ensures exact { result ≡ room_of ram.now (records ram.now.bytes top) sp kind below }
    ensures place { IfOk result (λ range. IsPlace ram.now (records ram.now.bytes top) kind range.0 range.1) }
{
    let (len, floor) = (ram.len(), ram.floor());
    if depth(ram, top) == MOST_FRAMES {
        return Err(Full::Frames);
    }
    if sp < floor || len < sp {
        return Err(Full::Outside(sp));
    }
    if top != 0 && top < sp {
        return Err(Full::Crossed(top));
    }
    let hi = sp - sp % 16;
    let lo = hi - frame_size(kind.caller());
    if lo - below < floor {
        return Err(Full::Stack(lo - below));
    }
    Ok((lo, hi))
}
