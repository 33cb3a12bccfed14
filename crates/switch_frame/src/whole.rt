// Whether memory that came from outside holds a whole chain, and the guard of its frames.
ghost use Rattle.std.specs.Prelude.{◌≡◌, ◌+◌, ◌≤◌, ℕ, List, length, false, Ok, IfErr, IfOk, slice_index_or};
ghost use Rattle.big_memory.specs.Memory.{IsRam};
ghost use Rattle.big_memory.specs.Numbers.{long_at};
ghost use Rattle.proc_info.specs.Signature.{has_signature};
ghost use Rattle.switch_frame.specs.Chain.{Chain, Links, records};
ghost use Rattle.switch_frame.specs.ChecksClauses.{IsWholeChain, IsWrongAt};
ghost use Rattle.switch_frame.specs.Checks.{caller_at, checked, ends_right, fits_outer, holds_file, is_below, is_good, is_image, is_there, walk as walk_of};
ghost use Rattle.switch_frame.specs.Records.{Record};
ghost use Rattle.switch_frame.specs.Sets.{frame_size as frame_size_of, kind_at};

use crate::kind::{Kind, frame_size};
use crate::layout::{DEPTH, END, FILE, INFO, KIND};
use crate::rooms::MOST_FRAMES;
use big_memory::Ram;
use mix_bits::{Isa, is_isa, onward};

/// How many frames stand in memory from `top` outward, where they are a whole chain but for the guard,
/// with `active` the set of the code that runs and `main` that of the main program. Else where the first
/// frame from the innermost outward begins that a whole chain cannot have there.
pub fn check(ram: &Ram, top: u32, active: Isa, main: Isa) -> Result<u32, u32>
    ensures exact { result ≡ checked ram.now top active main }
    ensures whole { IfOk result (λ count. IsWholeChain ram.now top active main (records ram.now.bytes top) × (count ≡ length (records ram.now.bytes top))) }
    ensures only { (rs : List Record) → IsWholeChain ram.now top active main rs → result ≡ Ok (length rs) }
    ensures wrong { IfErr result (λ lo. IsWrongAt ram.now top active main lo) }
{
    let _ = ram.bytes();
    if top != 0 {
        walk(ram, top, active, main)
    } else if is_isa(active, main) {
        Ok(0)
    } else {
        Err(0)
    }
}

/// The same where a frame has to begin at `top`.
fn walk(ram: &Ram, top: u32, active: Isa, main: Isa) -> Result<u32, u32>
    requires { IsRam ram.now }
    ensures { result ≡ walk_of ram.now main 256 0 active top }
{
    let mut lo = top;
    let mut callee = active;
    'frames: for count in 0..MOST_FRAMES {
        if !is_good(ram, lo, callee, main) {
            return Err(lo);
        }
        let outer = ram.read_long(lo);
        if outer == 0 {
            return Ok(count + 1);
        }
        callee = caller(ram, lo);
        lo = outer;
    }
    Err(lo)
}

/// Whether a frame at `lo` is one that a chain can have there, with code of the set `callee` inside it.
#[tactic(auto, unfolding(crate::specs::Checks::is_good))]
fn is_good(ram: &Ram, lo: u32, callee: Isa, main: Isa) -> bool
    requires { IsRam ram.now }
    ensures { result ≡ is_good ram.now main callee lo }
{
    is_there(ram, lo) && is_image(ram, lo, callee, main)
}

/// Whether a frame's head, and the smaller of the two frames, can lie at `lo`.
fn is_there(ram: &Ram, lo: u32) -> bool
    requires { IsRam ram.now }
    ensures { result ≡ is_there ram.now lo }
{
    ram.floor() <= lo && lo % 16 == 0 && u64::from(lo) + 112 <= u64::from(ram.len())
}

/// Whether a frame at `lo` has its kind's size, the image of a register file, a signature, the set that it
/// called and a depth, and goes with the frame outside it.
fn is_image(ram: &Ram, lo: u32, callee: Isa, main: Isa) -> bool
    requires ram { IsRam ram.now }
    requires there { lo + 112 ≤ length ram.now.bytes }
    ensures { result ≡ is_image ram.now main callee lo (kind_at (long_at (lo + 4) ram.now.bytes)) }
{
    let Some(kind) = Kind::of_code(ram.read_long(lo + KIND)) else {
        return false;
    };
    ends_right(ram, lo, kind.caller())
        && holds_file(ram, lo + FILE, kind.caller())
        && has_signature(ram.read_long(lo + INFO))
        && is_isa(kind.callee(), callee)
        && ram.read_long(lo + DEPTH) <= MOST_FRAMES
        && fits_outer(ram, lo, kind.caller(), main)
}

/// Whether a frame at `lo` says that it ends where one with a caller of this set does.
fn ends_right(ram: &Ram, lo: u32, caller: Isa) -> bool
    requires ram { IsRam ram.now }
    requires there { lo + 112 ≤ length ram.now.bytes }
    ensures { result ≡ ends_right ram.now lo caller }
{
    let hi = lo + frame_size(caller);
    ram.read_long(lo + END) == hi && hi <= ram.len()
}

/// Whether the longs at `a` are those of a register file, with zeros up to the frame's end.
fn holds_file(ram: &Ram, a: u32, set: Isa) -> bool
    requires ram { IsRam ram.now }
    requires within { a + frame_size_of set ≤ length ram.now.bytes + 32 }
    ensures { result ≡ holds_file set a ram.now.bytes }
{
    match set {
        Isa::M68 => {
            ram.read_long(a + 68) < 32 && ram.read_long(a + 72) == 0 && ram.read_long(a + 76) == 0
        }
        Isa::Ppc => {
            ram.read_long(a + 148) == 0
                && ram.read_long(a + 152) == 0
                && ram.read_long(a + 156) == 0
        }
    }
}

/// Whether a word is a procInfo with a signature.
fn has_signature(info: u32) -> bool
    ensures { result ≡ has_signature info }
{
    proc_info::read(info).is_ok()
}

/// Whether a frame at `lo` goes with the frame outside it, or with the main program where there is none.
fn fits_outer(ram: &Ram, lo: u32, caller: Isa, main: Isa) -> bool
    requires ram { IsRam ram.now }
    requires there { lo + 112 ≤ length ram.now.bytes }
    ensures { result ≡ fits_outer ram.now main caller lo }
{
    let (outer, hi, depth) = (
        ram.read_long(lo),
        ram.read_long(lo + END),
        ram.read_long(lo + DEPTH),
    );
    if outer == 0 {
        depth == 1 && is_isa(caller, main)
    } else {
        is_below(ram, hi, depth, outer)
    }
}

/// Whether a frame that ends at `hi` and counts `depth` frames can have the next outer one at `outer`.
fn is_below(ram: &Ram, hi: u32, depth: u32, outer: u32) -> bool
    requires { IsRam ram.now }
    ensures { result ≡ is_below ram.now hi depth outer }
{
    let count = onward(outer, DEPTH);
    hi <= outer
        && (u64::from(ram.len()) < u64::from(count) + 4
            || u64::from(depth) == u64::from(ram.read_long(count)) + 1)
}

/// The set of the caller in the frame at `lo`.
fn caller(ram: &Ram, lo: u32) -> Isa
    requires ram { IsRam ram.now }
    requires there { lo + 112 ≤ length ram.now.bytes }
    ensures { result ≡ caller_at ram.now lo }
{
    Kind::of_code(ram.read_long(lo + KIND))
        .unwrap_or(Kind::M68ToPpc)
        .caller()
}

/// Guards each frame of a chain in memory in which nothing is guarded.
pub fn guard_frames(ram: &mut Ram, top: u32)
    requires links { Links ram.old top (records ram.old.bytes top) }
    requires clear { (unit : ℕ) → slice_index_or ram.old.marks unit false ≡ false }
    ensures bytes { ram.new.bytes ≡ ram.old.bytes }
    ensures chain { Chain ram.new top (records ram.new.bytes top) }
{
    let mut lo = top;
    'frames: while lo != 0 {
        let hi = ram.read_long(lo + END);
        ram.guard(lo, hi);
        lo = ram.read_long(lo);
    }
}
