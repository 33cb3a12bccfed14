// The chain of frames: its innermost frame is pushed, read and popped.
ghost use Rattle.std.specs.Prelude.{◌≡◌, ◌+◌, ◌-◌, ◌<◌, ◌≤◌, ◌↔◌, ◌∷◌, length, drop, true, false, IsNone, IsSome};
ghost use Rattle.big_memory.specs.Lists.{put};
ghost use Rattle.big_memory.specs.Memory.{IsRam, with_bytes};
ghost use Rattle.proc_info.specs.Signature.{has_signature};
ghost use Rattle.switch_frame.specs.CallsClauses.{IsCalled, IsPlace, innermost, with_frame};
ghost use Rattle.switch_frame.specs.Innermost.{IsInnermost};
ghost use Rattle.switch_frame.specs.Chain.{Chain, IsHeld, Links, cleared, outer_of, records};
ghost use Rattle.switch_frame.specs.laws.Chain.{IsFrameRange};
ghost use Rattle.big_memory.specs.Lists.{zeros};
ghost use Rattle.big_memory.specs.Numbers.{long_at};
ghost use Rattle.switch_frame.specs.RecordsClauses.{held_of, record_of};
ghost use Rattle.switch_frame.specs.Records.{image, isa_of, record_at};
ghost use Rattle.switch_frame.specs.Sets.{caller_isa, frame_size, kind_at, kind_told};

use crate::files::{read_file, write_file};
use crate::layout::{DEPTH, FILE};
use crate::{Held, Kind};
use big_memory::Ram;

/// The largest frame's bytes, when it is live no more.
const ZEROS: [u8; 192] = [0; 192];

/// Suspends a caller in a new innermost frame.
pub fn push(ram: &mut Ram, top: &mut u32, held: &Held)
    requires chain { Chain ram.old top.old (records ram.old.bytes top.old) }
    requires place { IsPlace ram.old (records ram.old.bytes top.old) held.now.kind held.now.lo held.now.hi }
    requires depth { held.now.depth ≡ length (records ram.old.bytes top.old) + 1 }
    requires kind { caller_isa held.now.kind ≡ isa_of held.now.caller }
    requires signature { has_signature held.now.info ≡ true }
    requires called { IsCalled held.now.caller (records ram.old.bytes top.old) }
    ensures chain { Chain ram.new top.new (records ram.new.bytes top.new) }
    ensures records { records ram.new.bytes top.new ≡ record_of held.now ∷ records ram.old.bytes top.old }
    ensures memory { cleared ram.new.bytes (records ram.new.bytes top.new)
        ≡ put held.now.lo (zeros (held.now.hi - held.now.lo)) (cleared ram.old.bytes (records ram.old.bytes top.old)) }
    ensures frame { ram.new ≡ with_frame held.now.lo held.now.hi (image (record_of held.now) top.old held.now.depth) true ram.old }
    ensures len { length ram.new.bytes ≡ length ram.old.bytes }
{
    write_held(ram, held, *top);
    ram.guard(held.lo, held.hi);
    *top = held.lo;
}

/// The caller in the innermost frame, or in the frame that begins at `top`. None is there exactly for 0.
#[inline(always)]
pub fn top(ram: &Ram, top: u32) -> Option<Held>
    requires { Links ram.now top (records ram.now.bytes top) }
    ensures value { result ≡ innermost (records ram.now.bytes top) }
    ensures none { IsNone result ↔ (top ≡ 0) }
{
    if top == 0 {
        None
    } else {
        Some(read_held(ram, top))
    }
}

/// Takes away the innermost frame, and gives the caller that it held.
#[inline(always)]
pub fn pop(ram: &mut Ram, top: &mut u32) -> Held
    requires chain { Chain ram.old top.old (records ram.old.bytes top.old) }
    requires live { 0 < top.old }
    ensures records { records ram.old.bytes top.old ≡ record_of result ∷ records ram.new.bytes top.new }
    ensures depth { result.depth ≡ length (records ram.old.bytes top.old) }
    ensures kind { caller_isa result.kind ≡ isa_of result.caller }
    ensures signature { has_signature result.info ≡ true }
    ensures called { IsCalled result.caller (records ram.new.bytes top.new) }
    ensures chain { Chain ram.new top.new (records ram.new.bytes top.new) }
    ensures memory { cleared ram.new.bytes (records ram.new.bytes top.new) ≡ cleared ram.old.bytes (records ram.old.bytes top.old) }
    ensures frame { ram.new ≡ with_frame result.lo result.hi (zeros (result.hi - result.lo)) false ram.old }
    ensures len { length ram.new.bytes ≡ length ram.old.bytes }
{
    let held = read_held(ram, *top);
    give_up(ram, top, &held);
    held
}

/// Takes away the innermost frame, from which a caller was read. Only the frame's range is taken from
/// `held`: its registers may have gone on since.
#[inline(always)]
pub fn give_up(ram: &mut Ram, top: &mut u32, held: &Held)
    requires chain { Chain ram.old top.old (records ram.old.bytes top.old) }
    requires innermost { IsInnermost held.now.lo held.now.hi (records ram.old.bytes top.old) }
    ensures records { records ram.new.bytes top.new ≡ drop 1 (records ram.old.bytes top.old) }
    ensures chain { Chain ram.new top.new (records ram.new.bytes top.new) }
    ensures memory { cleared ram.new.bytes (records ram.new.bytes top.new) ≡ cleared ram.old.bytes (records ram.old.bytes top.old) }
    ensures frame { ram.new ≡ with_frame held.now.lo held.now.hi (zeros (held.now.hi - held.now.lo)) false ram.old }
    ensures len { length ram.new.bytes ≡ length ram.old.bytes }
{
    let outer = ram.read_long(held.lo);
    clear(ram, held.lo, held.hi);
    *top = outer;
}

/// Where the frame outside the one that begins at `lo` begins, 0 for the outermost.
pub fn outer_lo(ram: &Ram, lo: u32) -> u32
    requires links { Links ram.now lo (records ram.now.bytes lo) }
    requires live { 0 < lo }
    ensures value { result ≡ outer_of (drop 1 (records ram.now.bytes lo)) }
    ensures rest { records ram.now.bytes result ≡ drop 1 (records ram.now.bytes lo) }
    ensures links { Links ram.now result (records ram.now.bytes result) }
{
    ram.read_long(lo)
}

/// How many frames are live.
pub fn depth(ram: &Ram, top: u32) -> u32
    requires { Links ram.now top (records ram.now.bytes top) }
    ensures { result ≡ length (records ram.now.bytes top) }
{
    if top == 0 {
        0
    } else {
        ram.read_long(top + DEPTH)
    }
}

/// Ends the frame of [`lo`, `hi`): zeros stand in it, and it is guarded no more.
fn clear(ram: &mut Ram, lo: u32, hi: u32)
    requires { IsFrameRange ram.old lo hi }
    ensures { ram.new ≡ with_frame lo hi (zeros (hi - lo)) false ram.old }
{
    put_zeros(ram, lo, hi - lo);
    ram.unguard(lo, hi);
}

/// Puts so many zeros at `lo`. The sizes of the two frames are told apart, so that each is known where it is written.
#[inline(always)]
fn put_zeros(ram: &mut Ram, lo: u32, size: u32)
    requires within { lo + size ≤ length ram.old.bytes }
    requires small { size ≤ 192 }
    ensures { ram.new ≡ with_bytes lo (zeros size) ram.old }
{
    match size {
        112 => ram.fix(lo, &ZEROS[..112]),
        192 => ram.fix(lo, &ZEROS),
        _ => ram.fix(lo, &ZEROS[..size as usize]),
    }
}

/// The caller in the frame that begins at `lo`.
#[inline(always)]
fn read_held(ram: &Ram, lo: u32) -> Held
    requires ram { IsRam ram.now }
    requires kind { IsSome (kind_at (long_at (lo + 4) ram.now.bytes)) }
    requires within { lo + frame_size (caller_isa (kind_told (long_at (lo + 4) ram.now.bytes))) ≤ length ram.now.bytes }
    requires head { lo + 32 ≤ length ram.now.bytes }
    ensures { result ≡ held_of (record_at lo ram.now.bytes) (long_at (lo + 28) ram.now.bytes) }
{
    let mut head = [0; 8];
    ram.read_longs(lo, &mut head);
    let [_outer, code, info, selector, target, hi, want_sp, depth] = head;
    let kind = Kind::of_code(code).unwrap();
    Held {
        kind,
        caller: read_file(ram, lo + FILE, kind.caller()),
        info,
        selector,
        target,
        lo,
        hi,
        want_sp,
        depth,
    }
}

/// Writes the image of a caller to its frame, with the lo of the next outer frame.
fn write_held(ram: &mut Ram, held: &Held, outer: u32)
    requires ram { IsRam ram.old }
    requires within { held.now.lo + frame_size (isa_of held.now.caller) ≤ length ram.old.bytes }
    ensures bytes { ram.new ≡ with_bytes held.now.lo (image (record_of held.now) outer held.now.depth) ram.old }
    ensures ram { IsRam ram.new }
    ensures held { IsHeld (record_of held.now) }
{
    let head = [
        outer,
        held.kind.code(),
        held.info,
        held.selector,
        held.target,
        held.hi,
        held.want_sp,
        held.depth,
    ];
    ram.fix_longs(held.lo, &head);
    write_file(ram, held.lo + FILE, &held.caller);
}
