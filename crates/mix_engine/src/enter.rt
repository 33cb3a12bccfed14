// A call of PowerPC or CFM-68K code from 68K code, or a call from PowerPC code by CallUniversalProc.
ghost use Rattle.std.specs.Prelude.{◌≡◌, ◌+◌, ◌≤◌, length, is_some, unwrap_or, Ok};
ghost use Rattle.mix_bits.specs.declared.fault.Fault.{Fault as AFault};
ghost use Rattle.big_memory.specs.Memory.{floor_of};
ghost use Rattle.switch_frame.specs.declared.active.Active.{Active as AnActive};
ghost use Rattle.switch_frame.specs.CallsClauses.{IsPlace};
ghost use Rattle.switch_frame.specs.Records.{isa_of};
ghost use Rattle.switch_frame.specs.RecordsClauses.{record_of};
ghost use Rattle.switch_frame.specs.Sets.{callee_isa};
ghost use Rattle.mode_switch.specs.Callee.{below as below_of};
ghost use Rattle.mode_switch.specs.Views.{args_of, crossing, passage, wanted_of};
ghost use Rattle.mode_switch.specs.declared.passed.Passed.{Passed as APassed};
ghost use Rattle.mode_switch.specs.laws.Wanted.{IsMeant, Means};
ghost use Rattle.mode_switch.specs.Wanted.{passed_selector as passed_selector_of};
ghost use Rattle.mixed_machine.specs.Enter.{crosses as crosses_of, enters, enters_with, suspended};
ghost use Rattle.mixed_machine.specs.Machine.{IsWhole, callers_of};
ghost use Rattle.mix_engine.specs.Worlds.{TracesOnly};
ghost use Rattle.mix_engine.specs.inner.Does.{Does};
ghost use Rattle.mix_engine.specs.inner.Frames.{IsEntered};

use crate::call_laws::call_laws;
use crate::frames::{prepare, suspend};
use crate::laws::body_laws;
use crate::refuse::{refuse, refuse_full};
use crate::world::World;
use mix_bits::Fault;
use mixed_machine::{Body, Did};
use mode_switch::{Call, Passed, Wanted, below, pass, wanted_sp};
use switch_frame::{Active, Held, depth, room};

/// Does what code wants when it switches modes.
#[inline(never)]
pub fn cross<W: World>(
    body: &mut Body,
    active: &mut Active,
    wanted: &Wanted,
    world: &mut W,
    fault: &mut Fault,
) -> Did
    requires whole { IsWhole body.old (isa_of active.old) }
    requires meant { Means (isa_of active.old) (wanted_of wanted.now) }
    ensures does { Does (λ s. crosses_of s (wanted_of wanted.now)) result fault.new body.old body.new active.old active.new
        (W.seen world.old).trace (W.seen world.new).trace }
    ensures rest { TracesOnly (W.seen world.old) (W.seen world.new) }
{
    call_laws();
    match wanted {
        Wanted::Calls(call) => enter(body, active, call, world, fault),
        Wanted::Jumps(target) => {
            active.go_to(*target);
            Did::Next
        }
        Wanted::Refuses(reason) => {
            *fault = *reason;
            Did::Fault
        }
    }
}

/// Suspends the caller in a frame, if there is room for one, and starts the callee.
fn enter<W: World>(
    body: &mut Body,
    active: &mut Active,
    call: &Call,
    world: &mut W,
    fault: &mut Fault,
) -> Did
    requires whole { IsWhole body.old (isa_of active.old) }
    requires meant { IsMeant (isa_of active.old) (crossing call.now) }
    ensures does { Does (λ s. enters s (crossing call.now)) result fault.new body.old body.new active.old active.new
        (W.seen world.old).trace (W.seen world.new).trace }
    ensures rest { TracesOnly (W.seen world.old) (W.seen world.new) }
{
    body_laws();
    call_laws();
    let below = below(call.kind.callee(), &call.sig, passes_selector(call));
    match room(&body.ram, body.top, active.sp(), call.kind, below) {
        Ok(range) => match pass(&body.ram, body.a5, active, call) {
            Ok(passed) => enter_with(body, active, call, range, below, &passed, world),
            Err(access) => refuse(active, access, fault),
        },
        Err(full) => refuse_full(body, active, full, fault),
    }
}

/// Suspends the caller, which has its pc behind the call, in a frame of this range, and starts the callee,
/// whose stack has so many bytes.
fn enter_with<W: World>(
    body: &mut Body,
    active: &mut Active,
    call: &Call,
    range: (u32, u32),
    below: u32,
    passed: &Passed,
    world: &mut W,
) -> Did
    requires whole { IsWhole body.old (isa_of active.old) }
    requires meant { IsMeant (isa_of active.old) (crossing call.now) }
    requires place { IsPlace body.old.ram (callers_of body.old) call.now.kind range.0 range.1 }
    requires below { below ≡ below_of (callee_isa call.now.kind) (crossing call.now).sig (is_some (passed_selector_of (crossing call.now))) }
    requires floor { floor_of body.old.ram + below ≤ range.0 }
    requires count { passed.now.args.count ≡ call.now.sig.count }
    ensures does { (cell : AFault) (before : AnActive) → Does (λ s. enters_with s (crossing call.now) range (Ok (passage active.old passed.now))) result cell body.old body.new before active.new
        (W.seen world.old).trace (W.seen world.new).trace }
    ensures rest { TracesOnly (W.seen world.old) (W.seen world.new) }
{
    call_laws();
    let values = values(passed);
    let _params = call.sig.params();
    let held = hold(body, active, call, range, below);
    start(body, active, call, range, below, passed, &held);
    match world.tell_call(&held, &call.sig, values) {
        Ok(()) => Did::Call,
        Err(_) => Did::TraceFault,
    }
}

/// Whether the callee gets a selector.
fn passes_selector(call: &Call) -> bool
    ensures { result ≡ is_some (passed_selector_of (crossing call.now)) }
{
    call.passes && call.selector.is_some()
}

/// The arguments.
fn values(passed: &Passed) -> &[u32]
    requires { passed.now.args.count ≤ 13 }
    ensures list { result.now ≡ args_of passed.now }
    ensures count { length result.now ≡ passed.now.args.count }
{
    &passed.args.value[..passed.args.count as usize]
}

/// The selector that a frame keeps, 0 without one.
fn kept_selector(call: &Call) -> u32
    ensures { result ≡ unwrap_or call.now.selector 0 }
{
    match call.selector {
        Some(selector) => selector,
        None => 0,
    }
}

/// The caller as it is suspended in a frame of this range, with its pc behind the call; the callee's stack
/// has so many bytes.
#[inline(always)]
fn hold(body: &Body, active: &Active, call: &Call, range: (u32, u32), below: u32) -> Held
    requires whole { IsWhole body.now (isa_of active.now) }
    requires place { IsPlace body.now.ram (callers_of body.now) call.now.kind range.0 range.1 }
    requires below { below ≡ below_of (callee_isa call.now.kind) (crossing call.now).sig (is_some (passed_selector_of (crossing call.now))) }
    requires floor { floor_of body.now.ram + below ≤ range.0 }
    ensures held { (passed : APassed) → record_of result ≡ suspended (crossing call.now) range (passage active.now passed) }
    ensures depth { result.depth ≡ length (callers_of body.now) + 1 }
{
    Held {
        kind: call.kind,
        caller: *active,
        info: call.info,
        selector: kept_selector(call),
        target: call.target.address(),
        lo: range.0,
        hi: range.1,
        want_sp: wanted_sp(call, range.0 - below),
        depth: depth(&body.ram, body.top) + 1,
    }
}

/// Makes the frame and the callee's stack below it, and the callee's registers.
#[inline(always)]
fn start(
    body: &mut Body,
    active: &mut Active,
    call: &Call,
    range: (u32, u32),
    below: u32,
    passed: &Passed,
    held: &Held,
)
    requires whole { IsWhole body.old (isa_of active.old) }
    requires meant { IsMeant (isa_of active.old) (crossing call.now) }
    requires place { IsPlace body.old.ram (callers_of body.old) call.now.kind range.0 range.1 }
    requires below { below ≡ below_of (callee_isa call.now.kind) (crossing call.now).sig (is_some (passed_selector_of (crossing call.now))) }
    requires floor { floor_of body.old.ram + below ≤ range.0 }
    requires count { passed.now.args.count ≡ call.now.sig.count }
    requires values { length (args_of passed.now) ≡ length (crossing call.now).sig.params }
    requires held { record_of held.now ≡ suspended (crossing call.now) range (passage active.old passed.now) }
    requires depth { held.now.depth ≡ length (callers_of body.old) + 1 }
    ensures { IsEntered body.old body.new active.new (crossing call.now) range (passage active.old passed.now) }
{
    body_laws();
    call_laws();
    prepare(body, call, range, below, passed, active);
    suspend(body, held);
}
