// Suspended callers in the memory of a machine: no other module makes a frame or gives one up.
ghost use Rattle.std.specs.Prelude.{◌≡◌, ◌+◌, ◌-◌, ◌≤◌, length, is_some, true};
ghost use Rattle.big_memory.specs.Memory.{floor_of};
ghost use Rattle.proc_info.specs.Codes.{is_dispatched};
ghost use Rattle.proc_info.specs.Signature.{has_signature};
ghost use Rattle.switch_frame.specs.Innermost.{IsInnermost};
ghost use Rattle.switch_frame.specs.CallsClauses.{IsPlace};
ghost use Rattle.switch_frame.specs.Calls.{active_set};
ghost use Rattle.switch_frame.specs.Records.{Record, isa_of};
ghost use Rattle.switch_frame.specs.Sets.{callee_isa, caller_isa};
ghost use Rattle.mode_switch.specs.Callee.{below as below_of, fresh, stack_of};
ghost use Rattle.mode_switch.specs.Views.{args_of, crossing};
ghost use Rattle.mode_switch.specs.Wanted.{passed_selector};
ghost use Rattle.mixed_machine.specs.Machine.{IsWhole, callers_of};
ghost use Rattle.mix_engine.specs.inner.Frames.{IsReady, IsResumed, IsSuspended};

use crate::call_laws::call_laws;
use crate::laws::body_laws;
use mixed_machine::Body;
use mode_switch::{Call, Passed, deliver};
use switch_frame::{Active, Held, give_up, push};

/// Gives a callee its stack of so many bytes, which ends where the frame of its caller begins, and its
/// registers.
pub fn prepare(
    body: &mut Body,
    call: &Call,
    range: (u32, u32),
    below: u32,
    passed: &Passed,
    active: &mut Active,
)
    requires whole { IsWhole body.old (caller_isa call.now.kind) }
    requires place { IsPlace body.old.ram (callers_of body.old) call.now.kind range.0 range.1 }
    requires below { below ≡ below_of (callee_isa call.now.kind) (crossing call.now).sig (is_some (passed_selector (crossing call.now))) }
    requires floor { floor_of body.old.ram + below ≤ range.0 }
    requires count { passed.now.args.count ≡ call.now.sig.count }
    requires values { length (args_of passed.now) ≡ length (crossing call.now).sig.params }
    requires selector { is_some call.now.selector ≡ is_dispatched call.now.sig.conv }
    ensures file { active.new ≡ fresh (callee_isa call.now.kind) (crossing call.now).sig (passed_selector (crossing call.now)) (args_of passed.now) (range.0 - below) passed.now.entry }
    ensures set { isa_of active.new ≡ callee_isa call.now.kind }
    ensures ready { IsReady body.old body.new (caller_isa call.now.kind) call.now.kind range.0 range.1 (range.0 - below)
        (stack_of (callee_isa call.now.kind) (crossing call.now).sig (passed_selector (crossing call.now)) (args_of passed.now)) }
{
    body_laws();
    call_laws();
    deliver(
        &mut body.ram,
        call,
        &passed.args,
        range.0,
        &passed.entry,
        active,
    );
}

/// Suspends a caller in a new innermost frame.
pub fn suspend(body: &mut Body, held: &Held)
    requires whole { IsWhole body.old (isa_of held.now.caller) }
    requires place { IsPlace body.old.ram (callers_of body.old) held.now.kind held.now.lo held.now.hi }
    requires depth { held.now.depth ≡ length (callers_of body.old) + 1 }
    requires kind { caller_isa held.now.kind ≡ isa_of held.now.caller }
    requires signature { has_signature held.now.info ≡ true }
    ensures { IsSuspended body.old body.new held.now }
{
    body_laws();
    call_laws();
    push(&mut body.ram, &mut body.top, held);
}

/// Gives up the innermost frame, from which `held` was read. Its caller goes on.
pub fn resume(body: &mut Body, held: &Held)
    requires whole { IsWhole body.old (active_set body.old.main (callers_of body.old)) }
    requires innermost { IsInnermost held.now.lo held.now.hi (callers_of body.old) }
    ensures { (r : Record) × IsResumed body.old body.new r }
{
    call_laws();
    give_up(&mut body.ram, &mut body.top, held);
}
