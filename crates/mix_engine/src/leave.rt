// Steps at a gate: returns, and the end of the program.
ghost use Rattle.std.specs.Prelude.{◌≡◌, ◌∷◌, [], drop};
ghost use Rattle.mix_io.specs.Streams.{Output};
ghost use Rattle.proc_info.specs.Views.{signature};
ghost use Rattle.switch_frame.specs.Records.{isa_of};
ghost use Rattle.switch_frame.specs.RecordsClauses.{record_of};
ghost use Rattle.mode_switch.specs.Returned.{given_back};
ghost use Rattle.mixed_machine.specs.Leave.{at_gate, is_exit as is_exit_of, is_return as is_return_of, leaves, leaves_with};
ghost use Rattle.mixed_machine.specs.Machine.{IsWhole, callers_of};
ghost use Rattle.mixed_machine.specs.State.{seen};
ghost use Rattle.mix_engine.specs.Worlds.{TracesOnly};
ghost use Rattle.mix_engine.specs.inner.Does.{Does};

use crate::call_laws::call_laws;
use crate::frames::resume;
use crate::laws::body_laws;
use crate::refuse::{refuse, unmatched};
use crate::world::World;
use big_memory::{exit_gate, return_gate};
use mix_bits::Fault;
use mixed_machine::{Body, Did};
use mode_switch::give_back;
use proc_info::{Sig, read_signed};
use switch_frame::{Active, Held, top};

/// A step at a gate.
#[inline(never)]
pub fn leave<W: World>(
    body: &mut Body,
    active: &mut Active,
    world: &mut W,
    fault: &mut Fault,
) -> Did
    requires { IsWhole body.old (isa_of active.old) }
    ensures does { Does at_gate result fault.new body.old body.new active.old active.new
        (W.seen world.old).trace (W.seen world.new).trace }
    ensures rest { TracesOnly (W.seen world.old) (W.seen world.new) }
{
    match top(&body.ram, body.top) {
        Some(mut held) => leave_callee(body, active, &mut held, world, fault),
        None => leave_program(body, active, fault),
    }
}

/// The main program ends at its exit gate.
fn leave_program(body: &Body, active: &Active, fault: &mut Fault) -> Did
    requires whole { IsWhole body.now (isa_of active.now) }
    requires none { callers_of body.now ≡ [] }
    ensures { (a : Output) → Does at_gate result fault.new body.now body.now active.now active.now a a }
{
    call_laws();
    if is_exit(body, active) {
        Did::Exit(0)
    } else {
        unmatched(active, body.start_sp, fault)
    }
}

/// A callee returns at its return gate to the innermost caller.
fn leave_callee<W: World>(
    body: &mut Body,
    active: &mut Active,
    held: &mut Held,
    world: &mut W,
    fault: &mut Fault,
) -> Did
    requires whole { IsWhole body.old (isa_of active.old) }
    requires first { callers_of body.old ≡ record_of held.old ∷ drop 1 (callers_of body.old) }
    ensures does { Does at_gate result fault.new body.old body.new active.old active.new
        (W.seen world.old).trace (W.seen world.new).trace }
    ensures rest { TracesOnly (W.seen world.old) (W.seen world.new) }
{
    call_laws();
    if is_return(active, held) {
        return_to(body, active, held, world, fault)
    } else {
        unmatched(active, held.want_sp, fault)
    }
}

/// Whether a callee is at its return gate, with the stack pointer that is expected of it.
fn is_return(active: &Active, held: &Held) -> bool
    ensures { result ≡ is_return_of active.now (record_of held.now) }
{
    let set = active.isa();
    active.pc() == return_gate(set) && held.kind.callee() == set && active.sp() == held.want_sp
}

/// Whether the main program is at its exit gate, with the stack pointer that is expected of it.
fn is_exit(body: &Body, active: &Active) -> bool
    ensures { result ≡ is_exit_of body.now.main body.now.start_sp active.now }
{
    let set = active.isa();
    active.pc() == exit_gate(set) && body.main == set && active.sp() == body.start_sp
}

/// The innermost caller goes on behind its call.
fn return_to<W: World>(
    body: &mut Body,
    active: &mut Active,
    held: &mut Held,
    world: &mut W,
    fault: &mut Fault,
) -> Did
    requires whole { IsWhole body.old (isa_of active.old) }
    requires first { callers_of body.old ≡ record_of held.old ∷ drop 1 (callers_of body.old) }
    ensures does { Does (λ s. leaves s (record_of held.old) (drop 1 (callers_of body.old))) result fault.new body.old body.new active.old active.new
        (W.seen world.old).trace (W.seen world.new).trace }
    ensures rest { TracesOnly (W.seen world.old) (W.seen world.new) }
{
    call_laws();
    let sig = read_signed(held.info);
    return_by(body, active, held, &sig, world, fault)
}

/// The same by the signature of the call. The result is stored while the frame is live.
fn return_by<W: World>(
    body: &mut Body,
    active: &mut Active,
    held: &mut Held,
    sig: &Sig,
    world: &mut W,
    fault: &mut Fault,
) -> Did
    requires whole { IsWhole body.old (isa_of active.old) }
    requires first { callers_of body.old ≡ record_of held.old ∷ drop 1 (callers_of body.old) }
    ensures does { Does (λ s. leaves_with s (drop 1 (callers_of body.old)) (signature sig.now) (given_back (seen s) (signature sig.now) s.active held.old.caller)) result fault.new body.old body.new active.old active.new
        (W.seen world.old).trace (W.seen world.new).trace }
    ensures rest { TracesOnly (W.seen world.old) (W.seen world.new) }
{
    body_laws();
    call_laws();
    match give_back(&mut body.ram, sig, active, &mut held.caller) {
        Ok(value) => {
            resume(body, held);
            *active = held.caller;
            match world.tell_return(sig, value) {
                Ok(()) => Did::Return,
                Err(_) => Did::TraceFault,
            }
        }
        Err(access) => refuse(active, access, fault),
    }
}
