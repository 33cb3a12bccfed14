// Steps of the machine.
ghost use Rattle.std.specs.Prelude.{◌≡◌, ◌<◌, ◌≤◌, ◌-◌};
ghost use Rattle.switch_frame.specs.Records.{isa_of};
ghost use Rattle.mixed_machine.specs.Machine.{IsWhole};
ghost use Rattle.mix_engine.specs.Advances.{Advances};
ghost use Rattle.mix_engine.specs.Beside.{machine_in};

use crate::code::{Code, run_code, run_once};
use crate::host::leave_code;
use crate::laws::body_laws;
use crate::leave::leave;
use crate::world::World;
use mix_bits::Fault;
use mixed_machine::{Body, Did};
use switch_frame::Active;

/// Steps of the active set, with all rules in their order, and what the last of them did; each before it lowers
/// `left`. How many there are is left open: the code goes on to the first that is more than an instruction of
/// the same set, or to the last that `left` allows. The registers are those of the set that is active
/// afterwards. A fault stands in the cell; where there is none, the cell means nothing.
#[inline(always)]
pub fn advance<W: World>(
    body: &mut Body,
    active: &mut Active,
    world: &mut W,
    fault: &mut Fault,
    left: &mut u32,
) -> Did
    requires whole { IsWhole body.old (isa_of active.old) }
    requires some { 0 < left.old }
    ensures does { Advances (left.old - left.new) result fault.new
        (machine_in body.old active.old (W.seen world.old))
        (machine_in body.new active.new (W.seen world.new)) }
    ensures some { 0 < left.new }
    ensures fewer { left.new ≤ left.old }
    ensures same { (W.seen world.new).lent ≡ (W.seen world.old).lent }
{
    body_laws();
    match run_code(body, active, fault, left) {
        Code::Next => Did::Next,
        Code::Stop => Did::Fault,
        Code::Gate => leave(body, active, world, fault),
        Code::Leave => leave_code(body, active, world, fault),
    }
}

/// One step of the active set, in the same way.
#[inline(always)]
pub fn advance_once<W: World>(
    body: &mut Body,
    active: &mut Active,
    world: &mut W,
    fault: &mut Fault,
) -> Did
    requires { IsWhole body.old (isa_of active.old) }
    ensures does { Advances 0 result fault.new
        (machine_in body.old active.old (W.seen world.old))
        (machine_in body.new active.new (W.seen world.new)) }
    ensures same { (W.seen world.new).lent ≡ (W.seen world.old).lent }
{
    body_laws();
    match run_once(body, active, fault) {
        Code::Next => Did::Next,
        Code::Stop => Did::Fault,
        Code::Gate => leave(body, active, world, fault),
        Code::Leave => leave_code(body, active, world, fault),
    }
}
