// A loop of steps that calls itself for each callee, and the ways into it for each instruction set.
ghost use Rattle.std.specs.Prelude.{◌≡◌};
ghost use Rattle.mix_bits.specs.declared.isa.Isa.TheVariants.{M68 as set_m68, Ppc as set_ppc};
ghost use Rattle.switch_frame.specs.declared.active.Active.TheVariants.{M68, Ppc};
ghost use Rattle.switch_frame.specs.Records.{isa_of};
ghost use Rattle.toolbox.specs.CallsClauses.{outside as outside_of};
ghost use Rattle.mixed_machine.specs.Machine.{IsWhole};
ghost use Rattle.mixed_machine.specs.OutsideClauses.{at};
ghost use Rattle.mix_io.specs.StreamsClauses.{output};
ghost use Rattle.mix_engine.specs.Beside.{machine_in};
ghost use Rattle.mix_engine.specs.Turns.{Turned, file_of};
ghost use Rattle.mix_engine.specs.inner.Turns.{turn_of};

use super::{Outside, World, advance};
use crate::turn::{Turn, TurnEnd};
use dev_rack::Devices;
use m68_isa::Regs68;
use mix_bits::{Fault, FaultKind};
use mix_io::{Sink, Source};
use mixed_machine::{Body, Did, Stop};
use ppc_isa::RegsPpc;
use switch_frame::Active;

/// Runs 68K code, and what it calls, until the caller that is innermost at entry goes on or the machine
/// stops. Each step that is done lowers `steps`. Without a suspended caller the machine only stops.
pub fn run_m68<I: Source, O: Sink, T: Sink, D: Devices>(
    body: &mut Body,
    regs: Regs68,
    input: &mut I,
    out: &mut O,
    trace: &mut T,
    rack: &mut D,
    steps: &mut u32,
) -> Turn
    requires { IsWhole body.old set_m68 }
    ensures { Turned steps.old steps.new
        (at body.old (M68 regs) (outside_of (I.left input.old) (I.faults input.old) (D.state rack.old) (O.held out.old) (O.faults out.old)) (output (T.held trace.old) (T.faults trace.old)))
        (at body.new (file_of result) (outside_of (I.left input.new) (I.faults input.new) (D.state rack.new) (O.held out.new) (O.faults out.new)) (output (T.held trace.new) (T.faults trace.new))) result }
{
    run_active(body, Active::M68(regs), input, out, trace, rack, steps)
}

/// Runs PowerPC code in the same way.
pub fn run_ppc<I: Source, O: Sink, T: Sink, D: Devices>(
    body: &mut Body,
    regs: RegsPpc,
    input: &mut I,
    out: &mut O,
    trace: &mut T,
    rack: &mut D,
    steps: &mut u32,
) -> Turn
    requires { IsWhole body.old set_ppc }
    ensures { Turned steps.old steps.new
        (at body.old (Ppc regs) (outside_of (I.left input.old) (I.faults input.old) (D.state rack.old) (O.held out.old) (O.faults out.old)) (output (T.held trace.old) (T.faults trace.old)))
        (at body.new (file_of result) (outside_of (I.left input.new) (I.faults input.new) (D.state rack.new) (O.held out.new) (O.faults out.new)) (output (T.held trace.new) (T.faults trace.new))) result }
{
    run_active(body, Active::Ppc(regs), input, out, trace, rack, steps)
}

/// Runs code of the set that is active.
fn run_active<I: Source, O: Sink, T: Sink, D: Devices>(
    body: &mut Body,
    mut active: Active,
    input: &mut I,
    out: &mut O,
    trace: &mut T,
    rack: &mut D,
    steps: &mut u32,
) -> Turn
    requires { IsWhole body.old (isa_of active) }
    ensures { Turned steps.old steps.new
        (at body.old active (outside_of (I.left input.old) (I.faults input.old) (D.state rack.old) (O.held out.old) (O.faults out.old)) (output (T.held trace.old) (T.faults trace.old)))
        (at body.new (file_of result) (outside_of (I.left input.new) (I.faults input.new) (D.state rack.new) (O.held out.new) (O.faults out.new)) (output (T.held trace.new) (T.faults trace.new))) result }
{
    let mut outside = Outside {
        input,
        out,
        trace,
        rack,
    };
    let end = run_turns(body, &mut active, &mut outside, steps);
    end.turn(active)
}

/// Steps, and at each crossing runs the callee. The registers are those of the set that is active.
pub fn run_turns<W: World>(
    body: &mut Body,
    active: &mut Active,
    world: &mut W,
    steps: &mut u32,
) -> TurnEnd
    requires { IsWhole body.old (isa_of active.old) }
    ensures turned { Turned steps.old steps.new
        (machine_in body.old active.old (W.seen world.old))
        (machine_in body.new active.new (W.seen world.new)) (turn_of active.new result) }
    ensures same { (W.seen world.new).lent ≡ (W.seen world.old).lent }
{
    let mut fault = Fault::at(0, FaultKind::Illegal, 0);
    'steps: while *steps > 0 {
        match advance(body, active, world, &mut fault, steps) {
            Did::Next => *steps -= 1,
            Did::Call => {
                *steps -= 1;
                match run_turns(body, active, world, steps) {
                    TurnEnd::Back => {}
                    TurnEnd::Stop(stop) => return TurnEnd::Stop(stop),
                }
            }
            Did::Return => {
                *steps -= 1;
                return TurnEnd::Back;
            }
            Did::Exit(code) => {
                *steps -= 1;
                return TurnEnd::Stop(Stop::Exit(code));
            }
            Did::Fault => return TurnEnd::Stop(Stop::Fault(fault)),
            Did::ReadFault => return TurnEnd::Stop(Stop::ReadFault),
            Did::OutFault => return TurnEnd::Stop(Stop::OutFault),
            Did::TraceFault => {
                *steps -= 1;
                return TurnEnd::Stop(Stop::TraceFault);
            }
        }
    }
    TurnEnd::Stop(Stop::Limit)
}
