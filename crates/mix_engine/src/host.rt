// Steps of the host: a call of one of its functions, or a mode switch that code asks for.
ghost use Rattle.std.specs.Prelude.{◌≡◌, ◌<◌, ◌^◌};
ghost use Rattle.mix_bits.specs.declared.fault.FaultKind.TheVariants.{NoTrap};
ghost use Rattle.mix_bits.specs.Faults.{fault_at};
ghost use Rattle.mix_bits.specs.declared.isa.Isa.TheVariants.{M68 as set_m68};
ghost use Rattle.switch_frame.specs.Records.{isa_of};
ghost use Rattle.toolbox.specs.Functions.{trap_number};
ghost use Rattle.toolbox.specs.declared.table.TheConstants.{FUNCTIONS};
ghost use Rattle.mixed_machine.specs.laws.Acts.{Acts};
ghost use Rattle.mixed_machine.specs.Host.{hosts, traps_to, universal};
ghost use Rattle.mixed_machine.specs.Machine.{IsWhole};
ghost use Rattle.routine_desc.specs.Layout.{mixed_mode_magic};
ghost use Rattle.switch_frame.specs.Files.{pc_of};
ghost use Rattle.mix_engine.specs.Worlds.{TracesOnly};
ghost use Rattle.mix_engine.specs.Beside.{machine_in};
ghost use Rattle.mix_engine.specs.inner.Called.{IsCalled};
ghost use Rattle.mix_engine.specs.inner.Cores.{IsNumber, leaves_code};
ghost use Rattle.mix_engine.specs.inner.Does.{Does};

use crate::enter::cross;
use crate::laws::body_laws;
use crate::world::World;
use mix_bits::{Fault, FaultKind};
use mixed_machine::{Body, Did};
use mode_switch::{Wanted, wants_68k, wants_ppc};
use routine_desc::MIXED_MODE_MAGIC;
use switch_frame::Active;
use toolbox::{HostOut, call_heap, trap_index, trap_laws};

/// How a call of a host function went.
#[derive(Clone, Copy)]
pub enum Called {
    /// It is a step, done or not.
    Went(Did),
    /// It goes on into other code, by a universal pointer and the procInfo of the call. Nothing has changed.
    Cross { pointer: u32, info: u32 },
}

/// The host goes on: with a word of line A of 68K code, or with a host function of PowerPC code, as the
/// cell's detail tells.
#[inline(never)]
pub fn leave_code<W: World>(
    body: &mut Body,
    active: &mut Active,
    world: &mut W,
    fault: &mut Fault,
) -> Did
    requires whole { IsWhole body.old (isa_of active.old) }
    requires number { IsNumber active.old fault.old.detail }
    ensures does { Acts (λ s. leaves_code active.old s fault.old.detail) result fault.new
        (machine_in body.old active.old (W.seen world.old))
        (machine_in body.new active.new (W.seen world.new)) }
    ensures same { (W.seen world.new).lent ≡ (W.seen world.old).lent }
{
    body_laws();
    let number = fault.detail;
    match active {
        Active::M68(_) => {
            if number == MIXED_MODE_MAGIC {
                cross_from_68k(body, active, world, fault)
            } else {
                trap(number, body, active, world, fault)
            }
        }
        Active::Ppc(_) => call_import(number, body, active, world, fault),
    }
}

/// What 68K code wants at a routine descriptor. This is a call of its own, since traps need none of its room.
#[inline(never)]
fn cross_from_68k<W: World>(
    body: &mut Body,
    active: &mut Active,
    world: &mut W,
    fault: &mut Fault,
) -> Did
    requires whole { IsWhole body.old (isa_of active.old) }
    requires set { isa_of active.old ≡ set_m68 }
    requires word { fault.old.detail ≡ mixed_mode_magic }
    ensures does { Does (λ s. leaves_code active.old s fault.old.detail) result fault.new body.old body.new active.old active.new
        (W.seen world.old).trace (W.seen world.new).trace }
    ensures rest { TracesOnly (W.seen world.old) (W.seen world.new) }
{
    body_laws();
    match active {
        Active::M68(regs) => {
            let mut wanted = Wanted::Jumps(0);
            wants_68k(&body.ram, regs, &mut wanted);
            cross(body, active, &wanted, world, fault)
        }
        Active::Ppc(_) => unreachable!(),
    }
}

/// The trap with this word.
#[inline(always)]
fn trap<W: World>(
    word: u32,
    body: &mut Body,
    active: &mut Active,
    world: &mut W,
    fault: &mut Fault,
) -> Did
    requires whole { IsWhole body.old (isa_of active.old) }
    requires set { isa_of active.old ≡ set_m68 }
    requires word { word < 2 ^ 16 }
    ensures does { Acts (λ s. traps_to s word (trap_number word)) result fault.new
        (machine_in body.old active.old (W.seen world.old))
        (machine_in body.new active.new (W.seen world.new)) }
    ensures same { (W.seen world.new).lent ≡ (W.seen world.old).lent }
{
    body_laws();
    trap_laws();
    match trap_index(word as u16) {
        Some(index) => call_function(index, body, active, world, fault),
        None => no_trap(word, active, fault),
    }
}

/// No trap has this word.
fn no_trap(word: u32, active: &Active, fault: &mut Fault) -> Did
    ensures did { result ≡ Did.Fault }
    ensures cell { fault.new ≡ fault_at (pc_of active.now) NoTrap word }
{
    *fault = Fault::at(active.pc(), FaultKind::NoTrap, word);
    Did::Fault
}

/// Calls a host function for PowerPC code.
#[inline(never)]
fn call_import<W: World>(
    index: u32,
    body: &mut Body,
    active: &mut Active,
    world: &mut W,
    fault: &mut Fault,
) -> Did
    requires whole { IsWhole body.old (isa_of active.old) }
    requires index { index < FUNCTIONS }
    ensures does { Acts (λ s. hosts s index) result fault.new
        (machine_in body.old active.old (W.seen world.old))
        (machine_in body.new active.new (W.seen world.new)) }
    ensures same { (W.seen world.new).lent ≡ (W.seen world.old).lent }
{
    call_function(index, body, active, world, fault)
}

/// Calls a host function: one of the usual functions of the heap at once.
#[inline(always)]
fn call_function<W: World>(
    index: u32,
    body: &mut Body,
    active: &mut Active,
    world: &mut W,
    fault: &mut Fault,
) -> Did
    requires whole { IsWhole body.old (isa_of active.old) }
    requires index { index < FUNCTIONS }
    ensures does { Acts (λ s. hosts s index) result fault.new
        (machine_in body.old active.old (W.seen world.old))
        (machine_in body.new active.new (W.seen world.new)) }
    ensures same { (W.seen world.new).lent ≡ (W.seen world.old).lent }
{
    body_laws();
    if call_heap(index, active, &mut body.heap) {
        Did::Next
    } else {
        call_any(index, body, active, world, fault)
    }
}

/// Calls a host function, and goes on into other code where it asks for that.
#[inline(never)]
fn call_any<W: World>(
    index: u32,
    body: &mut Body,
    active: &mut Active,
    world: &mut W,
    fault: &mut Fault,
) -> Did
    requires whole { IsWhole body.old (isa_of active.old) }
    requires index { index < FUNCTIONS }
    ensures does { Acts (λ s. hosts s index) result fault.new
        (machine_in body.old active.old (W.seen world.old))
        (machine_in body.new active.new (W.seen world.new)) }
    ensures same { (W.seen world.new).lent ≡ (W.seen world.old).lent }
{
    body_laws();
    match call(index, body, active, world, fault) {
        Called::Went(did) => did,
        Called::Cross { pointer, info } => { cross_at(pointer, info, body, active, world, fault) }
    }
}

/// Calls a host function.
#[inline(always)]
fn call<W: World>(
    index: u32,
    body: &mut Body,
    active: &mut Active,
    world: &mut W,
    fault: &mut Fault,
) -> Called
    requires whole { IsWhole body.old (isa_of active.old) }
    requires index { index < FUNCTIONS }
    ensures does { IsCalled index result fault.new
        (machine_in body.old active.old (W.seen world.old))
        (machine_in body.new active.new (W.seen world.new)) }
    ensures same { (W.seen world.new).lent ≡ (W.seen world.old).lent }
{
    body_laws();
    match world.call(index, active, &mut body.ram, &mut body.heap) {
        HostOut::Done => Called::Went(Did::Next),
        HostOut::Asked { slot, word, answer } => match world.tell_ask(slot, word, answer) {
            Ok(()) => Called::Went(Did::Next),
            Err(_) => Called::Went(Did::TraceFault),
        },
        HostOut::Cross { pointer, info } => Called::Cross { pointer, info },
        HostOut::Exit(code) => Called::Went(Did::Exit(code)),
        HostOut::Stop(reason) => {
            *fault = reason;
            Called::Went(Did::Fault)
        }
        HostOut::ReadFault => Called::Went(Did::ReadFault),
        HostOut::OutFault => Called::Went(Did::OutFault),
    }
}

/// Goes on at a universal pointer, with a procInfo.
#[inline(never)]
fn cross_at<W: World>(
    pointer: u32,
    info: u32,
    body: &mut Body,
    active: &mut Active,
    world: &mut W,
    fault: &mut Fault,
) -> Did
    requires whole { IsWhole body.old (isa_of active.old) }
    ensures does { Does (λ s. universal s s.active pointer info) result fault.new body.old body.new active.old active.new
        (W.seen world.old).trace (W.seen world.new).trace }
    ensures rest { TracesOnly (W.seen world.old) (W.seen world.new) }
{
    body_laws();
    match active {
        Active::M68(_) => cross(body, active, &Wanted::Jumps(pointer), world, fault),
        Active::Ppc(regs) => {
            let mut wanted = Wanted::Jumps(0);
            wants_ppc(&body.ram, regs, pointer, info, &mut wanted);
            cross(body, active, &wanted, world, fault)
        }
    }
}
