// Instructions over the memory of a machine.
ghost use Rattle.std.specs.Prelude.{◌≡◌, ◌<◌, ◌^◌};
ghost use Rattle.mix_bits.specs.declared.isa.Isa.TheVariants.{M68, Ppc};
ghost use Rattle.big_memory.specs.Map.{host_functions};
ghost use Rattle.m68_effects.specs.Step.{stepped as stepped_68k};
ghost use Rattle.ppc_integer.specs.Effects.{stepped as stepped_ppc};
ghost use Rattle.m68_core.specs.Fetch.{places_of as places_68k};
ghost use Rattle.ppc_core.specs.Fetch.{places_of};
ghost use Rattle.mixed_machine.specs.Machine.{IsWhole};
ghost use Rattle.mixed_machine.specs.inner.Machine.{seen_of};
ghost use Rattle.mix_engine.specs.inner.Cores.{CoreSteps};

use crate::laws::body_laws;
use big_memory::Did;
use m68_isa::Regs68;
use mix_bits::Fault;
use mixed_machine::Body;
use ppc_integer::effect_laws;
use ppc_isa::RegsPpc;

/// An instruction of 68K code.
#[inline(always)]
pub fn core_68k(body: &mut Body, regs: &mut Regs68, fault: &mut Fault, places: u32) -> Did
    requires whole { IsWhole body.old M68 }
    requires places { places ≡ places_68k body.old.ram }
    ensures does { CoreSteps (stepped_68k regs.old (seen_of body.old)) result fault.new regs.old regs.new body.old body.new M68 }
    ensures line { result ≡ Did.Leave → fault.new.detail < 2 ^ 16 }
    ensures places { places_68k body.new.ram ≡ places_68k body.old.ram }
{
    body_laws();
    m68_core::run(regs, &mut body.ram, fault, places)
}

/// An instruction of PowerPC code; at a gate it stops.
#[inline(always)]
pub fn core_ppc(body: &mut Body, regs: &mut RegsPpc, fault: &mut Fault, places: u32) -> Did
    requires whole { IsWhole body.old Ppc }
    requires places { places ≡ places_of body.old.ram }
    ensures does { CoreSteps (stepped_ppc regs.old (seen_of body.old)) result fault.new regs.old regs.new body.old body.new Ppc }
    ensures number { result ≡ Did.Leave → fault.new.detail < host_functions }
    ensures places { places_of body.new.ram ≡ places_of body.old.ram }
{
    body_laws();
    effect_laws();
    ppc_core::run(regs, &mut body.ram, fault, places)
}
