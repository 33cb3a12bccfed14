ghost use Rattle.std.specs.Prelude.{◌≡◌, false};
ghost use Rattle.big_memory.specs.Map.{is_gate};
ghost use Rattle.big_memory.specs.StepsClauses.{Does};
ghost use Rattle.ppc_integer.specs.Effects.{stepped};
ghost use Rattle.ppc_core.specs.Fetch.{places_of};
ghost use Rattle.ppc_core.specs.Steps.{Steps};

use super::fetch::{fetch, is_plain, places, plain_word};
use super::run_word::run_word;
use big_memory::{Did, Ram};
use mix_bits::{Fault, FaultKind};
use ppc_isa::RegsPpc;

/// What a step of PowerPC code did.
#[derive(Clone, Copy, Debug, PartialEq, Eq)]
pub enum OutPpc {
    /// The step is done.
    Next,
    /// At the code address of the host function with this number. Nothing has changed.
    Host(u32),
    /// The step can't be done. Nothing has changed.
    Stop(Fault),
}

/// Does the step at pc, which is no gate. On Stop and Host neither registers nor memory have changed.
pub fn step_ppc(regs: &mut RegsPpc, ram: &mut Ram) -> OutPpc
    requires { is_gate regs.old.pc ≡ false }
    ensures { Steps (stepped regs.old ram.old) result regs.old regs.new ram.old ram.new }
{
    let mut fault = Fault::at(0, FaultKind::BadInstr, 0);
    let places = places(ram);
    match run(regs, ram, &mut fault, places) {
        Did::Next => OutPpc::Next,
        Did::Leave => OutPpc::Host(fault.detail),
        Did::Stop => OutPpc::Stop(fault),
    }
}

/// The same with the answer beside a cell, also at a gate, where it stops: on Stop the cell is the fault, and on
/// Leave its detail is the number of the host function. For loops over many steps, which take the places of
/// memory once.
#[inline(always)]
pub fn run(regs: &mut RegsPpc, ram: &mut Ram, fault: &mut Fault, places: u32) -> Did
    requires { places ≡ places_of ram.old }
    ensures does { Does (stepped regs.old ram.old) result fault.new regs.old regs.new ram.old ram.new }
    ensures places { places_of ram.new ≡ places_of ram.old }
{
    let word = if is_plain(regs.pc, ram, places) {
        plain_word(regs, ram)
    } else {
        match fetch(regs.pc, ram, fault) {
            Did::Next => fault.detail,
            did => return did,
        }
    };
    run_word(regs, ram, fault, word)
}
