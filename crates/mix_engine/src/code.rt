// What code of the active set does by itself.
ghost use Rattle.std.specs.Prelude.{◌≡◌, ◌<◌, ◌≤◌, ◌-◌, true};
ghost use Rattle.mix_bits.specs.Faults.{fault_at};
ghost use Rattle.big_memory.specs.Map.{in_gate_page as in_gate_page_of, is_gate as is_gate_of};
ghost use Rattle.mix_bits.specs.declared.isa.Isa.TheVariants.{M68 as set_m68, Ppc as set_ppc};
ghost use Rattle.switch_frame.specs.declared.active.Active.TheVariants.{M68, Ppc};
ghost use Rattle.switch_frame.specs.Records.{isa_of};
ghost use Rattle.mixed_machine.specs.Machine.{IsWhole};
ghost use Rattle.m68_core.specs.Fetch.{places_of as places_68k};
ghost use Rattle.ppc_core.specs.Fetch.{places_of};
ghost use Rattle.mix_engine.specs.inner.Cores.{Codes, CodesAfter, stopped_at};

use crate::cores::{core_68k, core_ppc};
use big_memory::{Did, Ram, in_gate_page, is_gate};
use m68_isa::Regs68;
use mix_bits::{Fault, FaultKind};
use mixed_machine::Body;
use ppc_isa::RegsPpc;
use switch_frame::Active;

/// What the code at pc did. Beside it stands a cell for a fault.
#[derive(Clone, Copy, PartialEq)]
pub enum Code {
    /// The instruction is done.
    Next,
    /// The host is to go on, with the number in the cell's detail: a word of line A in 68K code, the number
    /// of a host function in PowerPC code. Nothing has changed.
    Leave,
    /// The fault in the cell. Nothing has changed.
    Stop,
    /// A gate stands at pc. Nothing has changed.
    Gate,
}

/// Instructions from pc on: what the last of them did, or why the host is to go on there; each before it
/// lowers `left`. How many there are is left open: the code goes on to the first that is not done, or to the last
/// that `left` allows.
#[inline(always)]
pub fn run_code(body: &mut Body, active: &mut Active, fault: &mut Fault, left: &mut u32) -> Code
    requires whole { IsWhole body.old (isa_of active.old) }
    requires some { 0 < left.old }
    ensures whole { IsWhole body.new (isa_of active.new) }
    ensures some { 0 < left.new }
    ensures fewer { left.new ≤ left.old }
    ensures codes { CodesAfter (left.old - left.new) result fault.new active.old active.new body.old body.new }
{
    match active {
        Active::M68(regs) => advance_68k(body, regs, fault, left),
        Active::Ppc(regs) => advance_ppc(body, regs, fault, left),
    }
}

/// One instruction at pc, in the same way.
#[inline(always)]
pub fn run_once(body: &mut Body, active: &mut Active, fault: &mut Fault) -> Code
    requires { IsWhole body.old (isa_of active.old) }
    ensures whole { IsWhole body.new (isa_of active.new) }
    ensures codes { Codes result fault.new active.old active.new body.old body.new }
{
    match active {
        Active::M68(regs) => once_68k(body, regs, fault),
        Active::Ppc(regs) => once_ppc(body, regs, fault),
    }
}

#[inline(never)]
fn once_68k(body: &mut Body, regs: &mut Regs68, fault: &mut Fault) -> Code
    requires { IsWhole body.old set_m68 }
    ensures { Codes result fault.new (M68 regs.old) (M68 regs.new) body.old body.new }
{
    let places = m68_core::places(&body.ram);
    code_68k(body, regs, fault, places)
}

#[inline(always)]
fn once_ppc(body: &mut Body, regs: &mut RegsPpc, fault: &mut Fault) -> Code
    requires { IsWhole body.old set_ppc }
    ensures { Codes result fault.new (Ppc regs.old) (Ppc regs.new) body.old body.new }
{
    let mut left = 1;
    advance_ppc(body, regs, fault, &mut left)
}

#[inline(always)]
fn advance_68k(body: &mut Body, regs: &mut Regs68, fault: &mut Fault, left: &mut u32) -> Code
    requires whole { IsWhole body.old set_m68 }
    requires some { 0 < left.old }
    ensures whole { IsWhole body.new set_m68 }
    ensures some { 0 < left.new }
    ensures fewer { left.new ≤ left.old }
    ensures codes { CodesAfter (left.old - left.new) result fault.new (M68 regs.old) (M68 regs.new) body.old body.new }
{
    let places = m68_core::places(&body.ram);
    let mut count = *left;
    *left = 1;
    'codes: loop {
        match code_68k(body, regs, fault, places) {
            Code::Next => {
                count -= 1;
                if count == 0 {
                    return Code::Next;
                }
            }
            code => {
                *left = count;
                return code;
            }
        }
    }
}

#[inline(never)]
fn advance_ppc(body: &mut Body, regs: &mut RegsPpc, fault: &mut Fault, left: &mut u32) -> Code
    requires whole { IsWhole body.old set_ppc }
    requires some { 0 < left.old }
    ensures whole { IsWhole body.new set_ppc }
    ensures some { 0 < left.new }
    ensures fewer { left.new ≤ left.old }
    ensures codes { CodesAfter (left.old - left.new) result fault.new (Ppc regs.old) (Ppc regs.new) body.old body.new }
{
    let places = ppc_core::places(&body.ram);
    let mut count = *left;
    *left = 1;
    'codes: loop {
        match code_ppc(body, regs, fault, places) {
            Code::Next => {
                count -= 1;
                if count == 0 {
                    return Code::Next;
                }
            }
            code => {
                *left = count;
                return code;
            }
        }
    }
}

#[inline(always)]
fn code_68k(body: &mut Body, regs: &mut Regs68, fault: &mut Fault, places: u32) -> Code
    requires whole { IsWhole body.old set_m68 }
    requires places { places ≡ places_68k body.old.ram }
    ensures codes { Codes result fault.new (M68 regs.old) (M68 regs.new) body.old body.new }
    ensures places { places_68k body.new.ram ≡ places_68k body.old.ram }
{
    if is_in_page(regs.pc, &body.ram, places) {
        return page_68k(body, regs, fault);
    }
    match core_68k(body, regs, fault, places) {
        Did::Next => Code::Next,
        Did::Leave => Code::Leave,
        Did::Stop => Code::Stop,
    }
}

/// Whether 68K code stands in the gate page. Most often the comparison that its fetch needs tells that it doesn't.
#[inline(always)]
fn is_in_page(pc: u32, ram: &Ram, places: u32) -> bool
    requires { places ≡ places_68k ram.now }
    ensures { result ≡ in_gate_page_of pc }
{
    !m68_core::is_plain(pc, ram, places) && in_gate_page(pc)
}

/// 68K code in the gate page, where no instruction is.
#[cold]
#[inline(never)]
#[tactic(auto, unfolding(mixed_machine::specs::Step::step, mixed_machine::specs::Step::step_68k))]
fn page_68k(body: &Body, regs: &Regs68, fault: &mut Fault) -> Code
    requires { in_gate_page_of regs.now.pc ≡ true }
    ensures { Codes result fault.new (M68 regs.now) (M68 regs.now) body.now body.now }
{
    let pc = regs.pc;
    if pc % 2 == 1 {
        refused(fault, FaultKind::Odd, pc, pc)
    } else if is_gate(pc) {
        Code::Gate
    } else {
        refused(fault, FaultKind::GateFetch, pc, pc)
    }
}

/// A fault that tells one number.
#[cold]
#[inline(never)]
fn refused(fault: &mut Fault, kind: FaultKind, pc: u32, detail: u32) -> Code
    ensures code { result ≡ Code.Stop }
    ensures cell { fault.new ≡ fault_at pc kind detail }
{
    *fault = Fault::at(pc, kind, detail);
    Code::Stop
}

#[inline(always)]
fn code_ppc(body: &mut Body, regs: &mut RegsPpc, fault: &mut Fault, places: u32) -> Code
    requires whole { IsWhole body.old set_ppc }
    requires places { places ≡ places_of body.old.ram }
    ensures codes { Codes result fault.new (Ppc regs.old) (Ppc regs.new) body.old body.new }
    ensures places { places_of body.new.ram ≡ places_of body.old.ram }
{
    match core_ppc(body, regs, fault, places) {
        Did::Next => Code::Next,
        Did::Leave => Code::Leave,
        Did::Stop => stopped(regs.pc),
    }
}

/// What PowerPC code did that stopped at pc.
#[cold]
#[inline(never)]
fn stopped(pc: u32) -> Code
    ensures { result ≡ stopped_at (is_gate_of pc) }
{
    if is_gate(pc) { Code::Gate } else { Code::Stop }
}
