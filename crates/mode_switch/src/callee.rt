// What a callee is handed.
ghost use Rattle.std.specs.Prelude.{◌≡◌, ◌≤◌, ◌%◌, ◌^◌, is_some, length};
ghost use Rattle.proc_info.specs.Codes.{is_dispatched};
ghost use Rattle.proc_info.specs.Views.{signature};
ghost use Rattle.args_m68.specs.Arguments.{words_of};
ghost use Rattle.switch_frame.specs.Records.{isa_of};
ghost use Rattle.switch_frame.specs.Sets.{callee_isa};
ghost use Rattle.mode_switch.specs.Callee.{below as below_lem, callee_sp, fresh, return_sp};
ghost use Rattle.mode_switch.specs.CalleeClauses.{delivered};
ghost use Rattle.mode_switch.specs.Views.{crossing};
ghost use Rattle.mode_switch.specs.Wanted.{passed_selector as passed_selector_lem};

use crate::{Call, Entry};
use args_m68::{Start68, Words, below68, removed68, start_68};
use args_ppc::{StartPpc, below_ppc, start_ppc};
use big_memory::Ram;
use m68_isa::Regs68;
use mix_bits::{Isa, onward};
use ppc_isa::RegsPpc;
use proc_info::Sig;
use switch_frame::Active;

/// How many bytes of stack a callee of a set is given; `selector` tells whether it gets a selector.
pub fn below(callee: Isa, sig: &Sig, selector: bool) -> u32
    ensures value { result ≡ below_lem callee (signature sig.now) selector }
    ensures small { result ≤ 128 }
{
    match callee {
        Isa::M68 => below68(sig, selector),
        Isa::Ppc => below_ppc(sig, selector),
    }
}

/// The selector that the callee gets.
fn passed_selector(call: &Call) -> Option<u32>
    ensures { result ≡ passed_selector_lem (crossing call.now) }
{
    if call.passes { call.selector } else { None }
}

/// Gives a callee its stack, which ends at `lo`, and its registers. No byte beside its stack changes.
pub fn deliver(
    ram: &mut Ram,
    call: &Call,
    args: &Words,
    lo: u32,
    entry: &Entry,
    active: &mut Active,
)
    requires count { args.now.count ≡ call.now.sig.count }
    requires selector { is_some call.now.selector ≡ is_dispatched call.now.sig.conv }
    requires room { below_lem (callee_isa call.now.kind) (signature call.now.sig) (is_some (passed_selector_lem (crossing call.now))) ≤ lo }
    requires inside { lo ≤ length ram.old.bytes }
    ensures memory { ram.new ≡ delivered (callee_isa call.now.kind) (signature call.now.sig) (passed_selector_lem (crossing call.now)) (words_of args.now) lo ram.old }
    ensures registers { active.new ≡ fresh (callee_isa call.now.kind) (signature call.now.sig) (passed_selector_lem (crossing call.now)) (words_of args.now)
        (callee_sp (callee_isa call.now.kind) (signature call.now.sig) (passed_selector_lem (crossing call.now)) lo) entry.now }
    ensures set { isa_of active.new ≡ callee_isa call.now.kind }
{
    let selector = passed_selector(call);
    let values = &args.value[..args.count as usize];
    match call.kind.callee() {
        Isa::M68 => {
            *active = Active::M68(Regs68::cleared());
            if let Active::M68(regs) = active {
                let start = Start68 {
                    lo,
                    a5: entry.globals,
                    target: entry.code,
                };
                start_68(&call.sig, values, selector, &start, ram, regs);
            }
        }
        Isa::Ppc => {
            *active = Active::Ppc(RegsPpc::cleared());
            if let Active::Ppc(regs) = active {
                let start = StartPpc {
                    lo,
                    code: entry.code,
                    toc: entry.globals,
                };
                start_ppc(&call.sig, values, selector, &start, ram, regs);
            }
        }
    }
}

/// The stack pointer at which a callee is expected to return, if it begins with `sp`; the sum wraps.
pub fn wanted_sp(call: &Call, sp: u32) -> u32
    ensures wraps { result ≡ return_sp (callee_isa call.now.kind) (signature call.now.sig) (passed_selector_lem (crossing call.now)) sp % 2 ^ 32 }
    ensures exact { sp ≤ 2 ^ 31 → result ≡ return_sp (callee_isa call.now.kind) (signature call.now.sig) (passed_selector_lem (crossing call.now)) sp }
{
    match call.kind.callee() {
        Isa::M68 => onward(sp, removed68(&call.sig, passed_selector(call).is_some())),
        Isa::Ppc => sp,
    }
}
