// What a caller passes to a call.
ghost use Rattle.std.specs.Prelude.{◌≡◌, ◌-◌, IfOk, OnErr, drop, replicate};
ghost use Rattle.proc_info.specs.Views.{signature};
ghost use Rattle.args_m68.specs.Arguments.{answered as values_answered};
ghost use Rattle.switch_frame.specs.Records.{isa_of};
ghost use Rattle.mode_switch.specs.Passed.{behind, entry_at as entry_at_lem, gathered, passed};
ghost use Rattle.mode_switch.specs.Views.{answered, crossing, going_on};

use crate::{Call, Target};
use args_m68::{Words, gather68};
use args_ppc::gather_ppc;
use big_memory::{Access, Ram};
use mix_bits::{aligned, onward};
use proc_info::Sig;
use switch_frame::Active;

/// What a callee starts with.
#[derive(Clone, Copy, Debug, PartialEq, Eq)]
pub struct Entry {
    /// The address of its code.
    pub code: u32,
    /// The address of its data: what PowerPC code finds in r2 (its TOC), and 68K code in A5.
    pub globals: u32,
}

/// What a caller passes to a call.
#[derive(Clone, Copy)]
pub struct Passed {
    pub entry: Entry,
    /// The arguments, each cut to its size.
    pub args: Words,
}

/// What a caller passes to a call, or the first refusal: the return address of 68K code, the vector, and
/// the arguments are loaded in this order. 68K code without a vector gets `a5`, the program's. The caller's
/// registers get the pc behind the call; where the call is refused, they stay.
#[inline(always)]
pub fn pass(ram: &Ram, a5: u32, active: &mut Active, call: &Call) -> Result<Passed, Access>
    ensures exact { answered active.new result ≡ passed ram.now a5 active.old (crossing call.now) }
    ensures count { IfOk result (λ p. p.args.count ≡ call.now.sig.count) }
    ensures rest { IfOk result (λ p. drop p.args.count p.args.value ≡ replicate (13 - p.args.count) 0) }
    ensures caller { isa_of active.new ≡ isa_of active.old }
    ensures refused { OnErr result (active.new ≡ active.old) }
{
    let back = pc_behind(ram, active)?;
    let entry = entry_at(ram, a5, call.target)?;
    let args = gather(ram, active, &call.sig)?;
    active.go_to(back);
    Ok(Passed { entry, args })
}

/// The pc with which the caller goes on behind the call.
fn pc_behind(ram: &Ram, active: &Active) -> Result<u32, Access>
    ensures { going_on active.now result ≡ behind ram.now active.now }
{
    match active {
        Active::M68(regs) => ram.load_long(regs.a[7]),
        Active::Ppc(regs) => Ok(aligned(regs.lr)),
    }
}

/// What a callee starts with: its vector's two longs, or its code and the A5 of the program.
fn entry_at(ram: &Ram, a5: u32, target: Target) -> Result<Entry, Access>
    ensures { result ≡ entry_at_lem ram.now a5 target }
{
    match target {
        Target::Code(code) => Ok(Entry { code, globals: a5 }),
        Target::Vector(vector) => {
            let code = ram.load_long(vector)?;
            let globals = ram.load_long(onward(vector, 4))?;
            Ok(Entry { code, globals })
        }
    }
}

/// The arguments of a call.
fn gather(ram: &Ram, active: &Active, sig: &Sig) -> Result<Words, Access>
    ensures values { values_answered result ≡ gathered ram.now active.now (signature sig.now) }
    ensures count { IfOk result (λ words. words.count ≡ sig.now.count) }
    ensures rest { IfOk result (λ words. drop words.count words.value ≡ replicate (13 - words.count) 0) }
{
    match active {
        Active::M68(regs) => gather68(sig, regs, ram),
        Active::Ppc(regs) => {
            let words = gather_ppc(sig, regs, ram)?;
            let value = words.value;
            Ok(Words {
                count: words.count,
                value,
            })
        }
    }
}
