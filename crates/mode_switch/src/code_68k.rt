// What 68K code wants.
ghost use Rattle.std.specs.Prelude.{◌≡◌};
ghost use Rattle.proc_info.specs.Views.{signature};
ghost use Rattle.mode_switch.specs.Views.{wanted_of};
ghost use Rattle.mode_switch.specs.laws.Wanted.{Means};
ghost use Rattle.mode_switch.specs.Wanted.{goes_by as goes_by_lem, selector_68k as selector_68k_lem, selector_among_68k, takes_68k as takes_68k_lem, target_of as target_of_lem, wants_68k as wants_68k_lem};
ghost use Rattle.mode_switch.specs.inner.Parts.{loaded_or_fault};

use crate::descriptor::{Asker, wants_desc};
use crate::records::{call_of, no_record, target_of};
use crate::{Target, Wanted};
use args_m68::select68;
use big_memory::Ram;
use m68_isa::Regs68;
use mix_bits::{Fault, Isa};
use proc_info::Sig;
use routine_desc::{Rec, Signed, choose_among};

/// What 68K code wants at a routine descriptor at its pc, with the return address at A7. Refusals come in
/// this order: the descriptor's, the selector's bytes, no record. It is put in place, since a call is long to copy.
#[inline(always)]
pub fn wants_68k(ram: &Ram, regs: &Regs68, wanted: &mut Wanted)
    ensures exact { wanted_of wanted.new ≡ wants_68k_lem ram.now regs.now }
    ensures meant { Means Isa.M68 (wanted_of wanted.new) }
{
    wants_desc(ram, regs, regs.pc, wanted);
}

impl Asker for Regs68 {
    ghost at = { λ r. r.pc };

    ghost takes_of = { λ r m. takes_68k_lem m r };

    fn pc(&self) -> u32 {
        self.pc
    }

    #[inline(always)]
    fn takes(&self, ram: &Ram, records: &[Rec], signed: &Signed, wanted: &mut Wanted) {
        match selector_among(ram, self, records, signed) {
            Ok(selector) => match choose_among(records, Isa::M68, selector) {
                Some(rec) => goes_by(rec, signed, selector, wanted),
                None => *wanted = no_record(self.pc, selector),
            },
            Err(fault) => *wanted = Wanted::Refuses(fault),
        }
    }
}

/// The selector of a call by these records: the first one tells whether there is one.
fn selector_among(
    ram: &Ram,
    regs: &Regs68,
    records: &[Rec],
    signed: &Signed,
) -> Result<Option<u32>, Fault>
    ensures { result ≡ loaded_or_fault regs.now.pc (selector_among_68k records.now regs.now ram.now) }
{
    match records {
        [] => Ok(None),
        [first, ..] => selector(ram, regs, &signed.of(first.info)),
    }
}

/// The selector of a dispatched call.
fn selector(ram: &Ram, regs: &Regs68, sig: &Sig) -> Result<Option<u32>, Fault>
    ensures { result ≡ loaded_or_fault regs.now.pc (selector_68k_lem (signature sig.now) regs.now ram.now) }
{
    if sig.conv.is_dispatched() {
        match select68(sig, regs, ram) {
            Ok(selector) => Ok(Some(selector)),
            Err(access) => Err(access.fault(regs.pc)),
        }
    } else {
        Ok(None)
    }
}

/// Code of its own set is gone on with, and what has a vector is called.
#[inline(always)]
fn goes_by(rec: &Rec, signed: &Signed, selector: Option<u32>, wanted: &mut Wanted)
    ensures { wanted_of wanted.new ≡ goes_by_lem (target_of_lem rec.now) rec.now selector }
{
    match target_of(rec) {
        Target::Code(address) => *wanted = Wanted::Jumps(address),
        Target::Vector(_) => *wanted = Wanted::Calls(call_of(Isa::M68, rec, signed, selector)),
    }
}
