// What PowerPC code wants.
ghost use Rattle.std.specs.Prelude.{◌≡◌};
ghost use Rattle.proc_info.specs.Views.{signature};
ghost use Rattle.mix_bits.specs.declared.size.Size.TheVariants.{Two};
ghost use Rattle.big_memory.specs.Memory.{loaded};
ghost use Rattle.mode_switch.specs.Views.{wanted_of};
ghost use Rattle.mode_switch.specs.laws.Wanted.{Means};
ghost use Rattle.mode_switch.specs.Wanted.{selector_among_ppc, selector_ppc as selector_ppc_lem, settled, takes_ppc as takes_ppc_lem, wants_ppc as wants_ppc_lem, wants_raw as wants_raw_lem, wants_word as wants_word_lem};

use crate::descriptor::{Asker, wants_desc};
use crate::records::{bad_desc, call_of, no_record};
use crate::{Call, Target, Wanted};
use args_ppc::select_ppc;
use big_memory::Ram;
use mix_bits::{Fault, FaultKind, Isa};
use ppc_isa::RegsPpc;
use proc_info::{Sig, read};
use routine_desc::{BadDesc, MIXED_MODE_MAGIC, Rec, Signed, choose_among};
use switch_frame::Kind;

/// What PowerPC code wants by CallUniversalProc with a universal pointer and a procInfo. Refusals come in
/// this order: the word at the pointer outside memory; then for 68K code there the procInfo without a
/// signature, or for a descriptor there the descriptor's, no record, another procInfo than the record's. It is put
/// in place, since a call is long to copy.
#[inline(always)]
pub fn wants_ppc(ram: &Ram, regs: &RegsPpc, pointer: u32, info: u32, wanted: &mut Wanted)
    ensures exact { wanted_of wanted.new ≡ wants_ppc_lem ram.now regs.now pointer info }
    ensures meant { Means Isa.Ppc (wanted_of wanted.new) }
{
    wants_word(ram, regs, pointer, info, wanted);
}

/// What it wants by the word at the pointer, put in place.
#[inline(always)]
fn wants_word(ram: &Ram, regs: &RegsPpc, pointer: u32, info: u32, wanted: &mut Wanted)
    ensures { wanted_of wanted.new ≡ settled (wants_word_lem ram.now regs.now pointer info (loaded ram.now pointer Two)) }
{
    match ram.load_word(pointer) {
        Ok(word) => {
            if word == MIXED_MODE_MAGIC {
                wants_desc(ram, &Universal { regs, info }, pointer, wanted)
            } else {
                wants_raw(regs, pointer, info, wanted)
            }
        }
        Err(_) => *wanted = Wanted::Refuses(bad_desc(regs.pc, pointer, BadDesc::Access)),
    }
}

/// What it wants of raw 68K code.
#[inline(always)]
fn wants_raw(regs: &RegsPpc, pointer: u32, info: u32, wanted: &mut Wanted)
    ensures { wanted_of wanted.new ≡ settled (wants_raw_lem regs.now pointer info) }
{
    match read(info) {
        Ok(sig) => {
            *wanted = Wanted::Calls(Call {
                kind: Kind::PpcToM68,
                info,
                sig,
                selector: selector(regs, &sig),
                passes: sig.conv.is_dispatched(),
                target: Target::Code(pointer),
            });
        }
        Err(bad) => {
            *wanted = Wanted::Refuses(Fault {
                kind: FaultKind::Info,
                pc: regs.pc,
                detail: info,
                also: bad.code(),
            });
        }
    }
}

/// A call by CallUniversalProc with a procInfo.
#[derive(Clone, Copy)]
struct Universal<'a> {
    regs: &'a RegsPpc,
    info: u32,
}

impl Universal<'_> {
    ghost use Rattle.std.specs.Prelude.{◌≡◌};
    ghost use Rattle.mode_switch.specs.Views.{wanted_of};
    ghost use Rattle.mode_switch.specs.Wanted.{called_by as called_by_lem, settled};

    /// The call of a record. Another procInfo than the record's is refused.
    #[inline(always)]
    fn calls(&self, rec: &Rec, signed: &Signed, selector: Option<u32>, wanted: &mut Wanted)
        ensures { wanted_of wanted.new ≡ settled (called_by_lem self.now.regs.now.pc self.now.info selector rec.now) }
    {
        if self.info == rec.info {
            *wanted = Wanted::Calls(call_of(Isa::Ppc, rec, signed, selector));
        } else {
            *wanted = Wanted::Refuses(Fault {
                kind: FaultKind::Mismatch,
                pc: self.regs.pc,
                detail: self.info,
                also: rec.info,
            });
        }
    }
}

impl Asker for Universal<'_> {
    ghost at = { λ call. call.regs.now.pc };

    ghost takes_of = { λ call m. takes_ppc_lem call.regs.now call.info };

    fn pc(&self) -> u32 {
        self.regs.pc
    }

    #[inline(always)]
    fn takes(&self, _ram: &Ram, records: &[Rec], signed: &Signed, wanted: &mut Wanted) {
        let selector = selector_among(self.regs, records, signed);
        match choose_among(records, Isa::Ppc, selector) {
            Some(rec) => self.calls(rec, signed, selector, wanted),
            None => *wanted = no_record(self.regs.pc, selector),
        }
    }
}

/// The selector of a call by these records: the first one tells whether there is one.
fn selector_among(regs: &RegsPpc, records: &[Rec], signed: &Signed) -> Option<u32>
    ensures { result ≡ selector_among_ppc records.now regs.now }
{
    match records {
        [] => None,
        [first, ..] => selector(regs, &signed.of(first.info)),
    }
}

/// The selector of a dispatched call.
fn selector(regs: &RegsPpc, sig: &Sig) -> Option<u32>
    ensures { result ≡ selector_ppc_lem (signature sig.now) regs.now }
{
    if sig.conv.is_dispatched() {
        Some(select_ppc(sig, regs))
    } else {
        None
    }
}
