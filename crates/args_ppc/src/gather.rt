// What CallUniversalProc is passed.
ghost use Rattle.std.specs.Prelude.{◌≡◌, ◌+◌, ◌-◌, ◌≤◌, true, IfOk, length, drop, replicate};
ghost use Rattle.args_ppc.specs.Arguments.{words_of};
ghost use Rattle.proc_info.specs.Codes.{is_dispatched};
ghost use Rattle.proc_info.specs.Views.{signature};
ghost use Rattle.proc_info.specs.inner.Arguments.{Appends};
ghost use Rattle.args_ppc.specs.Arguments.{answered};
ghost use Rattle.args_ppc.specs.Words.{gathered, selector_in, value_at, values_at, word_at};

use super::words::PpcWords;
use big_memory::{Access, Ram};
use mix_bits::{Size, onward, trunc};
use ppc_isa::RegsPpc;
use proc_info::{Param, Sig};

/// How many words of a call stand in registers.
const REGISTER_WORDS: u32 = 8;

/// The selector that CallUniversalProc is passed, cut to its size: its third word.
pub fn select_ppc(sig: &Sig, regs: &RegsPpc) -> u32
    requires { is_dispatched sig.now.conv ≡ true }
    ensures { result ≡ selector_in (signature sig.now) regs.now }
{
    trunc(regs.gpr[5], sig.selector)
}

/// The arguments that CallUniversalProc is passed for its callee, each cut to its size, or the first
/// refusal in the parameters' order. They are the words behind the universal pointer and the procInfo, and
/// behind the selector of a dispatched call.
pub fn gather_ppc(sig: &Sig, regs: &RegsPpc, ram: &Ram) -> Result<PpcWords, Access>
    ensures values { answered result ≡ gathered (signature sig.now) regs.now ram.now }
    ensures count { IfOk result (λ words. words.count ≡ sig.now.count) }
    ensures rest { IfOk result (λ words. drop words.count words.value ≡ replicate (13 - words.count) 0) }
{
    let first = if sig.conv.is_dispatched() { 3 } else { 2 };
    let mut words = PpcWords::empty();
    append_values(&mut words, regs, ram, first, sig.params())?;
    Ok(words)
}

/// Appends the values of parameters in the words from `first` on.
#[tactic(auto, using(proc_info::proofs::Chains::behind_front, proc_info::proofs::Chains::behind_none))]
fn append_values(
    words: &mut PpcWords,
    regs: &RegsPpc,
    ram: &Ram,
    first: u32,
    params: &[Param],
) -> Result<(), Access>
    requires room { words.old.count + length params.now ≤ 13 }
    requires rest { drop words.old.count words.old.value ≡ replicate (13 - words.old.count) 0 }
    requires near { first + length params.now ≤ 100 }
    ensures values { Appends result (words_of words.old) (words_of words.new) (values_at regs.now ram.now first params.now) }
    ensures count { IfOk result (λ done. words.new.count ≡ words.old.count + length params.now) }
    ensures rest { drop words.new.count words.new.value ≡ replicate (13 - words.new.count) 0 }
{
    match params {
        [] => Ok(()),
        [param, rest @ ..] => {
            words.push(value(regs, ram, first, param.size)?);
            append_values(words, regs, ram, first + 1, rest)
        }
    }
}

/// A word of a call, cut to a size.
#[tactic(auto, unfolding(crate::specs::Words::value_at))]
fn value(regs: &RegsPpc, ram: &Ram, i: u32, size: Size) -> Result<u32, Access>
    requires { i ≤ 100 }
    ensures { result ≡ value_at regs.now ram.now i size }
{
    Ok(trunc(word(regs, ram, i)?, size))
}

/// A word of a call, counted from 0.
fn word(regs: &RegsPpc, ram: &Ram, i: u32) -> Result<u32, Access>
    requires { i ≤ 100 }
    ensures { result ≡ word_at regs.now ram.now i }
{
    if i < REGISTER_WORDS {
        Ok(regs.gpr[3 + i as usize])
    } else {
        ram.load_long(onward(regs.gpr[1], 24 + 4 * i))
    }
}
