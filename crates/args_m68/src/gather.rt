// What a caller passes.
ghost use Rattle.std.specs.Prelude.{◌≡◌, ◌+◌, ◌-◌, ◌*◌, ◌≤◌, true, IfOk, length, drop, replicate};
ghost use Rattle.args_m68.specs.Arguments.{words_of};
ghost use Rattle.proc_info.specs.Codes.{is_dispatched};
ghost use Rattle.proc_info.specs.Views.{signature};
ghost use Rattle.proc_info.specs.inner.Arguments.{Appends};
ghost use Rattle.args_m68.specs.Arguments.{answered};
ghost use Rattle.args_m68.specs.Gather.{gathered, selector_in, values_at};

use super::places::{next_base, place_for, selector_place, selector_width, widths};
use super::values::value_at;
use super::words::Words;
use big_memory::{Access, Ram};
use m68_isa::Regs68;
use proc_info::{Param, Route, Sig};

/// The selector that a caller passes, cut to its size, or the refusal of its bytes. A7 is at the return
/// address.
pub fn select68(sig: &Sig, regs: &Regs68, ram: &Ram) -> Result<u32, Access>
    requires { is_dispatched sig.now.conv ≡ true }
    ensures { result ≡ selector_in (signature sig.now) regs.now ram.now }
{
    value_at(regs, ram, selector_place(sig.conv), sig.selector)
}

/// The arguments that a caller passes, each cut to its size, or the first refusal in the parameters' order.
/// A7 is at the return address, and a selector on the stack stands above it.
pub fn gather68(sig: &Sig, regs: &Regs68, ram: &Ram) -> Result<Words, Access>
    ensures values { answered result ≡ gathered (signature sig.now) regs.now ram.now }
    ensures count { IfOk result (λ words. words.count ≡ sig.now.count) }
    ensures rest { IfOk result (λ words. drop words.count words.value ≡ replicate (13 - words.count) 0) }
{
    let base = 4 + selector_width(sig.conv, sig.selector);
    let mut words = Words::empty();
    append_values(&mut words, regs, ram, sig.conv.route(), base, sig.params())?;
    Ok(words)
}

/// Appends the values of parameters whose lowest begins `base` bytes above A7.
#[tactic(auto, using(proc_info::proofs::Chains::behind_front, proc_info::proofs::Chains::behind_none))]
fn append_values(
    words: &mut Words,
    regs: &Regs68,
    ram: &Ram,
    route: Route,
    base: u32,
    params: &[Param],
) -> Result<(), Access>
    requires room { words.old.count + length params.now ≤ 13 }
    requires rest { drop words.old.count words.old.value ≡ replicate (13 - words.old.count) 0 }
    requires near { base + 4 * length params.now ≤ 1000 }
    ensures values { Appends result (words_of words.old) (words_of words.new) (values_at regs.now ram.now route base params.now) }
    ensures count { IfOk result (λ done. words.new.count ≡ words.old.count + length params.now) }
    ensures rest { drop words.new.count words.new.value ≡ replicate (13 - words.new.count) 0 }
{
    match params {
        [] => Ok(()),
        [only] => {
            let place = place_for(route, base, only, 0);
            words.push(value_at(regs, ram, place, only.size)?);
            Ok(())
        }
        [first, rest @ ..] => {
            let place = place_for(route, base, first, widths(rest));
            words.push(value_at(regs, ram, place, first.size)?);
            append_values(words, regs, ram, route, next_base(route, base), rest)
        }
    }
}
