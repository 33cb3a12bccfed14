// What a return gives back.
ghost use Rattle.std.specs.Prelude.{◌≡◌};
ghost use Rattle.proc_info.specs.Views.{signature};
ghost use Rattle.mode_switch.specs.ReturnedClauses.{GivesBack, Puts};
ghost use Rattle.mode_switch.specs.Returned.{given_back, put_result as put_result_lem, result_at as result_at_lem};

use args_m68::{put_result68, result68};
use args_ppc::{put_result_ppc, result_ppc};
use big_memory::{Access, Ram, memory_laws};
use proc_info::Sig;
use switch_frame::Active;

/// Gives a caller the result of its callee, which has returned, and answers it, cut to its size. From the
/// stack of 68K code the return address is removed, and in the Pascal conventions what was passed there. A
/// Pascal result may be refused where it stands or
/// where it goes; nothing is changed then.
#[inline(always)]
pub fn give_back(
    ram: &mut Ram,
    sig: &Sig,
    callee: &Active,
    caller: &mut Active,
) -> Result<u32, Access>
    ensures { GivesBack (given_back ram.old (signature sig.now) callee.now caller.old) result ram.old ram.new caller.old caller.new }
{
    let value = result_at(ram, sig, callee)?;
    put_result(ram, sig, value, caller)?;
    Ok(value)
}

/// The result of a callee.
fn result_at(ram: &Ram, sig: &Sig, callee: &Active) -> Result<u32, Access>
    ensures { result ≡ result_at_lem ram.now (signature sig.now) callee.now }
{
    match callee {
        Active::M68(regs) => result68(sig, regs, ram),
        Active::Ppc(regs) => Ok(result_ppc(sig, regs)),
    }
}

/// Gives a caller its result.
fn put_result(ram: &mut Ram, sig: &Sig, value: u32, caller: &mut Active) -> Result<(), Access>
    ensures { Puts (put_result_lem ram.old (signature sig.now) value caller.old) result ram.old ram.new caller.old caller.new }
{
    match caller {
        Active::M68(regs) => put_result68(sig, value, regs, ram),
        Active::Ppc(regs) => {
            memory_laws();
            put_result_ppc(sig, value, regs);
            Ok(())
        }
    }
}
