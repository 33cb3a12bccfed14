// What a return removes, and results.
ghost use Rattle.std.specs.Prelude.{◌≡◌, ◌+◌, ◌%◌, ◌<◌, ◌≤◌, ◌^◌, OnOk, true, slice_index, slice_set, length};
ghost use Rattle.proc_info.specs.Views.{signature};
ghost use Rattle.big_memory.specs.StoresClauses.{OnlyFree};
ghost use Rattle.args_m68.specs.ResultsClauses.{Leaves};
ghost use Rattle.args_m68.specs.Results.{removed, result_in, with_result};

use super::deliver::callee_base;
use super::places::{result_place, widths};
use super::values::{above_sp, put_at, value_at};
use big_memory::{Access, Ram};
use m68_isa::Regs68;
use proc_info::{Route, Sig};

/// How many bytes a callee's return removes from the stack, its return address among them; `selector`
/// tells whether it was passed its selector.
pub fn removed68(sig: &Sig, selector: bool) -> u32
    ensures value { result ≡ removed (signature sig.now) selector }
    ensures small { result ≤ 60 }
{
    match sig.conv.route() {
        Route::PascalStack => callee_base(sig, selector) + widths(sig.params()),
        Route::CStack => 4,
        Route::Registers => 4,
    }
}

/// How many bytes are removed from a caller's stack behind its call, the return address among them.
pub fn popped(sig: &Sig) -> u32
    ensures value { result ≡ removed (signature sig.now) true }
    ensures small { result ≤ 60 }
{
    removed68(sig, true)
}

/// The result of a callee that has returned, cut to its size; a condition bit as 1 or 0. A Pascal result
/// is at A7, and is refused where it is outside memory.
pub fn result68(sig: &Sig, regs: &Regs68, ram: &Ram) -> Result<u32, Access>
    ensures { result ≡ result_in (signature sig.now) regs.now ram.now }
{
    value_at(
        regs,
        ram,
        result_place(sig.conv.route(), sig.place),
        sig.result,
    )
}

/// Gives a caller its result behind the call: the return address, and in the Pascal conventions the parameters
/// and a selector on the stack, are removed, and the low bytes of the result stand in their place; a condition
/// bit is 1 where these are not 0. A Pascal result is stored at the new A7, and may be refused as a store, with
/// nothing changed.
pub fn put_result68(sig: &Sig, value: u32, regs: &mut Regs68, ram: &mut Ram) -> Result<(), Access>
    ensures exact { Leaves result (record { regs = regs.old; memory = ram.old }) (record { regs = regs.new; memory = ram.new })
        (with_result (signature sig.now) value regs.old ram.old) }
    ensures popped { OnOk result (slice_index regs.new.a 7 ≡ (slice_index regs.old.a 7 + removed (signature sig.now) true) % 2 ^ 32) }
    ensures free { OnlyFree ram.old ram.new }
{
    let sp = regs.a[7];
    let after = above_sp(regs, popped(sig));
    set_register(&mut regs.a, 7, after);
    let place = result_place(sig.conv.route(), sig.place);
    match put_at(regs, ram, place, sig.result, value) {
        Ok(()) => Ok(()),
        Err(access) => {
            set_register(&mut regs.a, 7, sp);
            Err(access)
        }
    }
}

/// Puts a value into one of some registers.
fn set_register(registers: &mut [u32], n: usize, value: u32)
    requires { n < length registers.old }
    ensures list { registers.new ≡ slice_set registers.old n value }
    ensures value { slice_index registers.new n ≡ value }
{
    registers[n] = value;
}
