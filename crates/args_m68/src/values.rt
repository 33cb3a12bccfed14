// A value at its place.
ghost use Rattle.std.specs.Prelude.{◌≡◌, slice_index};
ghost use Rattle.big_memory.specs.StoresClauses.{OnlyFree};
ghost use Rattle.args_m68.specs.PlacesClauses.{IsThere};
ghost use Rattle.args_m68.specs.ResultsClauses.{Leaves};
ghost use Rattle.args_m68.specs.Values.{above_sp as above_sp_lem, flag_in, put_at as put_at_lem, value_at as value_at_lem, with_flag, with_value};

use super::places::{Flag, Place};
use big_memory::{Access, Ram, memory_laws};
use m68_isa::{Ccr, Regs68};
use mix_bits::{Size, onward, trunc, with_low};

/// The address so many bytes above A7.
pub fn above_sp(regs: &Regs68, from: u32) -> u32
    ensures { result ≡ above_sp_lem regs.now from }
{
    onward(regs.a[7], from)
}

/// What stands at a place, cut to its size; a condition bit as 1 or 0.
#[inline(always)]
pub fn value_at(regs: &Regs68, ram: &Ram, place: Place, size: Size) -> Result<u32, Access>
    requires { IsThere place }
    ensures { result ≡ value_at_lem regs.now ram.now place size }
{
    match place {
        Place::Stack(from) => ram.load(above_sp(regs, from), size),
        Place::Data(n) => Ok(trunc(regs.d[n as usize], size)),
        Place::Address(n) => Ok(trunc(regs.a[n as usize], size)),
        Place::Condition(flag) => Ok(u32::from(is_set(&regs.ccr, flag))),
    }
}

/// Puts a value into a register's low bytes or a condition bit. A place on the stack is left as it is.
pub fn put_value(regs: &mut Regs68, place: Place, size: Size, value: u32)
    requires { IsThere place }
    ensures value { regs.new ≡ with_value place size value regs.old }
    ensures stack { slice_index regs.new.a 7 ≡ slice_index regs.old.a 7 }
{
    match place {
        Place::Stack(_) => {}
        Place::Data(n) => regs.d[n as usize] = with_low(regs.d[n as usize], value, size),
        Place::Address(n) => regs.a[n as usize] = with_low(regs.a[n as usize], value, size),
        Place::Condition(flag) => set(&mut regs.ccr, flag, trunc(value, size) != 0),
    }
}

/// Puts a value into its place, or is refused as a store there, with nothing changed.
pub fn put_at(
    regs: &mut Regs68,
    ram: &mut Ram,
    place: Place,
    size: Size,
    value: u32,
) -> Result<(), Access>
    requires { IsThere place }
    ensures exact { Leaves result (record { regs = regs.old; memory = ram.old }) (record { regs = regs.new; memory = ram.new }) (put_at_lem place size value regs.old ram.old) }
    ensures stack { slice_index regs.new.a 7 ≡ slice_index regs.old.a 7 }
    ensures free { OnlyFree ram.old ram.new }
{
    memory_laws();
    match place {
        Place::Stack(from) => ram.store_value(above_sp(regs, from), size, value),
        Place::Data(_) | Place::Address(_) | Place::Condition(_) => {
            put_value(regs, place, size, value);
            Ok(())
        }
    }
}

/// Whether a condition bit is set.
fn is_set(ccr: &Ccr, flag: Flag) -> bool
    ensures { result ≡ flag_in flag ccr.now }
{
    match flag {
        Flag::Carry => ccr.c,
        Flag::Overflow => ccr.v,
        Flag::IsZero => ccr.z,
        Flag::Negative => ccr.n,
        Flag::Extend => ccr.x,
    }
}

/// Sets or clears a condition bit.
fn set(ccr: &mut Ccr, flag: Flag, on: bool)
    ensures { ccr.new ≡ with_flag flag on ccr.old }
{
    match flag {
        Flag::Carry => ccr.c = on,
        Flag::Overflow => ccr.v = on,
        Flag::IsZero => ccr.z = on,
        Flag::Negative => ccr.n = on,
        Flag::Extend => ccr.x = on,
    }
}
