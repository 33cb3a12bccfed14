// Several accesses one after another, all of which are done, or none.
ghost use Rattle.std.specs.Prelude.{◌≡◌, ◌≢◌, Ok};
ghost use Rattle.std.specs.Result.{IsOk};
ghost use Rattle.mix_bits.specs.declared.size.Size.TheVariants.{Zero};
ghost use Rattle.big_memory.specs.StoresClauses.{OnlyFree};
ghost use Rattle.m68_ea.specs.Finds.{Stored};
ghost use Rattle.m68_effects.specs.Multiple.{stored_along, stored_down};
ghost use Rattle.m68_movement.specs.inner.Along.{CanStore, CanStoreAll};

use big_memory::{Ram, memory_laws};
use m68_ea::store;
use mix_bits::{Fault, Size, backward, onward};

/// Stores values one after another, each `step` bytes behind the one before, for the instruction at `pc`,
/// and tells whether it did: all of them, or none where one can't be stored.
pub fn store_along(
    ram: &mut Ram,
    fault: &mut Fault,
    pc: u32,
    a: u32,
    step: u32,
    size: Size,
    values: &[u32],
) -> bool
    ensures { Stored (stored_along pc ram.old a step size values.now) result fault.new ram.old ram.new }
{
    memory_laws();
    if !can_store_along(ram, fault, pc, a, step, size, values) {
        return false;
    }
    put_along(ram, fault, pc, a, step, size, values);
    true
}

/// The same with each value right before the one before.
pub fn store_down(
    ram: &mut Ram,
    fault: &mut Fault,
    pc: u32,
    a: u32,
    size: Size,
    values: &[u32],
) -> bool
    requires { size ≢ Zero }
    ensures { Stored (stored_down pc ram.old a size values.now) result fault.new ram.old ram.new }
{
    let step = backward(0, size.bytes());
    store_along(ram, fault, pc, onward(a, step), step, size, values)
}

/// Whether values can be stored one after another; or the fault of the first one that can't is in the cell.
fn can_store_along(
    ram: &Ram,
    fault: &mut Fault,
    pc: u32,
    a: u32,
    step: u32,
    size: Size,
    values: &[u32],
) -> bool
    ensures { CanStoreAll pc ram.now a step size values.now result fault.new }
{
    match values {
        [] => true,
        [_, rest @ ..] => {
            can_store(ram, fault, pc, a, size)
                && can_store_along(ram, fault, pc, onward(a, step), step, size, rest)
        }
    }
}

/// Stores values one after another that all can be stored.
fn put_along(
    ram: &mut Ram,
    fault: &mut Fault,
    pc: u32,
    a: u32,
    step: u32,
    size: Size,
    values: &[u32],
)
    requires { IsOk (stored_along pc ram.old a step size values.now) }
    ensures done { stored_along pc ram.old a step size values.now ≡ Ok ram.new }
    ensures free { OnlyFree ram.old ram.new }
{
    memory_laws();
    match values {
        [] => {}
        [value, rest @ ..] => {
            if store(ram, fault, pc, a, size, *value) {
                put_along(ram, fault, pc, onward(a, step), step, size, rest);
            }
        }
    }
}

/// Whether a value can be stored at an address; or its fault is in the cell.
fn can_store(ram: &Ram, fault: &mut Fault, pc: u32, a: u32, size: Size) -> bool
    ensures { CanStore pc ram.now a size result fault.new }
{
    memory_laws();
    ram.meets_invariant();
    match ram.probe(a, size.bytes()) {
        Ok(()) => true,
        Err(access) => {
            *fault = access.fault(pc);
            false
        }
    }
}
