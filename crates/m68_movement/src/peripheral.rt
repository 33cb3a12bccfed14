// movep: a register to or from bytes at every second address.
ghost use Rattle.std.specs.Prelude.{◌≢◌};
ghost use Rattle.byteorder.specs.Endian.{big_bytes};
ghost use Rattle.mix_bits.specs.Sizes.{bytes_of};
ghost use Rattle.mix_bits.specs.declared.size.Size.TheVariants.{One, Zero};
ghost use Rattle.big_memory.specs.StepsClauses.{Does};
ghost use Rattle.m68_ea.specs.Finds.{Gives, Stored};
ghost use Rattle.m68_effects.specs.Multiple.{peripheral_number, stored_along};
ghost use Rattle.m68_effects.specs.laws.Ops.{by_op};

use super::along::store_along;
use big_memory::{Did, Ram};
use m68_ea::{extended_word, load};
use m68_effects::go_on;
use m68_isa::{Op68, Regs68, is_to_memory, lower_of, transfer_size_of, upper_of};
use mix_bits::{Fault, Size, onward, with_low};

/// movep: the bytes of a word or a long, the highest one first, at an address and at every second one
/// behind it.
#[inline(never)]
pub fn do_movep(regs: &mut Regs68, ram: &mut Ram, fault: &mut Fault, word: u32) -> Did
    ensures { Does (by_op Op68.Movep regs.old ram.old word) result fault.new regs.old regs.new ram.old ram.new }
{
    let (data, size) = (upper_of(word), transfer_size_of(word));
    let at = onward(regs.a[lower_of(word)], extended_word(ram, regs.pc, 1));
    if is_to_memory(word) {
        if store_peripheral(ram, fault, regs.pc, at, size, regs.d[data]) {
            go_on(regs, 2)
        } else {
            Did::Stop
        }
    } else {
        let Some(value) = load_peripheral(ram, fault, regs.pc, at, size) else {
            return Did::Stop;
        };
        regs.d[data] = with_low(regs.d[data], value, size);
        go_on(regs, 2)
    }
}

/// Stores the bytes of a word or a long at every second address, and tells whether it did.
fn store_peripheral(
    ram: &mut Ram,
    fault: &mut Fault,
    pc: u32,
    a: u32,
    size: Size,
    value: u32,
) -> bool
    requires byte { size ≢ One }
    requires some { size ≢ Zero }
    ensures { Stored (stored_along pc ram.old a 2 One (big_bytes (bytes_of size) value)) result fault.new ram.old ram.new }
{
    let third = value / 0x100 % 0x100;
    let fourth = value % 0x100;
    if size.bytes() == 2 {
        return store_along(ram, fault, pc, a, 2, Size::One, &[third, fourth]);
    }
    let first = value / 0x100_0000 % 0x100;
    let second = value / 0x1_0000 % 0x100;
    store_along(
        ram,
        fault,
        pc,
        a,
        2,
        Size::One,
        &[first, second, third, fourth],
    )
}

/// The number in the bytes of a word or a long at every second address.
fn load_peripheral(ram: &Ram, fault: &mut Fault, pc: u32, a: u32, size: Size) -> Option<u32>
    requires byte { size ≢ One }
    requires some { size ≢ Zero }
    ensures { Gives (peripheral_number pc ram.now a (bytes_of size) 0) result fault.new }
{
    let second = onward(a, 2);
    let third = onward(second, 2);
    let high = load(ram, fault, pc, a, Size::One)? * 0x100;
    let high = high + load(ram, fault, pc, second, Size::One)?;
    if size.bytes() == 2 {
        return Some(high);
    }
    let low = load(ram, fault, pc, third, Size::One)? * 0x100;
    let low = low + load(ram, fault, pc, onward(third, 2), Size::One)?;
    Some(high * 0x1_0000 + low)
}
