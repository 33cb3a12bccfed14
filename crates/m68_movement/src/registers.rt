// Instructions on registers alone.
ghost use Rattle.std.specs.Prelude.{◌≡◌};
ghost use Rattle.m68_isa.specs.First.{first_of};
ghost use Rattle.mix_bits.specs.Addresses.{onward};
ghost use Rattle.big_memory.specs.StepsClauses.{Does};
ghost use Rattle.m68_effects.specs.inner.Rows.{ext, halves_swapped};
ghost use Rattle.m68_effects.specs.Parts.{after};
ghost use Rattle.m68_effects.specs.laws.Ops.{by_op};

use big_memory::{Did, Ram};
use m68_alu::set_result_flags;
use m68_effects::go_on;
use m68_isa::{Exchange, Op68, Regs68, byte_of, exchange_of, lower_of, size_bits_of, upper_of};
use mix_bits::{Fault, Size, sext, trunc, with_low};

/// moveq: the low byte of the word, with its sign, into a data register.
#[inline(always)]
pub fn do_moveq(regs: &mut Regs68, ram: &Ram, fault: &mut Fault, word: u32) -> Did
    ensures { Does (by_op Op68.Moveq regs.old ram.now word) result fault.new regs.old regs.new ram.now ram.now }
{
    let value = byte_of(word);
    regs.d[upper_of(word)] = value;
    set_result_flags(&mut regs.ccr, Size::Four, value);
    go_on(regs, 1)
}

/// swap: the halves of a data register.
#[inline(always)]
pub fn do_swap(regs: &mut Regs68, ram: &Ram, fault: &mut Fault, word: u32) -> Did
    ensures { Does (by_op Op68.Swap regs.old ram.now word) result fault.new regs.old regs.new ram.now ram.now }
{
    let value = swapped(regs.d[lower_of(word)]);
    regs.d[lower_of(word)] = value;
    set_result_flags(&mut regs.ccr, Size::Four, value);
    go_on(regs, 1)
}

/// A long with its halves exchanged.
#[inline(always)]
fn swapped(value: u32) -> u32
    ensures { result ≡ halves_swapped value }
{
    value % 0x1_0000 * 0x1_0000 + value / 0x1_0000
}

/// exg: two data registers, two address registers, or one of each.
#[inline(never)]
pub fn do_exg(regs: &mut Regs68, ram: &Ram, fault: &mut Fault, word: u32) -> Did
    ensures { Does (by_op Op68.Exg regs.old ram.now word) result fault.new regs.old regs.new ram.now ram.now }
{
    let (upper, lower) = (upper_of(word), lower_of(word));
    match exchange_of(word) {
        Exchange::Data => {
            let value = regs.d[upper];
            regs.d[upper] = regs.d[lower];
            regs.d[lower] = value;
        }
        Exchange::Address => {
            let value = regs.a[upper];
            regs.a[upper] = regs.a[lower];
            regs.a[lower] = value;
        }
        Exchange::DataAddress => {
            let value = regs.d[upper];
            regs.d[upper] = regs.a[lower];
            regs.a[lower] = value;
        }
    }
    go_on(regs, 1)
}

/// ext: the sign of a byte through a word, or of a word through a long.
#[inline(never)]
pub fn do_ext(regs: &mut Regs68, ram: &Ram, fault: &mut Fault, word: u32) -> Did
    ensures { Does (by_op Op68.Ext regs.old ram.now word) result fault.new regs.old regs.new ram.now ram.now }
{
    if size_bits_of(word) % 2 == 0 {
        extend(regs, ram, fault, word, Size::One, Size::Two)
    } else {
        extend(regs, ram, fault, word, Size::Two, Size::Four)
    }
}

/// extb: the sign of a byte through a long.
#[inline(never)]
pub fn do_ext_byte(regs: &mut Regs68, ram: &Ram, fault: &mut Fault, word: u32) -> Did
    ensures { Does (by_op Op68.ExtByte regs.old ram.now word) result fault.new regs.old regs.new ram.now ram.now }
{
    extend(regs, ram, fault, word, Size::One, Size::Four)
}

/// The sign of a data register's low bytes of one size through those of another one.
#[inline(always)]
fn extend(regs: &mut Regs68, ram: &Ram, fault: &mut Fault, word: u32, from: Size, to: Size) -> Did
    ensures { Does (after (ext regs.old ram.now (onward regs.old.pc 2) from to (first_of word).lower)) result fault.new regs.old regs.new ram.now ram.now }
{
    let register = lower_of(word);
    let value = trunc(sext(regs.d[register], from), to);
    regs.d[register] = with_low(regs.d[register], value, to);
    set_result_flags(&mut regs.ccr, to, value);
    go_on(regs, 1)
}
