ghost use Rattle.std.specs.Prelude.{slice_index};
ghost use Rattle.mix_bits.specs.declared.size.Size.TheVariants.{Four};
ghost use Rattle.m68_isa.specs.declared.ea.Ea.TheVariants.{Post, Pre};
ghost use Rattle.m68_effects.specs.Stack.{Pops, Pushes};
ghost use Rattle.m68_effects.specs.StackClauses.{PushesIf};
ghost use Rattle.big_memory.specs.Open.{is_open};
ghost use Rattle.m68_ea.specs.Operands.{put_into, sourced};
ghost use Rattle.mix_bits.specs.Addresses.{backward as backward_of};

use big_memory::Ram;
use m68_ea::{load, step, store};
use m68_isa::Regs68;
use mix_bits::{Fault, Size, backward, onward};

/// Pushes a long, and tells whether it did: A7 is four lower, and points to it.
#[inline(always)]
pub fn push(regs: &mut Regs68, ram: &mut Ram, fault: &mut Fault, value: u32) -> bool
    ensures { Pushes (put_into regs.old ram.old Four (Pre 7) value) result fault.new regs.old regs.new ram.old ram.new }
{
    let at = backward(regs.a[7], 4);
    let done = store(ram, fault, regs.pc, at, Size::Four, value);
    if done {
        regs.a[7] = at;
    }
    done
}

/// Pushes a long where the place below the stack is plainly open, and tells whether it did; else nothing is
/// changed, and it is left to [`push`].
#[inline(always)]
pub fn push_if_open(regs: &mut Regs68, ram: &mut Ram, value: u32) -> bool
    ensures { PushesIf (is_open ram.old (backward_of (slice_index regs.old.a 7) 4) 4) (put_into regs.old ram.old Four (Pre 7) value) result regs.old regs.new ram.old ram.new }
{
    let at = backward(regs.a[7], 4);
    let done = ram.store_if_open(at, Size::Four, value);
    if done {
        regs.a[7] = at;
    }
    done
}

/// Pops a value: A7 points behind it.
#[inline(always)]
pub fn pop(regs: &mut Regs68, ram: &Ram, fault: &mut Fault, size: Size) -> Option<u32>
    ensures { Pops (sourced regs.old ram.now size (Post 7)) result fault.new regs.old regs.new }
{
    let at = regs.a[7];
    let value = load(ram, fault, regs.pc, at, size);
    if value.is_some() {
        regs.a[7] = onward(at, step(7, size));
    }
    value
}
