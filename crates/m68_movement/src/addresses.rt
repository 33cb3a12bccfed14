// Addresses into registers and onto the stack, and the frames of procedures.
ghost use Rattle.std.specs.Prelude.{◌*◌, ◌≤◌};
ghost use Rattle.mix_bits.specs.Addresses.{onward as onward_of};
ghost use Rattle.m68_isa.specs.First.{first_of};
ghost use Rattle.big_memory.specs.StepsClauses.{Does};
ghost use Rattle.m68_effects.specs.laws.Tried.{Tries};
ghost use Rattle.m68_effects.specs.Movement.{link as link_of};
ghost use Rattle.m68_effects.specs.laws.Ops.{by_op};
ghost use Rattle.m68_effects.specs.Parts.{after};
ghost use Rattle.m68_isa.specs.laws.Fits.{Fits};
ghost use Rattle.m68_movement.specs.inner.Parts.{pushes};

use big_memory::{Did, Ram};
use m68_ea::{control, extended_word, long_at, store};
use m68_effects::{go_on, pop, push, push_if_open};
use m68_isa::{Op68, Regs68, lower_of, mode_of, upper_of};
use mix_bits::{Fault, Size, backward, onward};

/// lea: the address of an operand into an address register.
#[inline(never)]
pub fn do_lea(regs: &mut Regs68, ram: &Ram, fault: &mut Fault, word: u32) -> Did
    requires { Fits Op68.Lea word }
    ensures { Does (by_op Op68.Lea regs.old ram.now word) result fault.new regs.old regs.new ram.now ram.now }
{
    let (mode, lower) = (mode_of(word), lower_of(word));
    let mut next = 1;
    let Some(at) = control(regs, ram, fault, word, &mut next, mode, lower) else {
        return Did::Stop;
    };
    regs.a[upper_of(word)] = at;
    go_on(regs, next)
}

/// pea: the address of an operand onto the stack.
#[inline(never)]
pub fn do_pea(regs: &mut Regs68, ram: &mut Ram, fault: &mut Fault, word: u32) -> Did
    requires { Fits Op68.Pea word }
    ensures { Does (by_op Op68.Pea regs.old ram.old word) result fault.new regs.old regs.new ram.old ram.new }
{
    let (mode, lower) = (mode_of(word), lower_of(word));
    let mut next = 1;
    let Some(at) = control(regs, ram, fault, word, &mut next, mode, lower) else {
        return Did::Stop;
    };
    if push_if_open(regs, ram, at) {
        go_on(regs, next)
    } else {
        push_on_any_stack(regs, ram, fault, at, next)
    }
}

/// Pushes a long onto any stack, by an instruction of so many words.
#[inline(never)]
fn push_on_any_stack(
    regs: &mut Regs68,
    ram: &mut Ram,
    fault: &mut Fault,
    value: u32,
    words: u32,
) -> Did
    requires { words ≤ 5 }
    ensures { Does (after (pushes regs.old ram.old (onward_of regs.old.pc (2 * words)) value)) result fault.new regs.old regs.new ram.old ram.new }
{
    if push(regs, ram, fault, value) {
        go_on(regs, words)
    } else {
        Did::Stop
    }
}

/// link, its displacement in the extension word.
#[inline(never)]
pub fn do_link(regs: &mut Regs68, ram: &mut Ram, fault: &mut Fault, word: u32) -> Did
    ensures { Does (by_op Op68.Link regs.old ram.old word) result fault.new regs.old regs.new ram.old ram.new }
{
    let displacement = extended_word(ram, regs.pc, 1);
    link(regs, ram, fault, word, displacement, 2)
}

/// link, its displacement in the long behind the word.
#[inline(never)]
pub fn do_link_long(regs: &mut Regs68, ram: &mut Ram, fault: &mut Fault, word: u32) -> Did
    ensures { Does (by_op Op68.LinkLong regs.old ram.old word) result fault.new regs.old regs.new ram.old ram.new }
{
    let displacement = long_at(ram, regs.pc, 1);
    link(regs, ram, fault, word, displacement, 3)
}

/// An address register onto the stack, then the stack pointer into it, and a displacement onto the stack
/// pointer, by an instruction of so many words. Of A7 the value below the stack is pushed. A stack that is plainly
/// open is tried first, since it needs no call and so no register saved.
#[inline(always)]
fn link(
    regs: &mut Regs68,
    ram: &mut Ram,
    fault: &mut Fault,
    word: u32,
    displacement: u32,
    words: u32,
) -> Did
    requires { words ≤ 5 }
    ensures { Does (after (link_of regs.old ram.old (onward_of regs.old.pc (2 * words)) (first_of word).lower displacement)) result fault.new regs.old regs.new ram.old ram.new }
{
    if link_if_open(regs, ram, word, displacement, words) {
        Did::Next
    } else {
        link_on_any_stack(regs, ram, fault, word, displacement, words)
    }
}

/// Tries the same on a stack that is plainly open, and tells whether it is done.
#[inline(always)]
fn link_if_open(regs: &mut Regs68, ram: &mut Ram, word: u32, displacement: u32, words: u32) -> bool
    requires { words ≤ 5 }
    ensures { Tries (after (link_of regs.old ram.old (onward_of regs.old.pc (2 * words)) (first_of word).lower displacement)) result regs.old regs.new ram.old ram.new }
{
    let register = lower_of(word);
    let before = regs.a[7];
    let frame = backward(before, 4);
    regs.a[7] = frame;
    if !ram.store_if_open(frame, Size::Four, regs.a[register]) {
        regs.a[7] = before;
        return false;
    }
    regs.a[register] = frame;
    regs.a[7] = onward(frame, displacement);
    go_on(regs, words);
    true
}

/// The same on any stack.
#[inline(never)]
fn link_on_any_stack(
    regs: &mut Regs68,
    ram: &mut Ram,
    fault: &mut Fault,
    word: u32,
    displacement: u32,
    words: u32,
) -> Did
    requires { words ≤ 5 }
    ensures { Does (after (link_of regs.old ram.old (onward_of regs.old.pc (2 * words)) (first_of word).lower displacement)) result fault.new regs.old regs.new ram.old ram.new }
{
    let register = lower_of(word);
    let before = regs.a[7];
    let frame = backward(before, 4);
    regs.a[7] = frame;
    if !store(ram, fault, regs.pc, frame, Size::Four, regs.a[register]) {
        regs.a[7] = before;
        return Did::Stop;
    }
    regs.a[register] = frame;
    regs.a[7] = onward(frame, displacement);
    go_on(regs, words)
}

/// unlk: the stack pointer from an address register, which takes the long that is popped.
#[inline(never)]
pub fn do_unlk(regs: &mut Regs68, ram: &Ram, fault: &mut Fault, word: u32) -> Did
    ensures { Does (by_op Op68.Unlk regs.old ram.now word) result fault.new regs.old regs.new ram.now ram.now }
{
    let register = lower_of(word);
    let before = regs.a[7];
    regs.a[7] = regs.a[register];
    let Some(value) = pop(regs, ram, fault, Size::Four) else {
        regs.a[7] = before;
        return Did::Stop;
    };
    regs.a[register] = value;
    go_on(regs, 1)
}
