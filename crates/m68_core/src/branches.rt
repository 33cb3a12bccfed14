// Branches, whose displacements count from the address behind the first word.
ghost use Rattle.std.specs.Prelude.{◌≡◌, ◌*◌, ◌<◌, ◌≤◌};
ghost use Rattle.mix_bits.specs.Addresses.{onward as onward_of};
ghost use Rattle.big_memory.specs.StepsClauses.{Does};
ghost use Rattle.m68_effects.specs.Control.{called, counted as counted_of};
ghost use Rattle.m68_effects.specs.Parts.{after};
ghost use Rattle.m68_effects.specs.laws.Ops.{by_op};
ghost use Rattle.m68_isa.specs.Targets.{branch_target as target_of};
ghost use Rattle.m68_isa.specs.laws.Fits.{Fits};

use big_memory::{Did, Ram};
use m68_ea::{extended_word, long_at};
use m68_effects::{go_on, push, push_if_open};
use m68_isa::{Op68, Regs68, branch_target, byte_of, condition_of, holds, lower_of};
use mix_bits::{Fault, Size, onward, with_low};

/// bra, its displacement in the low byte of the word.
#[inline(always)]
pub fn do_bra_byte(regs: &mut Regs68, ram: &Ram, fault: &mut Fault, word: u32) -> Did
    ensures { Does (by_op Op68.BraByte regs.old ram.now word) result fault.new regs.old regs.new ram.now ram.now }
{
    branch(regs, byte_of(word))
}

/// bra, its displacement in the extension word.
#[inline(always)]
pub fn do_bra_word(regs: &mut Regs68, ram: &Ram, fault: &mut Fault, word: u32) -> Did
    ensures { Does (by_op Op68.BraWord regs.old ram.now word) result fault.new regs.old regs.new ram.now ram.now }
{
    branch(regs, extended_word(ram, regs.pc, 1))
}

/// bra, its displacement in the long behind the word.
#[inline(never)]
pub fn do_bra_long(regs: &mut Regs68, ram: &Ram, fault: &mut Fault, word: u32) -> Did
    ensures { Does (by_op Op68.BraLong regs.old ram.now word) result fault.new regs.old regs.new ram.now ram.now }
{
    branch(regs, long_at(ram, regs.pc, 1))
}

/// bsr, its displacement in the low byte of the word.
#[inline(never)]
pub fn do_bsr_byte(regs: &mut Regs68, ram: &mut Ram, fault: &mut Fault, word: u32) -> Did
    ensures { Does (by_op Op68.BsrByte regs.old ram.old word) result fault.new regs.old regs.new ram.old ram.new }
{
    call_by(regs, ram, fault, byte_of(word), 1)
}

/// bsr, its displacement in the extension word.
#[inline(never)]
pub fn do_bsr_word(regs: &mut Regs68, ram: &mut Ram, fault: &mut Fault, word: u32) -> Did
    ensures { Does (by_op Op68.BsrWord regs.old ram.old word) result fault.new regs.old regs.new ram.old ram.new }
{
    let displacement = extended_word(ram, regs.pc, 1);
    call_by(regs, ram, fault, displacement, 2)
}

/// bsr, its displacement in the long behind the word.
#[inline(never)]
pub fn do_bsr_long(regs: &mut Regs68, ram: &mut Ram, fault: &mut Fault, word: u32) -> Did
    ensures { Does (by_op Op68.BsrLong regs.old ram.old word) result fault.new regs.old regs.new ram.old ram.new }
{
    let displacement = long_at(ram, regs.pc, 1);
    call_by(regs, ram, fault, displacement, 3)
}

/// bcc, its displacement in the low byte of the word.
#[inline(always)]
pub fn do_bcc_byte(regs: &mut Regs68, ram: &Ram, fault: &mut Fault, word: u32) -> Did
    requires { Fits Op68.BccByte word }
    ensures { Does (by_op Op68.BccByte regs.old ram.now word) result fault.new regs.old regs.new ram.now ram.now }
{
    if holds(condition_of(word), &regs.ccr) {
        branch(regs, byte_of(word))
    } else {
        go_on(regs, 1)
    }
}

/// bcc, its displacement in the extension word.
#[inline(always)]
pub fn do_bcc_word(regs: &mut Regs68, ram: &Ram, fault: &mut Fault, word: u32) -> Did
    requires { Fits Op68.BccWord word }
    ensures { Does (by_op Op68.BccWord regs.old ram.now word) result fault.new regs.old regs.new ram.now ram.now }
{
    if holds(condition_of(word), &regs.ccr) {
        branch(regs, extended_word(ram, regs.pc, 1))
    } else {
        go_on(regs, 2)
    }
}

/// bcc, its displacement in the long behind the word.
#[inline(never)]
pub fn do_bcc_long(regs: &mut Regs68, ram: &Ram, fault: &mut Fault, word: u32) -> Did
    requires { Fits Op68.BccLong word }
    ensures { Does (by_op Op68.BccLong regs.old ram.now word) result fault.new regs.old regs.new ram.now ram.now }
{
    if holds(condition_of(word), &regs.ccr) {
        branch(regs, long_at(ram, regs.pc, 1))
    } else {
        go_on(regs, 3)
    }
}

/// dbcc: unless the condition holds, the low word of a data register is counted down, and the program
/// branches unless it is then -1.
#[inline(never)]
pub fn do_dbcc(regs: &mut Regs68, ram: &Ram, fault: &mut Fault, word: u32) -> Did
    ensures { Does (by_op Op68.Dbcc regs.old ram.now word) result fault.new regs.old regs.new ram.now ram.now }
{
    if holds(condition_of(word), &regs.ccr) {
        return go_on(regs, 2);
    }
    let register = lower_of(word);
    let count = counted(regs, register);
    regs.d[register] = with_low(regs.d[register], count, Size::Two);
    if count == 0xFFFF {
        go_on(regs, 2)
    } else {
        branch(regs, extended_word(ram, regs.pc, 1))
    }
}

/// The low word of a data register less one.
#[inline(always)]
fn counted(regs: &Regs68, register: usize) -> u32
    requires { register < 8 }
    ensures { result ≡ counted_of regs.now register }
{
    ((u64::from(regs.d[register]) + 0xFFFF) % 0x1_0000) as u32
}

/// Lets the program go on at the address that a displacement gives.
#[inline(always)]
fn branch(regs: &mut Regs68, displacement: u32) -> Did
    ensures next { result ≡ Did.Next }
    ensures registers { regs.new ≡ record regs.old { pc = target_of regs.old.pc displacement } }
{
    regs.pc = branch_target(regs.pc, displacement);
    Did::Next
}

/// Calls what stands where a displacement tells, by an instruction of so many words.
#[inline(always)]
fn call_by(
    regs: &mut Regs68,
    ram: &mut Ram,
    fault: &mut Fault,
    displacement: u32,
    words: u32,
) -> Did
    requires { words ≤ 5 }
    ensures { Does (after (called regs.old ram.old (onward_of regs.old.pc (2 * words)) (target_of regs.old.pc displacement))) result fault.new regs.old regs.new ram.old ram.new }
{
    let target = branch_target(regs.pc, displacement);
    call(regs, ram, fault, onward(regs.pc, 2 * words), target)
}

/// Pushes the address of the next instruction, and lets the program go on elsewhere. A stack that is plainly open
/// is tried first, since it needs no call and so no register saved.
#[inline(always)]
pub fn call(regs: &mut Regs68, ram: &mut Ram, fault: &mut Fault, next: u32, target: u32) -> Did
    ensures { Does (after (called regs.old ram.old next target)) result fault.new regs.old regs.new ram.old ram.new }
{
    if push_if_open(regs, ram, next) {
        regs.pc = target;
        Did::Next
    } else {
        call_on_any_stack(regs, ram, fault, next, target)
    }
}

/// The same on any stack.
#[inline(never)]
fn call_on_any_stack(
    regs: &mut Regs68,
    ram: &mut Ram,
    fault: &mut Fault,
    next: u32,
    target: u32,
) -> Did
    ensures { Does (after (called regs.old ram.old next target)) result fault.new regs.old regs.new ram.old ram.new }
{
    if push(regs, ram, fault, next) {
        regs.pc = target;
        Did::Next
    } else {
        Did::Stop
    }
}
