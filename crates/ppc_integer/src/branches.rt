// Branches.
ghost use Rattle.std.specs.Prelude.{◌≡◌, ◌+◌, ◌-◌, ◌*◌, ◌/◌, ◌%◌, ◌^◌, ◌<◌, ◌==◌, true};
ghost use Rattle.mix_bits.specs.Digits.{digit_of};
ghost use Rattle.ppc_isa.specs.Fields.{displacement_of, fields_of};
ghost use Rattle.ppc_isa.specs.declared.instruction.InstrPpc.TheVariants.{Branch, BranchConditional, BranchConditionalToRegister};
ghost use Rattle.ppc_integer.specs.Condition.{bit_of};
ghost use Rattle.ppc_integer.specs.Branches.{branch_where, condition_allows as condition_allows_of, count_allows, counted, is_same, leaves_count as leaves_count_of};
ghost use Rattle.ppc_integer.specs.Alone.{Runs};

use super::condition::cr_bit;
use big_memory::Did;
use mix_bits::{aligned, onward};
use ppc_isa::{
    BranchRegister, RegsPpc, a_of, branch_target, d_of, far_displacement_of, is_absolute, is_last,
    near_displacement_of,
};

/// b.
#[inline(always)]
#[tactic(auto, using(big_memory::proofs::Free::nothing_free))]
pub fn branch(regs: &mut RegsPpc, word: u32) -> Did
    ensures { let f = fields_of word in Runs (Branch (displacement_of 26 (f.d * 2 ^ 21 + f.a * 2 ^ 16 + f.low / 4 * 4)) ((f.low / 2 % 2) == 1) f.last) word result regs.old regs.new }
{
    let far = far_displacement_of(word);
    if is_absolute(word) || is_last(word) {
        let to = branch_target(is_absolute(word), regs.pc, far);
        if is_last(word) {
            regs.lr = onward(regs.pc, 4);
        }
        regs.pc = to;
    } else {
        regs.pc = onward(regs.pc, far);
    }
    Did::Next
}

/// bc.
#[inline(always)]
#[tactic(auto, using(big_memory::proofs::Free::nothing_free))]
pub fn branch_conditional(regs: &mut RegsPpc, word: u32) -> Did
    ensures { let f = fields_of word in Runs (BranchConditional f.d f.a (displacement_of 16 (f.low / 4 * 4)) ((f.low / 2 % 2) == 1) f.last) word result regs.old regs.new }
{
    if leaves_count(word) {
        return branch_by_condition(regs, word);
    }
    if is_absolute(word) || is_last(word) {
        return branch_apart(regs, word);
    }
    let to = onward(regs.pc, near_displacement_of(word));
    branch_to(regs, word, to);
    Did::Next
}

/// The same where BO leaves the count register as it is.
#[inline(always)]
#[tactic(auto, using(big_memory::proofs::Free::nothing_free))]
fn branch_by_condition(regs: &mut RegsPpc, word: u32) -> Did
    requires { leaves_count_of (fields_of word).d ≡ true }
    ensures { let f = fields_of word in Runs (BranchConditional f.d f.a (displacement_of 16 (f.low / 4 * 4)) ((f.low / 2 % 2) == 1) f.last) word result regs.old regs.new }
{
    if ignores_condition(word) || is_absolute(word) || is_last(word) {
        return branch_apart(regs, word);
    }
    let distance = if is_condition_met(word, regs.cr) {
        near_displacement_of(word)
    } else {
        4
    };
    regs.pc = onward(regs.pc, distance);
    Did::Next
}

/// Whether BO leaves the count register as it is. Its bits are asked of the word itself, so that one test serves
/// several of them, with AA and LK.
#[inline(always)]
fn leaves_count(word: u32) -> bool
    ensures { result ≡ leaves_count_of (fields_of word).d }
{
    word / 0x80_0000 % 2 == 1
}

/// Whether BO lets any condition pass.
#[inline(always)]
fn ignores_condition(word: u32) -> bool
    ensures { result ≡ (digit_of (fields_of word).d 4 1 == 1) }
{
    word / 0x200_0000 % 2 == 1
}

/// Whether the condition at BI has the value that BO names.
#[inline(always)]
fn is_condition_met(word: u32, cr: u32) -> bool
    ensures { let f = fields_of word in result ≡ is_same (digit_of f.d 3 1 == 1) (bit_of cr f.a) }
{
    condition_at(cr, a_of(word) as u32) == word / 0x100_0000 % 2
}

/// A bit of the condition register as a number. It is shifted to the top and back, which takes least.
#[inline(always)]
fn condition_at(cr: u32, bit: u32) -> u32
    requires { bit < 32 }
    ensures { result ≡ digit_of cr (31 - bit) 1 }
{
    (cr << bit) / 0x8000_0000
}

/// bc in a place of its own, for the forms that programs use less.
#[inline(never)]
#[tactic(auto, using(big_memory::proofs::Free::nothing_free))]
fn branch_apart(regs: &mut RegsPpc, word: u32) -> Did
    ensures { let f = fields_of word in Runs (BranchConditional f.d f.a (displacement_of 16 (f.low / 4 * 4)) ((f.low / 2 % 2) == 1) f.last) word result regs.old regs.new }
{
    let to = branch_target(is_absolute(word), regs.pc, near_displacement_of(word));
    branch_to(regs, word, to);
    Did::Next
}

/// bclr and bcctr.
#[inline(always)]
#[tactic(auto, using(big_memory::proofs::Free::nothing_free))]
pub fn branch_conditional_to_register(
    regs: &mut RegsPpc,
    word: u32,
    register: BranchRegister,
) -> Did
    ensures { let f = fields_of word in Runs (BranchConditionalToRegister register f.d f.a f.last) word result regs.old regs.new }
{
    let to = match register {
        BranchRegister::Link => aligned(regs.lr),
        BranchRegister::Count => aligned(regs.ctr),
    };
    branch_to(regs, word, to);
    Did::Next
}

/// Counts down, links and goes to a target, each where BO and LK say so.
#[inline(always)]
fn branch_to(regs: &mut RegsPpc, word: u32, to: u32)
    ensures { regs.new ≡ branch_where regs.old (fields_of word).d (fields_of word).a (fields_of word).last to }
{
    let bo = d_of(word) as u32;
    let next = onward(regs.pc, 4);
    if is_last(word) {
        regs.lr = next;
    }
    let counts = count_down(bo, regs);
    let goes = counts && condition_allows(bo, cr_bit(regs.cr, a_of(word) as u32));
    regs.pc = if goes { to } else { next };
}

/// Counts the count register down where BO says so, and then whether it allows a branch.
#[inline(always)]
fn count_down(bo: u32, regs: &mut RegsPpc) -> bool
    requires { bo < 32 }
    ensures allows { result ≡ count_allows bo regs.new.ctr }
    ensures counted { regs.new ≡ record regs.old { ctr = counted bo regs.old } }
{
    if bo / 4 % 2 == 1 {
        true
    } else {
        regs.ctr = regs.ctr.wrapping_sub(1);
        (bo / 2 % 2 == 1) == (regs.ctr == 0)
    }
}

/// Whether a bit of the condition register allows a branch.
#[inline(always)]
fn condition_allows(bo: u32, condition: bool) -> bool
    requires { bo < 32 }
    ensures { result ≡ condition_allows_of bo condition }
{
    bo / 16 == 1 || (bo / 8 % 2 == 1) == condition
}
