// Loads and stores of several registers.
ghost use Rattle.std.specs.Prelude.{◌≡◌, ◌+◌, ◌-◌, ◌*◌, ◌<◌, ◌≤◌, length, Ok};
ghost use Rattle.big_memory.specs.Memory.{IsRam};
ghost use Rattle.big_memory.specs.StepsClauses.{Does};
ghost use Rattle.ppc_isa.specs.Fields.{fields_of};
ghost use Rattle.ppc_integer.specs.Effects.{runs};
ghost use Rattle.ppc_integer.specs.Strings.{in_order, load_multiple as load_multiple_of, load_word};
ghost use Rattle.ppc_isa.specs.declared.instruction.InstrPpc.TheVariants.{Multiple};
ghost use Rattle.ppc_isa.specs.declared.instruction.MultipleAccess.TheVariants.{LoadMultiple, StoreMultiple};
ghost use Rattle.ppc_core.specs.inner.Tested.{WordsTested, WordsThere};

use big_memory::{Access, Did, Ram, refuse};
use mix_bits::{Fault, onward};
use ppc_integer::{advance, offset_address};
use ppc_isa::{RegsPpc, d_of};

/// lmw.
#[inline(never)]
pub fn load_multiple(regs: &mut RegsPpc, ram: &Ram, fault: &mut Fault, word: u32) -> Did
    ensures { let f = fields_of word in Does (runs regs.old ram.now word (Multiple (LoadMultiple f.d f.a f.low))) result fault.new regs.old regs.new ram.now ram.now }
{
    let at = offset_address(regs, word);
    load_registers(regs, ram, fault, d_of(word), at)
}

/// stmw.
#[inline(never)]
pub fn store_multiple(regs: &mut RegsPpc, ram: &mut Ram, fault: &mut Fault, word: u32) -> Did
    ensures { let f = fields_of word in Does (runs regs.old ram.old word (Multiple (StoreMultiple f.d f.a f.low))) result fault.new regs.old regs.new ram.old ram.new }
{
    let at = offset_address(regs, word);
    match ram.store_longs(at, &regs.gpr[d_of(word)..]) {
        Ok(()) => {
            advance(regs);
            Did::Next
        }
        Err(access) => refuse::<RegsPpc>(fault, regs.pc, access),
    }
}

/// Loads the registers from `first` on.
#[tactic(auto, using(big_memory::proofs::Free::nothing_free))]
fn load_registers(regs: &mut RegsPpc, ram: &Ram, fault: &mut Fault, first: usize, at: u32) -> Did
    requires { first < 32 }
    ensures { Does (load_multiple_of regs.old ram.now first at) result fault.new regs.old regs.new ram.now ram.now }
{
    ram.meets_invariant();
    if ram.has(at, 4 * (32 - first as u32)) {
        load_whole(ram, at, first, &mut regs.gpr);
        advance(regs);
        Did::Next
    } else {
        load_each(regs, ram, fault, first, at)
    }
}

/// The same, one after another, where they don't lie in memory as one piece.
#[cold]
#[inline(never)]
#[tactic(auto, using(big_memory::proofs::Free::nothing_free))]
fn load_each(regs: &mut RegsPpc, ram: &Ram, fault: &mut Fault, first: usize, at: u32) -> Did
    requires { first < 32 }
    ensures { Does (load_multiple_of regs.old ram.now first at) result fault.new regs.old regs.new ram.now ram.now }
{
    match test_words(ram, at, 32 - first as u32) {
        Ok(()) => {
            load_words(ram, at, first, &mut regs.gpr);
            advance(regs);
            Did::Next
        }
        Err(access) => refuse::<RegsPpc>(fault, regs.pc, access),
    }
}

/// Loads words, which lie in memory, into the registers from `first` on.
#[inline(always)]
fn load_whole(ram: &Ram, at: u32, first: usize, gpr: &mut [u32; 32])
    requires ram { IsRam ram.now }
    requires register { first < 32 }
    requires within { at + 4 * (32 - first) ≤ length ram.now.bytes }
    ensures { in_order (load_word ram.now at first) gpr.old (32 - first) ≡ Ok gpr.new }
{
    ram.read_longs(at, &mut gpr[first..]);
}

/// Whether words one after another can be loaded, or the first refusal.
fn test_words(ram: &Ram, at: u32, count: u32) -> Result<(), Access>
    requires { count ≤ 32 }
    ensures { WordsTested ram.now at count result }
{
    for k in 0..count {
        ram.load_long(onward(at, 4 * k))?;
    }
    Ok(())
}

/// Loads words one after another into the registers from `first` on.
fn load_words(ram: &Ram, at: u32, first: usize, gpr: &mut [u32; 32])
    requires register { first < 32 }
    requires there { WordsThere ram.now at (32 - first) }
    ensures { in_order (load_word ram.now at first) gpr.old (32 - first) ≡ Ok gpr.new }
{
    for k in 0..32 - first {
        if let Ok(v) = ram.load_long(onward(at, 4 * k as u32)) {
            gpr[first + k] = v;
        }
    }
}
