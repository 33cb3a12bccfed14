// Loads and stores with their bytes in the other order.
ghost use Rattle.std.specs.Prelude.{◌≡◌, ◌^◌, ◌<◌};
ghost use Rattle.big_memory.specs.StepsClauses.{Does};
ghost use Rattle.ppc_isa.specs.Fields.{fields_of};
ghost use Rattle.ppc_integer.specs.Effects.{runs};
ghost use Rattle.ppc_integer.specs.Storage.{reversed as reversed_of, reversed_size};
ghost use Rattle.ppc_isa.specs.declared.instruction.InstrPpc.TheVariants.{Reversed};
ghost use Rattle.ppc_isa.specs.declared.instruction.ReversedAccess.TheVariants.{LoadReversed, StoreReversed};
ghost use Rattle.big_memory.specs.Memory.{loaded};
ghost use Rattle.big_memory.specs.StoresWhole.{Stores};
ghost use Rattle.big_memory.specs.Stores.{stored_value};

use big_memory::{Access, Did, Ram, refuse};
use mix_bits::Fault;
use ppc_integer::{advance, index_address};
use ppc_isa::{RegsPpc, ReversedKind, d_of};

/// lwbrx and lhbrx.
#[inline(never)]
#[tactic(auto, using(big_memory::proofs::Free::nothing_free))]
pub fn load_reversed(
    regs: &mut RegsPpc,
    ram: &Ram,
    fault: &mut Fault,
    word: u32,
    kind: ReversedKind,
) -> Did
    ensures { let f = fields_of word in Does (runs regs.old ram.now word (Reversed (LoadReversed kind f.d f.a f.b))) result fault.new regs.old regs.new ram.now ram.now }
{
    match read(ram, index_address(regs, word), kind) {
        Ok(v) => {
            regs.gpr[d_of(word)] = reversed(kind, v);
            advance(regs);
            Did::Next
        }
        Err(access) => refuse::<RegsPpc>(fault, regs.pc, access),
    }
}

/// stwbrx and sthbrx.
#[inline(never)]
pub fn store_reversed(
    regs: &mut RegsPpc,
    ram: &mut Ram,
    fault: &mut Fault,
    word: u32,
    kind: ReversedKind,
) -> Did
    ensures { let f = fields_of word in Does (runs regs.old ram.old word (Reversed (StoreReversed kind f.d f.a f.b))) result fault.new regs.old regs.new ram.old ram.new }
{
    let v = reversed(kind, regs.gpr[d_of(word)]);
    match write(ram, index_address(regs, word), kind, v) {
        Ok(()) => {
            advance(regs);
            Did::Next
        }
        Err(access) => refuse::<RegsPpc>(fault, regs.pc, access),
    }
}

/// The number in memory.
#[inline(always)]
fn read(ram: &Ram, at: u32, kind: ReversedKind) -> Result<u32, Access>
    ensures { result ≡ loaded ram.now at (reversed_size kind) }
{
    match kind {
        ReversedKind::Word => ram.load_long(at),
        ReversedKind::Half => ram.load_word(at),
    }
}

/// Stores the low bytes of a word.
#[inline(always)]
fn write(ram: &mut Ram, at: u32, kind: ReversedKind, v: u32) -> Result<(), Access>
    ensures { Stores result (stored_value ram.old at (reversed_size kind) v) ram.old ram.new }
{
    match kind {
        ReversedKind::Word => ram.store_long(at, v),
        ReversedKind::Half => ram.store_word(at, v),
    }
}

/// The low bytes of a word in the other order.
#[inline(always)]
fn reversed(kind: ReversedKind, v: u32) -> u32
    ensures { result ≡ reversed_of kind v }
{
    match kind {
        ReversedKind::Word => swapped(v % 0x1_0000) * 0x1_0000 + swapped(v / 0x1_0000),
        ReversedKind::Half => swapped(v % 0x1_0000),
    }
}

/// Two bytes in the other order.
#[inline(always)]
fn swapped(v: u32) -> u32
    requires { v < 2 ^ 16 }
    ensures is { result ≡ reversed_of ReversedKind.Half v }
    ensures below { result < 2 ^ 16 }
{
    v % 256 * 256 + v / 256
}
