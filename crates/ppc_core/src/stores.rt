// Stores.
ghost use Rattle.std.specs.Prelude.{◌≡◌};
ghost use Rattle.big_memory.specs.StepsClauses.{Does};
ghost use Rattle.ppc_isa.specs.Fields.{fields_of};
ghost use Rattle.ppc_integer.specs.Effects.{runs};
ghost use Rattle.ppc_integer.specs.Storage.{store as store_of, store_size as store_size_of, updated};
ghost use Rattle.ppc_isa.specs.declared.instruction.InstrPpc.TheVariants.{Store, StoreIndexed};
ghost use Rattle.ppc_integer.specs.File.{onto_next};

use big_memory::{Did, Ram, refuse};
use mix_bits::{Fault, Size};
use ppc_integer::{advance, index_address, offset_address};
use ppc_isa::{RegsPpc, StoreKind, a_of, d_of};

/// stw, stb and sth, and with `update` stwu, stbu and sthu.
#[inline(always)]
pub fn store(
    regs: &mut RegsPpc,
    ram: &mut Ram,
    fault: &mut Fault,
    word: u32,
    kind: StoreKind,
    update: bool,
) -> Did
    ensures { let f = fields_of word in Does (runs regs.old ram.old word (Store kind update f.d f.a f.low)) result fault.new regs.old regs.new ram.old ram.new }
{
    let at = offset_address(regs, word);
    store_at(regs, ram, fault, word, kind, update, at)
}

/// stwx, stbx and sthx, and with `update` stwux, stbux and sthux.
#[inline(always)]
pub fn store_indexed(
    regs: &mut RegsPpc,
    ram: &mut Ram,
    fault: &mut Fault,
    word: u32,
    kind: StoreKind,
    update: bool,
) -> Did
    ensures { let f = fields_of word in Does (runs regs.old ram.old word (StoreIndexed kind update f.d f.a f.b)) result fault.new regs.old regs.new ram.old ram.new }
{
    let at = index_address(regs, word);
    if update {
        store_apart(regs, ram, fault, word, kind, update, at)
    } else {
        store_at(regs, ram, fault, word, kind, update, at)
    }
}

/// Stores the low bytes of register S at an address.
#[inline(always)]
fn store_at(
    regs: &mut RegsPpc,
    ram: &mut Ram,
    fault: &mut Fault,
    word: u32,
    kind: StoreKind,
    update: bool,
    at: u32,
) -> Did
    ensures { Does (store_of regs.old ram.old kind update (fields_of word).d (fields_of word).a at) result fault.new regs.old regs.new ram.old ram.new }
{
    if ram.store_if_open(at, store_size(kind), regs.gpr[d_of(word)]) {
        stored(regs, word, update, at)
    } else {
        store_apart(regs, ram, fault, word, kind, update, at)
    }
}

/// The same in a place of its own, at any address and for the forms that programs use less.
#[inline(never)]
fn store_apart(
    regs: &mut RegsPpc,
    ram: &mut Ram,
    fault: &mut Fault,
    word: u32,
    kind: StoreKind,
    update: bool,
    at: u32,
) -> Did
    ensures { Does (store_of regs.old ram.old kind update (fields_of word).d (fields_of word).a at) result fault.new regs.old regs.new ram.old ram.new }
{
    match ram.store_value(at, store_size(kind), regs.gpr[d_of(word)]) {
        Ok(()) => stored(regs, word, update, at),
        Err(access) => refuse::<RegsPpc>(fault, regs.pc, access),
    }
}

/// How many bytes a store takes.
#[inline(always)]
fn store_size(kind: StoreKind) -> Size
    ensures { result ≡ store_size_of kind }
{
    match kind {
        StoreKind::Word => Size::Four,
        StoreKind::Byte => Size::One,
        StoreKind::Half => Size::Two,
    }
}

/// Ends the step of a store that is done: with `update` register A takes the address.
#[inline(always)]
fn stored(regs: &mut RegsPpc, word: u32, update: bool, at: u32) -> Did
    ensures next { result ≡ Did.Next }
    ensures is { regs.new ≡ onto_next (updated update (fields_of word).a at regs.old) }
{
    if update {
        regs.gpr[a_of(word)] = at;
    }
    advance(regs);
    Did::Next
}
