// Loads.
ghost use Rattle.std.specs.Prelude.{◌≡◌};
ghost use Rattle.big_memory.specs.StepsClauses.{Does};
ghost use Rattle.ppc_isa.specs.Fields.{fields_of};
ghost use Rattle.ppc_integer.specs.Effects.{runs};
ghost use Rattle.ppc_integer.specs.Storage.{load as load_of, load_size as load_size_of, load_value as load_value_of};
ghost use Rattle.ppc_isa.specs.declared.instruction.InstrPpc.TheVariants.{Load, LoadIndexed};

use big_memory::{Did, Ram, refuse};
use mix_bits::{Fault, Size, sext};
use ppc_integer::{advance, index_address, offset_address};
use ppc_isa::{LoadKind, RegsPpc, a_of, d_of};

/// lwz, lbz, lhz and lha, and with `update` lwzu, lbzu, lhzu and lhau.
#[inline(always)]
pub fn load(
    regs: &mut RegsPpc,
    ram: &Ram,
    fault: &mut Fault,
    word: u32,
    kind: LoadKind,
    update: bool,
) -> Did
    ensures { let f = fields_of word in Does (runs regs.old ram.now word (Load kind update f.d f.a f.low)) result fault.new regs.old regs.new ram.now ram.now }
{
    let at = offset_address(regs, word);
    load_at(regs, ram, fault, word, kind, update, at)
}

/// lwzx, lbzx, lhzx and lhax, and with `update` lwzux, lbzux, lhzux and lhaux.
#[inline(always)]
pub fn load_indexed(
    regs: &mut RegsPpc,
    ram: &Ram,
    fault: &mut Fault,
    word: u32,
    kind: LoadKind,
    update: bool,
) -> Did
    ensures { let f = fields_of word in Does (runs regs.old ram.now word (LoadIndexed kind update f.d f.a f.b)) result fault.new regs.old regs.new ram.now ram.now }
{
    let at = index_address(regs, word);
    if update {
        load_apart(regs, ram, fault, word, kind, update, at)
    } else {
        load_at(regs, ram, fault, word, kind, update, at)
    }
}

/// Loads from an address into register D.
#[inline(always)]
#[tactic(auto, using(big_memory::proofs::Free::nothing_free))]
fn load_at(
    regs: &mut RegsPpc,
    ram: &Ram,
    fault: &mut Fault,
    word: u32,
    kind: LoadKind,
    update: bool,
    at: u32,
) -> Did
    ensures { Does (load_of regs.old ram.now kind update (fields_of word).d (fields_of word).a at) result fault.new regs.old regs.new ram.now ram.now }
{
    match ram.load(at, load_size(kind)) {
        Ok(v) => {
            if update {
                regs.gpr[a_of(word)] = at;
            }
            regs.gpr[d_of(word)] = load_value(kind, v);
            advance(regs);
            Did::Next
        }
        Err(access) => refuse::<RegsPpc>(fault, regs.pc, access),
    }
}

/// The same in a place of its own, for the forms that programs use less.
#[inline(never)]
fn load_apart(
    regs: &mut RegsPpc,
    ram: &Ram,
    fault: &mut Fault,
    word: u32,
    kind: LoadKind,
    update: bool,
    at: u32,
) -> Did
    ensures { Does (load_of regs.old ram.now kind update (fields_of word).d (fields_of word).a at) result fault.new regs.old regs.new ram.now ram.now }
{
    load_at(regs, ram, fault, word, kind, update, at)
}

/// How many bytes a load takes.
#[inline(always)]
fn load_size(kind: LoadKind) -> Size
    ensures { result ≡ load_size_of kind }
{
    match kind {
        LoadKind::Word => Size::Four,
        LoadKind::Byte => Size::One,
        LoadKind::Half => Size::Two,
        LoadKind::HalfAlgebraic => Size::Two,
    }
}

/// The word that a loaded number gives.
#[inline(always)]
fn load_value(kind: LoadKind, v: u32) -> u32
    ensures { result ≡ load_value_of kind v }
{
    match kind {
        LoadKind::Word => v,
        LoadKind::Byte => v,
        LoadKind::Half => v,
        LoadKind::HalfAlgebraic => sext(v, Size::Two),
    }
}
