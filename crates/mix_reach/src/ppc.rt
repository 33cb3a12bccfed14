// Where an instruction of PowerPC code stores.
ghost use Rattle.std.specs.Prelude.{◌≡◌};
ghost use Rattle.ppc_isa.specs.Fields.{fields_of};
ghost use Rattle.ppc_isa.specs.Rows.{decoded};
ghost use Rattle.ppc_integer.specs.Storage.{index_address as index_address_of, offset_address as offset_address_of};
ghost use Rattle.mix_reach.specs.laws.Ranges.{range as range_of};
ghost use Rattle.mix_reach.specs.Ranges.{stored_at};
ghost use Rattle.mix_reach.specs.laws.RowsPpc.{string_at as string_at_of};
ghost use Rattle.mix_reach.specs.laws.Steps.{word_decoded};

use crate::reach::{Reach, range};
use mix_bits::onward;
use ppc_integer::{base, index_address, offset_address, xer_string_length};
use ppc_isa::{OpPpc, RegsPpc, a_of, op_of, shift_of, string_length};

/// Where the instruction of a word stores, if it is done; None where it stores nowhere.
#[inline(always)]
pub fn stores(regs: &RegsPpc, word: u32) -> Option<Reach>
    ensures { word_decoded regs.now (decoded word) ≡ stored_at result }
{
    match op_of(word) {
        OpPpc::Stw => Some(at_offset(regs, word, 4)),
        OpPpc::Stwu => Some(at_offset(regs, word, 4)),
        OpPpc::Stb => Some(at_offset(regs, word, 4)),
        OpPpc::Stbu => Some(at_offset(regs, word, 4)),
        OpPpc::Sth => Some(at_offset(regs, word, 4)),
        OpPpc::Sthu => Some(at_offset(regs, word, 4)),
        OpPpc::Stmw => Some(at_offset(regs, word, 128)),
        OpPpc::Stwx => Some(at_index(regs, word)),
        OpPpc::Stwux => Some(at_index(regs, word)),
        OpPpc::Stbx => Some(at_index(regs, word)),
        OpPpc::Stbux => Some(at_index(regs, word)),
        OpPpc::Sthx => Some(at_index(regs, word)),
        OpPpc::Sthux => Some(at_index(regs, word)),
        OpPpc::Stwbrx => Some(at_index(regs, word)),
        OpPpc::Sthbrx => Some(at_index(regs, word)),
        OpPpc::Stswi => Some(string_at(base(regs, a_of(word)), string_length(shift_of(word)))),
        OpPpc::Stswx => Some(string_at(index_address(regs, word), xer_string_length(regs.xer))),
        _ => None,
    }
}

/// So many bytes at the address (A|0) and a signed offset.
#[inline(always)]
fn at_offset(regs: &RegsPpc, word: u32, n: u32) -> Reach
    ensures { result ≡ range_of (offset_address_of regs.now (fields_of word).a (fields_of word).low) n }
{
    range(offset_address(regs, word), n)
}

/// A value at the address (A|0) and register B.
#[inline(always)]
fn at_index(regs: &RegsPpc, word: u32) -> Reach
    ensures { result ≡ range_of (index_address_of regs.now (fields_of word).a (fields_of word).b) 4 }
{
    range(index_address(regs, word), 4)
}

/// The bytes of a string.
#[inline(always)]
fn string_at(at: u32, n: u32) -> Reach
    ensures { result ≡ string_at_of at n }
{
    range(onward(at, 0), n)
}
