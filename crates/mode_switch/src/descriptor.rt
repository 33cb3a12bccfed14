// What code of either set wants at a routine descriptor.
ghost use Rattle.std.specs.Prelude.{◌≡◌, ℕ, ◌+◌, ◌≤◌, List, Result, length, Ok};
ghost use Rattle.mix_bits.specs.declared.fault.Fault.{Fault};
ghost use Rattle.big_memory.specs.Memory.{Memory};
ghost use Rattle.routine_desc.specs.declared.record.Rec.{Rec as ARec};
ghost use Rattle.routine_desc.specs.ReadClauses.{Counts};
ghost use Rattle.mode_switch.specs.Views.{wanted_of};
ghost use Rattle.mode_switch.specs.Wanted.{Want, settled, wants_desc as wants_desc_lem};

use crate::Wanted;
use crate::records::bad_desc;
use big_memory::Ram;
use routine_desc::{Rec, Signed, count_records, read_all};

/// So many records are few: most descriptors have one, and a fat one has two.
const FEW: u32 = 4;

/// Code that stands at its pc, and chooses among the records of a descriptor.
pub trait Asker {
    ghost at: { Self → ℕ };

    ghost takes_of: { Self → Memory → List ARec → Result Want Fault };

    /// Its pc.
    fn pc(&self) -> u32
        ensures { result ≡ at self.now };

    /// What it wants of the records, put in place.
    fn takes(&self, ram: &Ram, records: &[Rec], signed: &Signed, wanted: &mut Wanted)
        ensures { wanted_of wanted.new ≡ settled (takes_of self.now ram.now records.now) };
}

/// What it wants at the descriptor at `pointer`, put in place.
#[inline(always)]
pub fn wants_desc<A: Asker>(ram: &Ram, asker: &A, pointer: u32, wanted: &mut Wanted)
    ensures { wanted_of wanted.new ≡ settled (wants_desc_lem ram.now (A.at asker.now) pointer (A.takes_of asker.now ram.now)) }
{
    match count_records(ram, pointer) {
        Ok(1) => wants_of_one(ram, asker, pointer, wanted),
        Ok(count) if count <= FEW => wants_of_few(ram, asker, pointer, count, wanted),
        Ok(count) => wants_of_many(ram, asker, pointer, count, wanted),
        Err(bad) => *wanted = Wanted::Refuses(bad_desc(asker.pc(), pointer, bad)),
    }
}

/// What it wants at a descriptor of one record.
#[inline(always)]
fn wants_of_one<A: Asker>(ram: &Ram, asker: &A, pointer: u32, wanted: &mut Wanted)
    requires header { Counts ram.now pointer (Ok 1) }
    requires within { pointer + 12 ≤ length ram.now.bytes }
    ensures { wanted_of wanted.new ≡ settled (wants_desc_lem ram.now (A.at asker.now) pointer (A.takes_of asker.now ram.now)) }
{
    let mut records = [Rec::empty()];
    wants_in(ram, asker, pointer, &mut records, wanted);
}

/// What it wants at a descriptor of few records.
#[inline(never)]
fn wants_of_few<A: Asker>(ram: &Ram, asker: &A, pointer: u32, count: u32, wanted: &mut Wanted)
    requires header { Counts ram.now pointer (Ok count) }
    requires within { pointer + 12 ≤ length ram.now.bytes }
    requires few { count ≤ 4 }
    ensures { wanted_of wanted.new ≡ settled (wants_desc_lem ram.now (A.at asker.now) pointer (A.takes_of asker.now ram.now)) }
{
    let empty = Rec::empty();
    let mut records = [empty; 4];
    wants_in(ram, asker, pointer, &mut records[..count as usize], wanted);
}

/// What it wants at a descriptor of any number of records.
#[inline(never)]
fn wants_of_many<A: Asker>(ram: &Ram, asker: &A, pointer: u32, count: u32, wanted: &mut Wanted)
    requires header { Counts ram.now pointer (Ok count) }
    requires within { pointer + 12 ≤ length ram.now.bytes }
    requires few { count ≤ 64 }
    ensures { wanted_of wanted.new ≡ settled (wants_desc_lem ram.now (A.at asker.now) pointer (A.takes_of asker.now ram.now)) }
{
    let empty = Rec::empty();
    let mut records = [empty; 64];
    wants_in(ram, asker, pointer, &mut records[..count as usize], wanted);
}

/// What it wants at a descriptor, which is read into a list with a place for each record.
#[inline(always)]
fn wants_in<A: Asker>(ram: &Ram, asker: &A, pointer: u32, records: &mut [Rec], wanted: &mut Wanted)
    requires header { Counts ram.now pointer (Ok (length records.old)) }
    requires within { pointer + 12 ≤ length ram.now.bytes }
    requires few { length records.old ≤ 64 }
    ensures { wanted_of wanted.new ≡ settled (wants_desc_lem ram.now (A.at asker.now) pointer (A.takes_of asker.now ram.now)) }
{
    let mut signed = Signed::empty();
    match read_all(ram, pointer, records, &mut signed) {
        Ok(()) => asker.takes(ram, records, &signed, wanted),
        Err(bad) => *wanted = Wanted::Refuses(bad_desc(asker.pc(), pointer, bad)),
    }
}
