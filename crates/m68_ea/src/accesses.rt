ghost use Rattle.std.specs.Prelude.{◌≡◌, ◌<◌, IfSome};
ghost use Rattle.mix_bits.specs.Sizes.{modulus};
ghost use Rattle.big_memory.specs.Faults.{fault_of};
ghost use Rattle.m68_ea.specs.AccessesClauses.{Writes};
ghost use Rattle.m68_ea.specs.Accesses.{read_at as read_at_of, write_at as write_at_of};
ghost use Rattle.m68_ea.specs.Finds.{Gives, Stored};
ghost use Rattle.m68_ea.specs.Operands.{loaded_at, stored_at};
ghost use Rattle.m68_ea.specs.PlacesClauses.{HasRegister, IsWritable};

use super::places::Place68;
use big_memory::{Access, Ram};
use m68_isa::Regs68;
use mix_bits::{Fault, Size, sext, trunc, with_low};

/// The value at a place, cut to the size.
pub fn read_at(regs: &Regs68, ram: &Ram, p: Place68, s: Size) -> Result<u32, Access>
    requires { HasRegister p }
    ensures { result ≡ read_at_of regs.now ram.now p s }
{
    match p {
        Place68::Dn(n) => Ok(trunc(regs.d[n as usize], s)),
        Place68::An(n) => Ok(trunc(regs.a[n as usize], s)),
        Place68::Mem(a) => ram.load(a, s),
        Place68::Imm(value) => Ok(trunc(value, s)),
    }
}

/// Writes a value at a place: the low bytes of a data register, all of an address register, into which
/// a word goes with its sign. A refusal changes nothing.
pub fn write_at(regs: &mut Regs68, ram: &mut Ram, p: Place68, s: Size, v: u32) -> Result<(), Access>
    requires register { HasRegister p }
    requires writable { IsWritable p }
    ensures { Writes (write_at_of regs.old ram.old p s v) result regs.old ram.old regs.new ram.new }
{
    match p {
        Place68::Dn(n) => {
            regs.d[n as usize] = with_low(regs.d[n as usize], v, s);
            Ok(())
        }
        Place68::An(n) => {
            regs.a[n as usize] = sext(v, s);
            Ok(())
        }
        Place68::Mem(a) => ram.store_value(a, s, v),
        Place68::Imm(_) => unreachable!(),
    }
}

/// The value at an address, for the instruction at `pc`; or its fault, in the cell.
#[inline(always)]
pub fn load(ram: &Ram, fault: &mut Fault, pc: u32, a: u32, size: Size) -> Option<u32>
    ensures is { Gives (loaded_at pc ram.now a size) result fault.new }
    ensures below { IfSome result (λ v. v < modulus size) }
{
    match ram.load(a, size) {
        Ok(value) => Some(value),
        Err(access) => {
            refuse(fault, pc, access);
            None
        }
    }
}

/// Stores a value at an address, for the instruction at `pc`, and tells whether it did; or its fault is in
/// the cell.
#[inline(always)]
pub fn store(ram: &mut Ram, fault: &mut Fault, pc: u32, a: u32, size: Size, value: u32) -> bool
    ensures { Stored (stored_at pc ram.old a size value) result fault.new ram.old ram.new }
{
    match ram.store_value(a, size, value) {
        Ok(()) => true,
        Err(access) => {
            refuse(fault, pc, access);
            false
        }
    }
}

/// The fault of an access that memory refuses.
#[cold]
#[inline(never)]
fn refuse(fault: &mut Fault, pc: u32, access: Access)
    ensures { fault.new ≡ fault_of pc access }
{
    *fault = access.fault(pc);
}
