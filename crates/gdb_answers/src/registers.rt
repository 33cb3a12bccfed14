//! Registers as gdb sees them: a process whose set is not active shows its innermost suspended caller.
ghost use Rattle.std.specs.Prelude.{◌≡◌, ◌++◌, OnOk, if◌then◌else◌};
ghost use Rattle.std.specs.List.{flat_map};
ghost use Rattle.switch_frame.specs.Chain.{Links, records};
ghost use Rattle.gdb_answers.specs.Registers.{cleared as cleared_file, in_order, long_text, long_there, place_of, register_text, registers_text, shown as shown_of, suspended as suspended_of};

use crate::parts::append_error;
use big_memory::Ram;
use gdb_packets::append_register;
use m68_isa::Regs68;
use mix_bits::{Isa, NoMemory, is_isa};
use ppc_isa::RegsPpc;
use switch_frame::{Active, outer_lo, top};

/// Where gdb's own numbers of the PowerPC's special registers begin, and how far behind the description's these are.
const OWN_NUMBERS: u32 = 64;

const OWN_NUMBERS_BEHIND: u32 = 32;

/// The registers of the process of a set, beside the running code and the suspended callers from the frame at `lo` on:
/// the pc of a suspended caller is behind its call.
pub fn shown(set: Isa, active: &Active, ram: &Ram, lo: u32) -> Active
    requires { Links ram.now lo (records ram.now.bytes lo) }
    ensures { result ≡ shown_of set active.now (records ram.now.bytes lo) }
{
    if is_isa(active.isa(), set) {
        *active
    } else {
        suspended(set, ram, lo)
    }
}

fn suspended(set: Isa, ram: &Ram, lo: u32) -> Active
    requires { Links ram.now lo (records ram.now.bytes lo) }
    ensures { result ≡ suspended_of set (records ram.now.bytes lo) }
{
    match top(ram, lo) {
        None => cleared(set),
        Some(held) => {
            if is_isa(held.caller.isa(), set) {
                held.caller
            } else {
                suspended(set, ram, outer_lo(ram, lo))
            }
        }
    }
}

fn cleared(set: Isa) -> Active
    ensures { result ≡ cleared_file set }
{
    match set {
        Isa::M68 => Active::M68(Regs68::cleared()),
        Isa::Ppc => Active::Ppc(RegsPpc::cleared()),
    }
}

/// Appends all registers.
pub fn append_registers(buffer: &mut Vec<u8>, file: &Active) -> Result<(), NoMemory>
    ensures { OnOk result (buffer.new.items ≡ buffer.old.items ++ registers_text file.now) }
{
    match file {
        Active::M68(regs) => append_longs(buffer, &longs_68k(regs)),
        Active::Ppc(regs) => append_longs(buffer, &longs_ppc(regs)),
    }
}

/// Appends the register with a number.
pub fn append_numbered(buffer: &mut Vec<u8>, file: &Active, number: u32) -> Result<(), NoMemory>
    ensures { OnOk result (buffer.new.items ≡ buffer.old.items ++ register_text number file.now) }
{
    match file {
        Active::M68(regs) => append_one(buffer, &longs_68k(regs), number),
        Active::Ppc(regs) => append_one(buffer, &longs_ppc(regs), described(number)),
    }
}

fn described(number: u32) -> u32
    ensures { result ≡ place_of Isa.Ppc number }
{
    if number >= OWN_NUMBERS {
        number - OWN_NUMBERS_BEHIND
    } else {
        number
    }
}

fn longs_68k(regs: &Regs68) -> [u32; 18]
    ensures { result ≡ in_order (Active.M68 regs.now) }
{
    let mut longs = [0; 18];
    longs[..8].copy_from_slice(&regs.d);
    longs[8..16].copy_from_slice(&regs.a);
    longs[16] = regs.ccr.bits();
    longs[17] = regs.pc;
    longs
}

fn longs_ppc(regs: &RegsPpc) -> [u32; 38]
    ensures { result ≡ in_order (Active.Ppc regs.now) }
{
    let mut longs = [0; 38];
    longs[..32].copy_from_slice(&regs.gpr);
    longs[32..].copy_from_slice(&[regs.pc, 0, regs.cr, regs.lr, regs.ctr, regs.xer]);
    longs
}

fn append_longs(buffer: &mut Vec<u8>, longs: &[u32]) -> Result<(), NoMemory>
    ensures { OnOk result (buffer.new.items ≡ buffer.old.items ++ flat_map long_text longs.now) }
{
    for long in longs {
        append_register(buffer, *long)?;
    }
    Ok(())
}

fn append_one(buffer: &mut Vec<u8>, longs: &[u32], place: u32) -> Result<(), NoMemory>
    ensures { OnOk result (buffer.new.items ≡ buffer.old.items ++ long_there longs.now place) }
{
    let place = place as usize;
    if place < longs.len() {
        append_register(buffer, longs[place])
    } else {
        append_error(buffer)
    }
}
