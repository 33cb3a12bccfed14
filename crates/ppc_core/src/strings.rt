// Strings.
ghost use Rattle.std.specs.Prelude.{◌≡◌, ◌+◌, ◌-◌, ◌*◌, ◌/◌, ◌%◌, ◌^◌, ◌<◌, Ok};
ghost use Rattle.big_memory.specs.Memory.{IsRam};
ghost use Rattle.big_memory.specs.StepsClauses.{Does};
ghost use Rattle.ppc_isa.specs.Fields.{fields_of};
ghost use Rattle.ppc_integer.specs.Effects.{runs};
ghost use Rattle.big_memory.specs.StoresClauses.{OnlyFree};
ghost use Rattle.ppc_integer.specs.Strings.{fills as fills_lem, in_order, load_byte, load_string as load_string_of, store_byte, store_string as store_string_of, string_byte as string_byte_of, with_string_byte};
ghost use Rattle.ppc_isa.specs.declared.instruction.InstrPpc.TheVariants.{StringImmediate, StringIndexed};
ghost use Rattle.ppc_isa.specs.declared.instruction.StringImmediateAccess.TheVariants.{LoadStringImmediate, StoreStringImmediate};
ghost use Rattle.ppc_isa.specs.declared.instruction.StringIndexedAccess.TheVariants.{LoadStringIndexed, StoreStringIndexed};
ghost use Rattle.ppc_core.specs.inner.Tested.{BytesOpen, BytesTested, BytesThere, OpenTested};

use big_memory::{Access, Did, Ram, refuse, stop};
use mix_bits::{Fault, FaultKind, Size, digit, onward, with_digit};
use ppc_integer::{advance, base, index_address, xer_string_length};
use ppc_isa::{RegsPpc, a_of, b_of, d_of, is_filled, shift_of, string_length};

/// lswi.
#[inline(never)]
pub fn load_string_immediate(regs: &mut RegsPpc, ram: &Ram, fault: &mut Fault, word: u32) -> Did
    ensures { let f = fields_of word in Does (runs regs.old ram.now word (StringImmediate (LoadStringImmediate f.d f.a f.b))) result fault.new regs.old regs.new ram.now ram.now }
{
    let at = base(regs, a_of(word));
    load_string(
        regs,
        ram,
        fault,
        d_of(word),
        at,
        string_length(shift_of(word)),
    )
}

/// stswi.
#[inline(never)]
pub fn store_string_immediate(
    regs: &mut RegsPpc,
    ram: &mut Ram,
    fault: &mut Fault,
    word: u32,
) -> Did
    ensures { let f = fields_of word in Does (runs regs.old ram.old word (StringImmediate (StoreStringImmediate f.d f.a f.b))) result fault.new regs.old regs.new ram.old ram.new }
{
    let at = base(regs, a_of(word));
    store_string(
        regs,
        ram,
        fault,
        d_of(word),
        at,
        string_length(shift_of(word)),
    )
}

/// lswx.
#[inline(never)]
pub fn load_string_indexed(regs: &mut RegsPpc, ram: &Ram, fault: &mut Fault, word: u32) -> Did
    ensures { let f = fields_of word in Does (runs regs.old ram.now word (StringIndexed (LoadStringIndexed f.d f.a f.b))) result fault.new regs.old regs.new ram.now ram.now }
{
    let (first, length) = (d_of(word), xer_string_length(regs.xer));
    if fills(a_of(word), first, length) || fills(b_of(word), first, length) {
        stop::<RegsPpc>(fault, FaultKind::BadInstr, regs.pc, word)
    } else {
        let at = index_address(regs, word);
        load_string(regs, ram, fault, first, at, length)
    }
}

/// stswx.
#[inline(never)]
pub fn store_string_indexed(regs: &mut RegsPpc, ram: &mut Ram, fault: &mut Fault, word: u32) -> Did
    ensures { let f = fields_of word in Does (runs regs.old ram.old word (StringIndexed (StoreStringIndexed f.d f.a f.b))) result fault.new regs.old regs.new ram.old ram.new }
{
    let at = index_address(regs, word);
    let length = xer_string_length(regs.xer);
    store_string(regs, ram, fault, d_of(word), at, length)
}

/// Whether a string of `length` bytes fills a register.
fn fills(register: usize, first: usize, length: u32) -> bool
    requires register_in { register < 32 }
    requires first_in { first < 32 }
    requires length_in { length < 128 }
    ensures { result ≡ fills_lem register first length }
{
    is_filled(register, first, (length as usize + 3) / 4)
}

/// Loads a string into the registers from `first` on.
#[tactic(auto, using(big_memory::proofs::Free::nothing_free))]
fn load_string(
    regs: &mut RegsPpc,
    ram: &Ram,
    fault: &mut Fault,
    first: usize,
    at: u32,
    length: u32,
) -> Did
    requires register { first < 32 }
    requires short { length < 128 }
    ensures { Does (load_string_of regs.old ram.now first at length) result fault.new regs.old regs.new ram.now ram.now }
{
    match test_bytes(ram, at, length) {
        Ok(()) => {
            load_bytes(ram, at, first, length, &mut regs.gpr);
            advance(regs);
            Did::Next
        }
        Err(access) => refuse::<RegsPpc>(fault, regs.pc, access),
    }
}

/// Stores a string from the registers from `first` on.
fn store_string(
    regs: &mut RegsPpc,
    ram: &mut Ram,
    fault: &mut Fault,
    first: usize,
    at: u32,
    length: u32,
) -> Did
    requires register { first < 32 }
    requires short { length < 128 }
    ensures { Does (store_string_of regs.old ram.old first at length) result fault.new regs.old regs.new ram.old ram.new }
{
    ram.meets_invariant();
    match test_open(ram, at, length) {
        Ok(()) => {
            store_bytes(ram, at, first, length, &regs.gpr);
            advance(regs);
            Did::Next
        }
        Err(access) => refuse::<RegsPpc>(fault, regs.pc, access),
    }
}

/// Whether bytes one after another can be loaded, or the first refusal.
fn test_bytes(ram: &Ram, at: u32, length: u32) -> Result<(), Access>
    ensures { BytesTested ram.now at length result }
{
    ram.meets_invariant();
    if length > 0 && ram.has(at, length) {
        return Ok(());
    }
    for k in 0..length {
        ram.load_byte(onward(at, k))?;
    }
    Ok(())
}

/// Whether bytes one after another may be stored into, or the first refusal.
fn test_open(ram: &Ram, at: u32, length: u32) -> Result<(), Access>
    ensures { OpenTested ram.now at length result }
{
    ram.meets_invariant();
    if let Ok(()) = ram.probe(at, length) {
        return Ok(());
    }
    for k in 0..length {
        ram.probe(onward(at, k), 1)?;
    }
    Ok(())
}

/// Loads bytes one after another into the registers from `first` on: whole registers, then what is left.
fn load_bytes(ram: &Ram, at: u32, first: usize, length: u32, gpr: &mut [u32; 32])
    requires register { first < 32 }
    requires short { length < 128 }
    requires there { BytesThere ram.now at length }
    ensures { in_order (load_byte ram.now at first) gpr.old length ≡ Ok gpr.new }
{
    load_whole(ram, at, first, length / 4, gpr);
    for k in length / 4 * 4..length {
        if let Ok(byte) = ram.load_byte(onward(at, k)) {
            put_string_byte(gpr, first, k, byte);
        }
    }
}

/// Loads `count` whole registers from `first` on.
#[inline(always)]
fn load_whole(ram: &Ram, at: u32, first: usize, count: u32, gpr: &mut [u32; 32])
    requires register { first < 32 }
    requires short { count < 32 }
    requires there { BytesThere ram.now at (4 * count) }
    ensures { in_order (load_byte ram.now at first) gpr.old (4 * count) ≡ Ok gpr.new }
{
    ram.meets_invariant();
    for j in 0..count {
        gpr[(first + j as usize) % 32] = ram.read_long(onward(at, 4 * j));
    }
}

/// Stores bytes one after another from the registers from `first` on: whole registers, then what is left.
fn store_bytes(ram: &mut Ram, at: u32, first: usize, length: u32, gpr: &[u32; 32])
    requires register { first < 32 }
    requires short { length < 128 }
    requires ram { IsRam ram.old }
    requires stores { BytesOpen ram.old at length }
    ensures is { in_order (store_byte gpr.now first at) ram.old length ≡ Ok ram.new }
    ensures free { OnlyFree ram.old ram.new }
{
    store_whole(ram, at, first, length / 4, gpr);
    for k in length / 4 * 4..length {
        ram.put(onward(at, k), Size::One, string_byte(gpr, first, k));
    }
}

/// Stores `count` whole registers from `first` on.
#[inline(always)]
fn store_whole(ram: &mut Ram, at: u32, first: usize, count: u32, gpr: &[u32; 32])
    requires register { first < 32 }
    requires short { count < 32 }
    requires ram { IsRam ram.old }
    requires stores { BytesOpen ram.old at (4 * count) }
    ensures is { in_order (store_byte gpr.now first at) ram.old (4 * count) ≡ Ok ram.new }
    ensures free { OnlyFree ram.old ram.new }
{
    for j in 0..count {
        ram.put(
            onward(at, 4 * j),
            Size::Four,
            gpr[(first + j as usize) % 32],
        );
    }
}

/// Puts byte `k` of a string into its register, which is cleared before its first byte.
fn put_string_byte(gpr: &mut [u32; 32], first: usize, k: u32, byte: u32)
    requires register { first < 32 }
    requires short { k < 128 }
    requires byte { byte < 2 ^ 8 }
    ensures { gpr.new ≡ with_string_byte gpr.old first k byte }
{
    let register = (first + k as usize / 4) % 32;
    let old = if k % 4 == 0 { 0 } else { gpr[register] };
    gpr[register] = with_digit(old, 24 - 8 * (k % 4), 8, byte);
}

/// Byte `k` of a string in the registers from `first` on.
fn string_byte(gpr: &[u32; 32], first: usize, k: u32) -> u32
    requires register { first < 32 }
    requires short { k < 128 }
    ensures { result ≡ string_byte_of gpr.now first k }
{
    digit(gpr[(first + k as usize / 4) % 32], 24 - 8 * (k % 4), 8)
}
