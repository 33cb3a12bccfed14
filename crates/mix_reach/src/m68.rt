// Where an instruction of 68K code stores.
ghost use Rattle.std.specs.Prelude.{◌≡◌, ◌<◌};
ghost use Rattle.m68_isa.specs.Decode.{decoded};
ghost use Rattle.m68_isa.specs.Fields.{HasDecoded, HasFields, HasRegisters};
ghost use Rattle.m68_ea.specs.Places.{address_of as address_of_operand};
ghost use Rattle.m68_ea.specs.Words.{words_at};
ghost use Rattle.m68_effects.specs.Bits.{bit_size as bit_size_of};
ghost use Rattle.m68_effects.specs.Parts.{partner as partner_of};
ghost use Rattle.mix_reach.specs.laws.Rows68.{at_place as at_place_of, behind as behind_of, below as below_of, branches as branches_of, if_into as if_into_of, into as into_of, jumps as jumps_of, links as links_of, pushes as pushes_of, several as several_of, stores as stores_of};

use crate::reach::{Reach, nothing, range};
use big_memory::Ram;
use m68_ea::{Place68, operand_law, place};
use m68_isa::{Decoded68, Ea, Instr68, JumpOp, Regs68, decode68};
use mix_bits::{Size, backward, onward};

/// The instruction at an address.
pub fn decode_at(ram: &Ram, pc: u32) -> Decoded68
    ensures value { result ≡ decoded (words_at ram.now pc) }
    ensures fields { HasDecoded result }
{
    let second_at = onward(pc, 2);
    let third_at = onward(second_at, 2);
    let fourth_at = onward(third_at, 2);
    let fifth_at = onward(fourth_at, 2);
    let Ok(first) = ram.load_word(pc) else {
        return decode68(&[]);
    };
    let Ok(second) = ram.load_word(second_at) else {
        return decode68(&[first as u16]);
    };
    let Ok(third) = ram.load_word(third_at) else {
        return decode68(&[first as u16, second as u16]);
    };
    let Ok(fourth) = ram.load_word(fourth_at) else {
        return decode68(&[first as u16, second as u16, third as u16]);
    };
    let Ok(fifth) = ram.load_word(fifth_at) else {
        return decode68(&[first as u16, second as u16, third as u16, fourth as u16]);
    };
    decode68(&[
        first as u16,
        second as u16,
        third as u16,
        fourth as u16,
        fifth as u16,
    ])
}

/// Where an instruction stores, if it is done.
pub fn stores(regs: &Regs68, instruction: Instr68) -> Reach
    requires { HasFields instruction }
    ensures { result ≡ stores_of regs.now instruction }
{
    match instruction {
        Instr68::Immediate { size, to, .. } => into(regs, size, to),
        Instr68::BitByRegister { to, .. } => into(regs, bit_size(to), to),
        Instr68::BitByNumber { to, .. } => into(regs, bit_size(to), to),
        Instr68::Movep { base, disp, .. } => range(onward(regs.a[base as usize], disp), 16),
        Instr68::Move { size, from, to } => behind(regs, size, from, to),
        Instr68::Negx { size, to } => into(regs, size, to),
        Instr68::Clr { size, to } => into(regs, size, to),
        Instr68::Neg { size, to } => into(regs, size, to),
        Instr68::Not { size, to } => into(regs, size, to),
        Instr68::MoveFromSr { to } => into(regs, Size::Two, to),
        Instr68::Nbcd { to } => into(regs, Size::One, to),
        Instr68::Pea { .. } => pushes(regs),
        Instr68::MovemToMemory { size, to, .. } => several(regs, size, to),
        Instr68::Tas { to } => into(regs, Size::One, to),
        Instr68::Link { .. } => links(regs),
        Instr68::LinkLong { .. } => links(regs),
        Instr68::Jump { op, .. } => jumps(regs, op),
        Instr68::Quick { size, to, .. } => into(regs, size, to),
        Instr68::Scc { to, .. } => into(regs, Size::One, to),
        Instr68::Bcc { condition, .. } => branches(regs, condition),
        Instr68::BccLong { condition, .. } => branches(regs, condition),
        Instr68::Or {
            size,
            to_memory,
            operand,
            ..
        } => if_into(to_memory, regs, size, operand),
        Instr68::Sbcd { memory, from, to } => pair(regs, Size::One, memory, from, to),
        Instr68::Sub {
            size,
            to_memory,
            operand,
            ..
        } => if_into(to_memory, regs, size, operand),
        Instr68::Subx {
            size,
            memory,
            from,
            to,
        } => pair(regs, size, memory, from, to),
        Instr68::Eor { size, to, .. } => into(regs, size, to),
        Instr68::And {
            size,
            to_memory,
            operand,
            ..
        } => if_into(to_memory, regs, size, operand),
        Instr68::Abcd { memory, from, to } => pair(regs, Size::One, memory, from, to),
        Instr68::Add {
            size,
            to_memory,
            operand,
            ..
        } => if_into(to_memory, regs, size, operand),
        Instr68::Addx {
            size,
            memory,
            from,
            to,
        } => pair(regs, size, memory, from, to),
        Instr68::ShiftMemory { to, .. } => into(regs, Size::Two, to),
        _ => nothing(),
    }
}

/// A value at a place.
#[inline(always)]
pub fn at_place(at: Place68) -> Reach
    ensures { result ≡ at_place_of at }
{
    match at {
        Place68::Mem(a) => range(a, 4),
        _ => nothing(),
    }
}

fn into(regs: &Regs68, size: Size, to: Ea) -> Reach
    requires { HasRegisters to }
    ensures { result ≡ into_of regs.now size to }
{
    let mut found = *regs;
    operand_law(to);
    at_place(place(&mut found, to, size))
}

/// A destination that is found behind a source.
fn behind(regs: &Regs68, size: Size, from: Ea, to: Ea) -> Reach
    requires from { HasRegisters from }
    requires to { HasRegisters to }
    ensures { result ≡ behind_of regs.now size from to }
{
    let mut found = *regs;
    operand_law(from);
    let _source = place(&mut found, from, size);
    into(&found, size, to)
}

/// The second of two data registers, or of two values before addresses.
fn pair(regs: &Regs68, size: Size, memory: bool, from: u8, to: u8) -> Reach
    requires from { from < 8 }
    requires to { to < 8 }
    ensures { result ≡ behind_of regs.now size (partner_of memory from) (partner_of memory to) }
{
    behind(regs, size, partner(memory, from), partner(memory, to))
}

fn partner(memory: bool, n: u8) -> Ea
    requires { n < 8 }
    ensures is { result ≡ partner_of memory n }
    ensures registers { HasRegisters result }
{
    if memory { Ea::Pre(n) } else { Ea::Dn(n) }
}

fn if_into(to_memory: bool, regs: &Regs68, size: Size, to: Ea) -> Reach
    requires { HasRegisters to }
    ensures { result ≡ if_into_of to_memory regs.now size to }
{
    if to_memory {
        into(regs, size, to)
    } else {
        nothing()
    }
}

/// The long below the stack pointer.
pub fn pushes(regs: &Regs68) -> Reach
    ensures { result ≡ pushes_of regs.now }
{
    into(regs, Size::Four, Ea::Pre(7))
}

/// A jump to a subroutine pushes.
fn jumps(regs: &Regs68, op: JumpOp) -> Reach
    ensures { result ≡ jumps_of regs.now op }
{
    match op {
        JumpOp::Jsr => pushes(regs),
        JumpOp::Jmp => nothing(),
    }
}

/// So does BSR among the branches.
fn branches(regs: &Regs68, condition: u8) -> Reach
    ensures { result ≡ branches_of regs.now condition }
{
    if condition == 1 {
        pushes(regs)
    } else {
        nothing()
    }
}

/// LINK's old value, at the stack pointer as it is then.
pub fn links(regs: &Regs68) -> Reach
    ensures { result ≡ links_of regs.now }
{
    let mut found = *regs;
    let _pushed = place(&mut found, Ea::Pre(7), Size::Four);
    range(found.a[7], 4)
}

/// Several registers, from an address on, or downwards from one.
fn several(regs: &Regs68, size: Size, to: Ea) -> Reach
    requires { HasRegisters to }
    ensures { result ≡ several_of regs.now size to }
{
    match to {
        Ea::Pre(base) => below(backward(regs.a[base as usize], size.bytes())),
        _ => range(address_of(regs, to), 64),
    }
}

/// Values downwards, of which the first one stands at an address.
pub fn below(first: u32) -> Reach
    ensures { result ≡ below_of first }
{
    let first = first as usize;
    Reach {
        low: first.saturating_sub(64),
        high: first + 4,
    }
}

/// The address that a control mode gives.
fn address_of(regs: &Regs68, operand: Ea) -> u32
    requires { HasRegisters operand }
    ensures { result ≡ address_of_operand regs.now operand }
{
    let mut found = *regs;
    operand_law(operand);
    match place(&mut found, operand, Size::Zero) {
        Place68::Mem(a) => a,
        _ => 0,
    }
}

/// A bit of a long in a data register, else of a byte.
fn bit_size(operand: Ea) -> Size
    ensures { result ≡ bit_size_of operand }
{
    match operand {
        Ea::Dn(_) => Size::Four,
        _ => Size::One,
    }
}
