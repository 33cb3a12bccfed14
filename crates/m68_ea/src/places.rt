ghost use Rattle.std.specs.Prelude.{◌≡◌, ◌<◌};
ghost use Rattle.m68_ea.specs.PlacesClauses.{HasNumbers};
ghost use Rattle.m68_ea.specs.Places.{index_register as index_register_of, index_value as index_value_of, indexed as indexed_of, placed, step_of};

use super::words::extended_low;
use m68_isa::{Ea, Index, Regs68};
use mix_bits::{Size, backward};

/// Where an operand stands. A register is a number below 8.
#[derive(Clone, Copy)]
pub enum Place68 {
    /// A data register.
    Dn(u8),
    /// An address register.
    An(u8),
    /// Memory from this address on.
    Mem(u32),
    /// An immediate value, which can't be written.
    Imm(u32),
}

/// How far an increment or a decrement of an address register goes. A byte's is 2 for A7, so that the
/// stack pointer stays even.
#[inline(always)]
pub fn step(register: usize, size: Size) -> u32
    ensures { result ≡ step_of register size }
{
    match size {
        Size::Zero => 0,
        Size::One => { if register == 7 { 2 } else { 1 } }
        Size::Two => 2,
        Size::Four => 4,
    }
}

/// Finds where an operand stands, and applies its increment or decrement. `regs.pc` is the address of
/// the instruction's first word.
pub fn place(regs: &mut Regs68, ea: Ea, s: Size) -> Place68
    requires { HasNumbers ea }
    ensures { (regs.new, result) ≡ placed regs.old ea s }
{
    match ea {
        Ea::Dn(n) => Place68::Dn(n),
        Ea::An(n) => Place68::An(n),
        Ea::Ind(n) => Place68::Mem(regs.a[n as usize]),
        Ea::Post(n) => {
            let at = regs.a[n as usize];
            regs.a[n as usize] = at.wrapping_add(step(n as usize, s));
            Place68::Mem(at)
        }
        Ea::Pre(n) => {
            let at = backward(regs.a[n as usize], step(n as usize, s));
            regs.a[n as usize] = at;
            Place68::Mem(at)
        }
        Ea::Disp(n, disp) => Place68::Mem(regs.a[n as usize].wrapping_add(disp)),
        Ea::Indexed(n, index) => Place68::Mem(indexed(regs, regs.a[n as usize], index)),
        Ea::AbsWord(at) => Place68::Mem(at),
        Ea::AbsLong(at) => Place68::Mem(at),
        Ea::PcDisp(at, disp) => Place68::Mem(regs.pc.wrapping_add(at).wrapping_add(disp)),
        Ea::PcIndexed(at, index) => Place68::Mem(indexed(regs, regs.pc.wrapping_add(at), index)),
        Ea::Imm(value) => Place68::Imm(value),
    }
}

/// A base, and what an index word adds to it.
#[inline(always)]
pub fn indexed(regs: &Regs68, base: u32, index: Index) -> u32
    requires { index.reg < 8 }
    ensures { result ≡ indexed_of regs.now base index }
{
    base.wrapping_add(index.disp)
        .wrapping_add(index_value(regs, index).wrapping_mul(index.scale))
}

/// An index register, or its low word with its sign.
#[inline(always)]
fn index_value(regs: &Regs68, index: Index) -> u32
    requires { index.reg < 8 }
    ensures { result ≡ index_value_of regs.now index }
{
    let register = index_register(regs, index);
    if index.long {
        register
    } else {
        extended_low(register)
    }
}

/// All of an index register.
#[inline(always)]
fn index_register(regs: &Regs68, index: Index) -> u32
    requires { index.reg < 8 }
    ensures { result ≡ index_register_of regs.now index }
{
    if index.address {
        regs.a[index.reg as usize]
    } else {
        regs.d[index.reg as usize]
    }
}
