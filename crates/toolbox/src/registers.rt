// Operands from registers, and results into them.
ghost use Rattle.std.specs.Prelude.{◌≡◌};
ghost use Rattle.toolbox.specs.Registers.{answered, at_link, codes_of_word, operands_of as operands_in, value_in, with_codes, with_gprs, with_register, with_registers, with_stack};
ghost use Rattle.toolbox.specs.inner.Parts.{with_results};

use crate::function::Function;
use crate::table::{PpcResults, Register};
use crate::values::{Operands, Results};
use m68_isa::{Ccr, Regs68};
use mix_bits::{aligned, onward};
use ppc_isa::RegsPpc;
use switch_frame::Active;

/// The operands of a call.
#[inline(always)]
pub fn operands_of(function: Function, active: &Active) -> Operands
    ensures { result ≡ operands_in function active.now }
{
    match active {
        Active::M68(regs) => operands_68k(function, regs),
        Active::Ppc(regs) => three(regs.gpr[3], regs.gpr[4], regs.gpr[5]),
    }
}

#[inline(always)]
fn operands_68k(function: Function, regs: &Regs68) -> Operands
    ensures { result ≡ operands_in function (Active.M68 regs.now) }
{
    let (first, second, third) = function.row().operands;
    three(value(regs, first), value(regs, second), value(regs, third))
}

/// The value of a register, 0 where there is none.
#[inline(always)]
fn value(regs: &Regs68, register: Option<Register>) -> u32
    ensures { result ≡ value_in regs.now register }
{
    match register {
        None => 0,
        Some(Register::D0) => regs.d[0],
        Some(Register::D1) => regs.d[1],
        Some(Register::A0) => regs.a[0],
        Some(Register::A1) => regs.a[1],
    }
}

fn three(first: u32, second: u32, third: u32) -> Operands
    ensures { result ≡ record { first = first; second = second; third = third } }
{
    Operands {
        first,
        second,
        third,
    }
}

/// Gives the results of a call, and goes on behind it.
#[inline(always)]
pub fn settle(function: Function, active: &mut Active, results: Results)
    ensures { active.new ≡ answered function results active.old }
{
    match active {
        Active::M68(regs) => settle_68k(function, regs, results),
        Active::Ppc(regs) => settle_ppc(function, regs, results),
    }
}

#[inline(always)]
fn settle_68k(function: Function, regs: &mut Regs68, results: Results)
    ensures { Active.M68 regs.new ≡ answered function results (Active.M68 regs.old) }
{
    give_registers(function, regs, results);
    pop_operand(function, regs);
    set_codes(function, regs);
    regs.pc = onward(regs.pc, 2);
}

#[inline(always)]
fn give_registers(function: Function, regs: &mut Regs68, results: Results)
    ensures { regs.new ≡ with_registers function results regs.old }
{
    let (first, second) = function.row().results;
    give(regs, first, results.first);
    give(regs, second, results.second);
}

/// An operand on the stack is a long, which the trap removes.
#[inline(always)]
fn pop_operand(function: Function, regs: &mut Regs68)
    ensures { regs.new ≡ with_stack function regs.old }
{
    if function.row().pops {
        regs.a[7] = onward(regs.a[7], 4);
    }
}

#[inline(always)]
fn set_codes(function: Function, regs: &mut Regs68)
    ensures { regs.new ≡ with_codes function regs.old }
{
    if function.row().sets_codes {
        regs.ccr = codes_of(regs.d[0] % 0x1_0000, regs.ccr);
    }
}

/// Puts a result into its register, where it has one.
#[inline(always)]
fn give(regs: &mut Regs68, register: Option<Register>, value: u32)
    ensures { regs.new ≡ with_register register value regs.old }
{
    match register {
        None => {}
        Some(Register::D0) => regs.d[0] = value,
        Some(Register::D1) => regs.d[1] = value,
        Some(Register::A0) => regs.a[0] = value,
        Some(Register::A1) => regs.a[1] = value,
    }
}

/// The condition codes of a word: N and Z by its value, V and C cleared.
fn codes_of(word: u32, ccr: Ccr) -> Ccr
    ensures { result ≡ codes_of_word word ccr }
{
    Ccr {
        x: ccr.x,
        n: 0x8000 <= word,
        z: word == 0,
        v: false,
        c: false,
    }
}

#[inline(always)]
fn settle_ppc(function: Function, regs: &mut RegsPpc, results: Results)
    ensures { regs.new ≡ at_link (with_results function results regs.old) }
{
    give_gprs(function.row().ppc_results, regs, results);
    regs.pc = aligned(regs.lr);
}

#[inline(always)]
fn give_gprs(which: PpcResults, regs: &mut RegsPpc, results: Results)
    ensures { regs.new ≡ with_gprs which results regs.old }
{
    match which {
        PpcResults::Nothing => {}
        PpcResults::R3 => regs.gpr[3] = results.first,
        PpcResults::R3AndR4 => give_two(regs, results),
    }
}

/// An error and an answer.
#[inline(always)]
fn give_two(regs: &mut RegsPpc, results: Results)
    ensures { regs.new ≡ with_gprs PpcResults.R3AndR4 results regs.old }
{
    regs.gpr[3] = results.first;
    regs.gpr[4] = results.second;
}
