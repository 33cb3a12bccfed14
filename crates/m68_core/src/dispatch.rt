// The operations of first words, one by one.
ghost use Rattle.big_memory.specs.StepsClauses.{Does};
ghost use Rattle.m68_effects.specs.laws.Ops.{by_op};
ghost use Rattle.m68_isa.specs.laws.Fits.{Fits};

use super::bits::{do_bit_by_number, do_bit_by_register};
use super::branches::{
    do_bcc_byte, do_bcc_long, do_bcc_word, do_bra_byte, do_bra_long, do_bra_word, do_bsr_byte,
    do_bsr_long, do_bsr_word, do_dbcc,
};
use super::jumps::{do_jmp, do_jsr, do_rtd, do_rtr, do_rts};
use super::logic::{
    do_and_to_memory, do_and_to_register, do_andi, do_eor, do_eori, do_not, do_or_to_memory,
    do_or_to_register, do_ori,
};
use super::shifts::{do_shift, do_shift_memory};
use super::traps::{do_illegal, do_line_a, do_line_f, do_nop, do_privileged, do_trap, do_trapv};
use big_memory::{Did, Ram};
use m68_arithmetic::{
    do_abcd, do_add_to_memory, do_add_to_register, do_adda, do_addi, do_addq, do_addx, do_chk,
    do_cmp, do_cmpa, do_cmpi, do_cmpm, do_div_long, do_divs, do_divu, do_mul_long, do_muls,
    do_mulu, do_nbcd, do_neg, do_negx, do_sbcd, do_sub_to_memory, do_sub_to_register, do_suba,
    do_subi, do_subq, do_subx,
};
use m68_isa::{Op68, Regs68};
use m68_movement::{
    do_clr, do_exg, do_ext, do_ext_byte, do_lea, do_link, do_link_long, do_logic_to_ccr,
    do_move_byte, do_move_from_sr, do_move_long, do_move_to_ccr, do_move_word, do_movea_long,
    do_movea_word, do_movem_from_memory, do_movem_to_memory, do_movep, do_moveq, do_pea, do_scc,
    do_swap, do_tas, do_tst, do_unlk,
};
use mix_bits::Fault;

/// Does what the operation of an instruction's first word does.
#[inline(always)]
pub fn run_op(regs: &mut Regs68, ram: &mut Ram, fault: &mut Fault, word: u32, op: Op68) -> Did
    requires { Fits op word }
    ensures { Does (by_op op regs.old ram.old word) result fault.new regs.old regs.new ram.old ram.new }
{
    match op {
        Op68::Ori => do_ori(regs, ram, fault, word),
        Op68::Andi => do_andi(regs, ram, fault, word),
        Op68::Subi => do_subi(regs, ram, fault, word),
        Op68::Addi => do_addi(regs, ram, fault, word),
        Op68::Eori => do_eori(regs, ram, fault, word),
        Op68::Cmpi => do_cmpi(regs, ram, fault, word),
        Op68::LogicToCcr => do_logic_to_ccr(regs, ram, fault, word),
        Op68::BitByNumber => do_bit_by_number(regs, ram, fault, word),
        Op68::BitByRegister => do_bit_by_register(regs, ram, fault, word),
        Op68::Movep => do_movep(regs, ram, fault, word),
        Op68::MoveByte => do_move_byte(regs, ram, fault, word),
        Op68::MoveWord => do_move_word(regs, ram, fault, word),
        Op68::MoveLong => do_move_long(regs, ram, fault, word),
        Op68::MoveaWord => do_movea_word(regs, ram, fault, word),
        Op68::MoveaLong => do_movea_long(regs, ram, fault, word),
        Op68::Negx => do_negx(regs, ram, fault, word),
        Op68::Clr => do_clr(regs, ram, fault, word),
        Op68::Neg => do_neg(regs, ram, fault, word),
        Op68::Not => do_not(regs, ram, fault, word),
        Op68::MoveFromSr => do_move_from_sr(regs, ram, fault, word),
        Op68::MoveToCcr => do_move_to_ccr(regs, ram, fault, word),
        Op68::Nbcd => do_nbcd(regs, ram, fault, word),
        Op68::Swap => do_swap(regs, ram, fault, word),
        Op68::Pea => do_pea(regs, ram, fault, word),
        Op68::Ext => do_ext(regs, ram, fault, word),
        Op68::ExtByte => do_ext_byte(regs, ram, fault, word),
        Op68::MovemToMemory => do_movem_to_memory(regs, ram, fault, word),
        Op68::MovemFromMemory => do_movem_from_memory(regs, ram, fault, word),
        Op68::MulLong => do_mul_long(regs, ram, fault, word),
        Op68::DivLong => do_div_long(regs, ram, fault, word),
        Op68::Tst => do_tst(regs, ram, fault, word),
        Op68::Tas => do_tas(regs, ram, fault, word),
        Op68::Trap => do_trap(regs, ram, fault, word),
        Op68::Link => do_link(regs, ram, fault, word),
        Op68::LinkLong => do_link_long(regs, ram, fault, word),
        Op68::Unlk => do_unlk(regs, ram, fault, word),
        Op68::Nop => do_nop(regs, ram, fault, word),
        Op68::Rtd => do_rtd(regs, ram, fault, word),
        Op68::Rts => do_rts(regs, ram, fault, word),
        Op68::Trapv => do_trapv(regs, ram, fault, word),
        Op68::Rtr => do_rtr(regs, ram, fault, word),
        Op68::Jsr => do_jsr(regs, ram, fault, word),
        Op68::Jmp => do_jmp(regs, ram, fault, word),
        Op68::Chk => do_chk(regs, ram, fault, word),
        Op68::Lea => do_lea(regs, ram, fault, word),
        Op68::Addq => do_addq(regs, ram, fault, word),
        Op68::Subq => do_subq(regs, ram, fault, word),
        Op68::Scc => do_scc(regs, ram, fault, word),
        Op68::Dbcc => do_dbcc(regs, ram, fault, word),
        Op68::BraByte => do_bra_byte(regs, ram, fault, word),
        Op68::BraWord => do_bra_word(regs, ram, fault, word),
        Op68::BraLong => do_bra_long(regs, ram, fault, word),
        Op68::BsrByte => do_bsr_byte(regs, ram, fault, word),
        Op68::BsrWord => do_bsr_word(regs, ram, fault, word),
        Op68::BsrLong => do_bsr_long(regs, ram, fault, word),
        Op68::BccByte => do_bcc_byte(regs, ram, fault, word),
        Op68::BccWord => do_bcc_word(regs, ram, fault, word),
        Op68::BccLong => do_bcc_long(regs, ram, fault, word),
        Op68::Moveq => do_moveq(regs, ram, fault, word),
        Op68::OrToRegister => do_or_to_register(regs, ram, fault, word),
        Op68::OrToMemory => do_or_to_memory(regs, ram, fault, word),
        Op68::Divu => do_divu(regs, ram, fault, word),
        Op68::Divs => do_divs(regs, ram, fault, word),
        Op68::Sbcd => do_sbcd(regs, ram, fault, word),
        Op68::SubToRegister => do_sub_to_register(regs, ram, fault, word),
        Op68::SubToMemory => do_sub_to_memory(regs, ram, fault, word),
        Op68::Suba => do_suba(regs, ram, fault, word),
        Op68::Subx => do_subx(regs, ram, fault, word),
        Op68::Cmp => do_cmp(regs, ram, fault, word),
        Op68::Cmpa => do_cmpa(regs, ram, fault, word),
        Op68::Eor => do_eor(regs, ram, fault, word),
        Op68::Cmpm => do_cmpm(regs, ram, fault, word),
        Op68::AndToRegister => do_and_to_register(regs, ram, fault, word),
        Op68::AndToMemory => do_and_to_memory(regs, ram, fault, word),
        Op68::Mulu => do_mulu(regs, ram, fault, word),
        Op68::Muls => do_muls(regs, ram, fault, word),
        Op68::Abcd => do_abcd(regs, ram, fault, word),
        Op68::Exg => do_exg(regs, ram, fault, word),
        Op68::AddToRegister => do_add_to_register(regs, ram, fault, word),
        Op68::AddToMemory => do_add_to_memory(regs, ram, fault, word),
        Op68::Adda => do_adda(regs, ram, fault, word),
        Op68::Addx => do_addx(regs, ram, fault, word),
        Op68::Shift => do_shift(regs, ram, fault, word),
        Op68::ShiftMemory => do_shift_memory(regs, ram, fault, word),
        Op68::Illegal => do_illegal(regs, ram, fault, word),
        Op68::Privileged => do_privileged(regs, ram, fault, word),
        Op68::LineA => do_line_a(regs, ram, fault, word),
        Op68::LineF => do_line_f(regs, ram, fault, word),
    }
}
