// Where a step stores.
ghost use Rattle.std.specs.Prelude.{◌≡◌, Some, true};
ghost use Rattle.big_memory.specs.Map.{host_code as host_code_of};
ghost use Rattle.toolbox.specs.Functions.{trap_number};
ghost use Rattle.toolbox.specs.Registers.{operands_of};
ghost use Rattle.toolbox.specs.declared.function.Function.TheVariants.{BlockMove, NewPtrClear};
ghost use Rattle.mix_reach.specs.Ranges.{IsTold, stored_at as stored_at_of};
ghost use Rattle.mix_reach.specs.laws.Ranges.{nothing as nothing_of, plain as plain_of, range as range_of};
ghost use Rattle.mix_reach.specs.laws.Steps.{decoded_stores as decoded_stores_of, frame_given_up as frame_given_up_of, frame_made as frame_made_of, host_stores as host_stores_of, is_made, next_stores as next_stores_of, reach, word_stores as word_stores_of};
ghost use Rattle.big_memory.specs.Memory.{loaded};
ghost use Rattle.m68_isa.specs.Decode.{decoded};
ghost use Rattle.m68_ea.specs.Words.{words_at};
ghost use Rattle.mix_bits.specs.declared.size.Size.TheVariants.{Four};
ghost use Rattle.switch_frame.specs.declared.active.Active.TheVariants.{M68, Ppc};

use crate::quick::quick_stores;
use crate::reach::{Reach, Stores, Told, filling, nothing, plain, range, stored_at};
use crate::{m68, ppc, quick};
use big_memory::{GATE_PAGE_END, Ram, host_code, in_gate_page};
use m68_ea::has_five;
use m68_isa::{Decoded68, Regs68};
use mix_bits::onward;
use ppc_isa::RegsPpc;
use switch_frame::{Active, LARGEST_FRAME};
use toolbox::{Function, trap_index, trap_laws};

/// Where the next step of code stores, unless it makes or gives up a frame.
#[inline(always)]
pub fn next_stores(ram: &Ram, active: &Active) -> Stores
    ensures { result ≡ next_stores_of ram.now active.now }
{
    match active {
        Active::M68(regs) => code_stores(ram, regs, active),
        Active::Ppc(regs) => {
            if in_gate_page(regs.pc) {
                host_stores(host_code(regs.pc), active)
            } else {
                word_stores(ram, regs)
            }
        }
    }
}

/// What is told at once of where the next step of 68K code stores.
#[inline(always)]
pub fn told_68k(ram: &Ram, regs: &Regs68) -> Told
    ensures { IsTold result (next_stores_of ram.now (M68 regs.now)) }
{
    if has_five(ram, regs.pc) && quick::is_still(ram, regs) {
        Told::Nowhere
    } else {
        Told::Unknown
    }
}

/// The same of PowerPC code, all of whose instructions tell it.
#[inline(always)]
pub fn told_ppc(ram: &Ram, regs: &RegsPpc) -> Told
    ensures { IsTold result (next_stores_of ram.now (Ppc regs.now)) }
{
    if regs.pc < GATE_PAGE_END {
        return Told::Unknown;
    }
    match word_reach(ram, regs) {
        Some(reach) => Told::There(reach),
        None => Told::Nowhere,
    }
}

/// The same for 68K code: its first word and its operands tell, or it is decoded.
#[inline(always)]
fn code_stores(ram: &Ram, regs: &Regs68, active: &Active) -> Stores
    requires { active.now ≡ M68 regs.now }
    ensures { result ≡ decoded_stores_of regs.now (decoded (words_at ram.now regs.now.pc)) }
{
    if !has_five(ram, regs.pc) {
        return instruction_stores(ram, regs, active);
    }
    match quick_stores(ram, regs) {
        Some(reach) => plain(reach),
        None => instruction_stores(ram, regs, active),
    }
}

/// The same for an instruction of 68K code, which is decoded.
#[inline(never)]
fn instruction_stores(ram: &Ram, regs: &Regs68, active: &Active) -> Stores
    requires { active.now ≡ M68 regs.now }
    ensures { result ≡ decoded_stores_of regs.now (decoded (words_at ram.now regs.now.pc)) }
{
    match m68::decode_at(ram, regs.pc) {
        Decoded68::Op(instruction, _) => plain(m68::stores(regs, instruction)),
        Decoded68::LineA(word) => trap_stores(word, active),
        _ => plain(nothing()),
    }
}

/// The same for the word of PowerPC code.
#[inline(always)]
fn word_stores(ram: &Ram, regs: &RegsPpc) -> Stores
    ensures { result ≡ word_stores_of regs.now (loaded ram.now regs.now.pc Four) }
{
    stored_at(word_reach(ram, regs))
}

/// Where the word of PowerPC code stores; None where it stores nowhere.
#[inline(always)]
fn word_reach(ram: &Ram, regs: &RegsPpc) -> Option<Reach>
    ensures { word_stores_of regs.now (loaded ram.now regs.now.pc Four) ≡ stored_at_of result }
{
    match ram.load_long(regs.pc) {
        Ok(word) => ppc::stores(regs, word),
        Err(_) => None,
    }
}

/// The same for a word of line A.
fn trap_stores(word: u16, active: &Active) -> Stores
    ensures { result ≡ host_stores_of (trap_number word) active.now }
{
    trap_laws();
    host_stores(trap_index(word), active)
}

/// The same for the host function of a number.
#[inline(never)]
fn host_stores(index: Option<u32>, active: &Active) -> Stores
    ensures { result ≡ host_stores_of index active.now }
{
    match index.map(Function::at) {
        Some(Function::NewRoutineDescriptor) => filling(32),
        Some(Function::NewFatRoutineDescriptor) => filling(52),
        Some(Function::NewPtrClear) => filling(cleared(active)),
        Some(Function::BlockMove) => plain(moved(active)),
        _ => plain(nothing()),
    }
}

/// How many bytes NewPtrClear clears.
fn cleared(active: &Active) -> u32
    ensures { result ≡ (operands_of NewPtrClear active.now).first }
{
    match active {
        Active::M68(regs) => regs.d[0],
        Active::Ppc(regs) => regs.gpr[3],
    }
}

/// The bytes that BlockMove moves.
fn moved(active: &Active) -> Reach
    ensures { result ≡ range_of (operands_of BlockMove active.now).second (operands_of BlockMove active.now).third }
{
    match active {
        Active::M68(regs) => range(regs.a[1], regs.d[0]),
        Active::Ppc(regs) => range(regs.gpr[4], regs.gpr[5]),
    }
}

/// Where a step stored that made no block: by what was told before it, where the innermost frame began before and after
/// it, and the registers after it.
pub fn step_reach(next: Stores, old: u32, new: u32, active: &Active) -> Reach
    ensures { result ≡ reach next old new active.now }
{
    if new == old {
        next.reach
    } else if makes_frame(old, new) {
        frame_made(new, active)
    } else {
        frame_given_up(old, active)
    }
}

/// Whether a step made a frame, by where the innermost one began before and after it, if it did not stay: it begins lower
/// than before, or none was live.
#[inline(always)]
pub fn makes_frame(old: u32, new: u32) -> bool
    ensures { result ≡ is_made old new }
{
    new != 0 && (old == 0 || new < old)
}

/// From the callee's stack pointer up to the end of the frame.
fn frame_made(top: u32, callee: &Active) -> Reach
    ensures { result ≡ frame_made_of top callee.now }
{
    Reach {
        low: callee.sp() as usize,
        high: top as usize + LARGEST_FRAME as usize,
    }
}

/// The frame, and a result at the caller's stack pointer.
fn frame_given_up(top: u32, caller: &Active) -> Reach
    ensures { result ≡ frame_given_up_of top caller.now }
{
    let frame = top as usize;
    let place = onward(caller.sp(), 0) as usize;
    Reach {
        low: frame.min(place),
        high: (frame + LARGEST_FRAME as usize).max(place + 4),
    }
}
