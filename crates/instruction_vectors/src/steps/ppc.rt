use super::area::{Area, CODE};
use super::fault::{kept, told};
use super::setting::{Setting, number};
use big_memory::{Ram, is_gate};
use mix_bits::Size;
use ppc_core::{OutPpc, step_ppc};
use ppc_isa::RegsPpc;
use std::alloc::{AllocError, Global};

/// What the instruction of a line does, as text.
pub fn answer(alloc: Global, ram: &mut Ram, words: &[&str]) -> Result<String, AllocError> {
    let mut regs = RegsPpc::cleared();
    regs.pc = CODE;
    if let [code, settings @ ..] = words {
        if let Some(word) = number(code) {
            let _ = ram.store(CODE, Size::Four, word);
        }
        for word in settings {
            if let Some(setting) = Setting::read(word) {
                apply(&mut regs, ram, setting);
            }
        }
    }
    if is_gate(regs.pc) {
        return String::from_str(alloc, " gate");
    }
    let (old, before) = (regs, Area::read(ram));
    let out = step_ppc(&mut regs, ram);
    for word in words {
        if let Some(setting) = Setting::read(word) {
            setting.end(ram);
        }
    }
    match out {
        OutPpc::Next => changes(alloc, &old, &regs, &before, &Area::read(ram)),
        OutPpc::Host(number) => host(alloc, number, regs == old),
        OutPpc::Stop(why) => told(alloc, &why, regs == old, &before, &Area::read(ram)),
    }
}

/// The text of an answer that is a host function.
fn host(alloc: Global, number: u32, is_same: bool) -> Result<String, AllocError> {
    let registers = kept(is_same);
    format!(in alloc; " host {number}{registers}")
}

/// Puts a setting into a register or into memory.
fn apply(regs: &mut RegsPpc, ram: &mut Ram, setting: Setting) {
    match setting.name {
        "cr" => regs.cr = setting.value,
        "lr" => regs.lr = setting.value,
        "ctr" => regs.ctr = setting.value,
        "xer" => regs.xer = setting.value,
        "pc" => regs.pc = setting.value,
        _ => match setting.register('r') {
            Some(n) if n < 32 => regs.gpr[n] = setting.value,
            _ => setting.apply(ram),
        },
    }
}

/// What has changed, as text; the address of the next instruction in any case.
fn changes(
    alloc: Global,
    old: &RegsPpc,
    new: &RegsPpc,
    before: &Area,
    after: &Area,
) -> Result<String, AllocError> {
    let pc = new.pc;
    let mut text = format!(in alloc; " pc={pc:08X}")?;
    for n in 0..32 {
        if old.gpr[n] != new.gpr[n] {
            let value = new.gpr[n];
            write!(text, " r{n}={value:08X}")?;
        }
    }
    for (name, was, is) in [
        ("cr", old.cr, new.cr),
        ("lr", old.lr, new.lr),
        ("ctr", old.ctr, new.ctr),
        ("xer", old.xer, new.xer),
    ] {
        if was != is {
            write!(text, " {name}={is:08X}")?;
        }
    }
    before.tell(after, &mut text)?;
    Ok(text)
}
