use super::area::{Area, CODE};
use super::fault::{kept, told};
use super::setting::{Setting, number};
use big_memory::Ram;
use m68_core::{Out68, step68};
use m68_isa::{Ccr, Regs68};
use mix_bits::Size;
use std::alloc::{AllocError, Global};

/// What the instruction of a line does, as text.
pub fn answer(alloc: Global, ram: &mut Ram, words: &[&str]) -> Result<String, AllocError> {
    let mut regs = Regs68::cleared();
    regs.pc = CODE;
    if let [code, settings @ ..] = words {
        put_code(ram, code);
        for word in settings {
            if let Some(setting) = Setting::read(word) {
                apply(&mut regs, ram, setting);
            }
        }
    }
    let (old, before) = (regs, Area::read(ram));
    let out = step68(&mut regs, ram);
    for word in words {
        if let Some(setting) = Setting::read(word) {
            setting.end(ram);
        }
    }
    match out {
        Out68::Next => changes(alloc, &old, &regs, &before, &Area::read(ram)),
        Out68::Line(word) => line(alloc, word, regs == old),
        Out68::Stop(why) => told(alloc, &why, regs == old, &before, &Area::read(ram)),
    }
}

/// Stores the words of the instruction, which commas part.
fn put_code(ram: &mut Ram, code: &str) {
    let mut at = CODE;
    for word in code.split(',') {
        if let Some(value) = number(word) {
            let _ = ram.store(at, Size::Two, value);
        }
        at = at.wrapping_add(2);
    }
}

/// The text of an answer that is a line A word.
fn line(alloc: Global, word: u16, is_same: bool) -> Result<String, AllocError> {
    let registers = kept(is_same);
    format!(in alloc; " line {word:04X}{registers}")
}

/// Puts a setting into a register or into memory.
fn apply(regs: &mut Regs68, ram: &mut Ram, setting: Setting) {
    if setting.name == "ccr" {
        regs.ccr = Ccr::from_bits(setting.value);
    } else if setting.name == "pc" {
        regs.pc = setting.value;
    } else if let Some(n) = setting.register('d') {
        if n < 8 {
            regs.d[n] = setting.value;
        }
    } else if let Some(n) = setting.register('a') {
        if n < 8 {
            regs.a[n] = setting.value;
        }
    } else {
        setting.apply(ram);
    }
}

/// What has changed, as text; the address of the next instruction and the condition codes in any case.
fn changes(
    alloc: Global,
    old: &Regs68,
    new: &Regs68,
    before: &Area,
    after: &Area,
) -> Result<String, AllocError> {
    let (pc, ccr) = (new.pc, new.ccr.bits());
    let mut text = format!(in alloc; " pc={pc:08X} ccr={ccr:02X}")?;
    for n in 0..8 {
        if old.d[n] != new.d[n] {
            let value = new.d[n];
            write!(text, " d{n}={value:08X}")?;
        }
    }
    for n in 0..8 {
        if old.a[n] != new.a[n] {
            let value = new.a[n];
            write!(text, " a{n}={value:08X}")?;
        }
    }
    before.tell(after, &mut text)?;
    Ok(text)
}
