// What is seen of a loaded program.
use crate::equal::{equal, must};
use std::process::Abort;
use switch_frame::{Active, Program};

/// A program's A5, its heap, and its stack pointer at the start, in this order.
#[derive(Clone, Copy)]
pub struct Places {
    pub a5: u32,
    pub heap_lo: u32,
    pub heap_hi: u32,
    pub start_sp: u32,
}

/// A program has these places.
pub fn has_places(rt: &impl Abort, program: &Program, wanted: Places) {
    equal(rt, "A5", program.a5, wanted.a5);
    equal(rt, "the heap", program.heap_lo, wanted.heap_lo);
    equal(rt, "the heap's end", program.heap_hi, wanted.heap_hi);
    equal(rt, "the stack", program.start_sp, wanted.start_sp);
}

/// A program starts as 68K code, with this pc, A5 and A7.
pub fn starts_68k(rt: &impl Abort, program: &Program, wanted: [u32; 3]) {
    let Active::M68(regs) = program.active else {
        panic!(rt; "it starts as PowerPC code")
    };
    equal(rt, "pc, A5, A7", [regs.pc, regs.a[5], regs.a[7]], wanted);
}

/// A program starts as PowerPC code, with this pc, r1, r2 and lr.
pub fn starts_powerpc(rt: &impl Abort, program: &Program, wanted: [u32; 4]) {
    let Active::Ppc(regs) = program.active else {
        panic!(rt; "it starts as 68K code")
    };
    let found = [regs.pc, regs.gpr[1], regs.gpr[2], regs.lr];
    equal(rt, "pc, r1, r2, lr", found, wanted);
}

/// In a program's RAM, these bytes stand at an address.
pub fn stands_at(rt: &impl Abort, program: &Program, at: u32, bytes: &[u8]) {
    must(rt, bytes.len() <= 64);
    let found = program.ram.span(at, bytes.len() as u32);
    equal(rt, at, found, Ok(bytes));
}
