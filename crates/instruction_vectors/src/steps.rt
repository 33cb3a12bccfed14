//! What one instruction changes.
//!
//! A line has the set (`68k` or `ppc`), a name, the words of the instruction in hexadecimal, and what
//! registers and memory hold before it, as `d0=0000FFFF`, `cr=80000000` or `00018010=12345678`; what
//! is not named is 0, but for two areas of memory whose bytes follow from their addresses. `guard=00018010`
//! guards 16 bytes, as a live frame is guarded. The answer has the name, the address of the next instruction, and each
//! register that has changed and each byte of five areas of memory; or the fault.
//!
//! The stored answers were not made by this program. GNU as 2.40 assembled the
//! instructions, and QEMU 7.2 did them, one at a time (as a 68000, the instructions that came later and
//! those at odd addresses as a 68020, and as a 603e in user mode). The lines of what the manuals leave open,
//! of faults, and of what QEMU does otherwise than the manual says (three shifts of a word in memory, flags
//! of long immediates from $80000000 on, `link` of A7) are by hand, from the tables in `docs/`; so are the two of
//! `btst` with a number and the program counter, and the last 496 of these lines, instructions and every BO as GNU as
//! assembles them for the 601 and the 68020, whose results are the manuals' sums over unbounded integers, and what
//! the gate page answers.

mod area;
mod fault;
mod m68;
mod ppc;
mod setting;

use area::Area;
use big_memory::Ram;
use std::alloc::{AllocError, Global};

/// How many bytes of memory there are.
pub const RAM_BYTES: u32 = 0x2_0000;

/// The answer to a line.
pub fn answer(alloc: Global, ram: &mut Ram, line: &str) -> Result<String, AllocError> {
    let mut words = line.split_whitespace();
    let set = words.next().unwrap_or("");
    let name = words.next().unwrap_or("");
    let rest: Vec<&str> = words.collect(alloc)?;
    let before = Area::fresh();
    before.write(ram);
    let answer = match set {
        "68k" => m68::answer(alloc, ram, rest.as_slice())?,
        _ => ppc::answer(alloc, ram, rest.as_slice())?,
    };
    format!(in alloc; "{set} {name}{answer}")
}
