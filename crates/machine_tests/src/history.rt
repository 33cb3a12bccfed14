// How many steps can be taken back.
ghost use Rattle.std.specs.Prelude.{◌≤◌, vec_len};
ghost use Rattle.switch_frame.specs.ProgramClauses.{IsProgram};

use crate::around::Around;
use crate::equal::equal;
use mix_bits::Isa;
use mix_debug::{Debug, Step};
use mix_engine::Machine;
use mix_load::{FileBytes, Files, load};
use std::alloc::Global;
use std::process::Abort;
use switch_frame::Program;

/// 68K code that makes a block of 1048576 bytes, moves as many bytes there, from $10100 on, and then does nothing
/// twice.
const CODE: [u8; 28] = [
    0x20, 0x3C, 0x00, 0x10, 0x00, 0x00, 0xA1, 0x1E, 0x22, 0x48, 0x20, 0x7C, 0x00, 0x01, 0x01, 0x00,
    0x20, 0x3C, 0x00, 0x10, 0x00, 0x00, 0xA0, 0x2E, 0x4E, 0x71, 0x4E, 0x71,
];

/// How many steps are kept after each step of that code: the sixth changes more bytes than the history has room for.
const KEPT: [u32; 8] = [1, 2, 3, 4, 5, 0, 1, 2];

#[test]
fn a_long_move_empties_the_history(rt: HostRuntime) {
    let mut debug = debugger(&rt, rt.alloc());
    let mut around = Around::new(&rt, rt.alloc());
    for (number, kept) in KEPT.iter().enumerate() {
        equal(&rt, number, around.step(&mut debug), Step::Next);
        equal(&rt, number, debug.kept(), *kept);
    }
}

/// A debugger before the first step of the code.
fn debugger(rt: &impl Abort, alloc: Global) -> Debug {
    let Ok(machine) = Machine::start(alloc, program(rt, alloc)) else {
        panic!(rt; "no machine")
    };
    Debug::new(alloc, machine).expect(rt, "no debugger")
}

/// The program of the code, in 4096 KiB of RAM.
fn program(rt: &impl Abort, alloc: Global) -> Program
    ensures { IsProgram result }
{
    let files = Files {
        flat: Some(FileBytes::of(image(rt, alloc))),
        rsrc: None,
        pef: None,
    };
    let Ok(program) = load(alloc, &files, Isa::M68, 4096) else {
        panic!(rt; "no program")
    };
    program
}

/// The code, and behind it, from $100 on, 1048576 bytes $FF.
fn image(rt: &impl Abort, alloc: Global) -> Vec<u8>
    ensures { vec_len result ≤ 16777216 }
{
    let mut bytes = CODE.to_vec(alloc).expect(rt, "no image");
    bytes.resize(0x100, 0).expect(rt, "no room");
    bytes.resize(0x10_0100, 0xFF).expect(rt, "no room");
    bytes
}
