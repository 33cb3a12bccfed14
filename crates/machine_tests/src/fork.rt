ghost use Rattle.std.specs.Prelude.{◌^◌, ◌≤◌, length};

use crate::equal::{equal, must};
use crate::loaded::{Places, has_places, stands_at, starts_68k};
use mix_bits::Isa;
use mix_load::{File, FileBytes, Files, LoadError, Program, load};
use rsrc_fork::RsrcError;
use std::alloc::Global;
use std::process::Abort;

/// A program's fork: CODE 0 with one entry of the jump table, and CODE 1.
const PROGRAM: [u8; 120] = [
    // the header
    0x00, 0x00, 0x00, 0x10, 0x00, 0x00, 0x00, 0x3A, 0x00, 0x00, 0x00, 0x2A, 0x00, 0x00, 0x00, 0x3E,
    // CODE 0
    0x00, 0x00, 0x00, 0x18, 0x00, 0x00, 0x00, 0x28, 0x00, 0x00, 0x00, 0x10, 0x00, 0x00, 0x00, 0x08,
    0x00, 0x00, 0x00, 0x20, 0x00, 0x00, 0x3F, 0x3C, 0x00, 0x01, 0xA9, 0xF0,
    // CODE 1
    0x00, 0x00, 0x00, 0x0A, 0x00, 0x00, 0x00, 0x01, 0x70, 0x48, 0xAA, 0x80, 0x4E, 0x75,
    // the map's own fields
    0x00, 0x00, 0x00, 0x00, 0x00, 0x00, 0x00, 0x00, 0x00, 0x00, 0x00, 0x00, 0x00, 0x00, 0x00, 0x00,
    0x00, 0x00, 0x00, 0x00, 0x00, 0x00, 0x00, 0x00, 0x00, 0x1C, 0x00, 0x3E,
    // the type list
    0x00, 0x00, 0x43, 0x4F, 0x44, 0x45, 0x00, 0x01, 0x00, 0x0A,
    // the references
    0x00, 0x00, 0xFF, 0xFF, 0x00, 0x00, 0x00, 0x00, 0x00, 0x00, 0x00, 0x00, 0x00, 0x01, 0xFF, 0xFF,
    0x00, 0x00, 0x00, 0x1C, 0x00, 0x00, 0x00, 0x00,
];

/// The type of segments.
const CODE: u32 = 0x434F_4445;

/// Loads a fork into 1 MiB of RAM.
fn load_fork(alloc: Global, fork: &[u8]) -> Result<Program, LoadError>
    requires { length fork.now ≤ 2 ^ 24 }
{
    let files = Files {
        flat: None,
        rsrc: Some(FileBytes::of(fork.to_vec(alloc)?)),
        pef: None,
    };
    load(alloc, &files, Isa::M68, 1024)
}

/// The program of a fork.
fn program_of(rt: &impl Abort, alloc: Global, fork: &[u8]) -> Program
    requires { length fork.now ≤ 2 ^ 24 }
{
    load_fork(alloc, fork).expect(rt, "no program")
}

/// Why a fork is refused.
fn refusal(alloc: Global, fork: &[u8]) -> Option<LoadError>
    requires { length fork.now ≤ 2 ^ 24 }
{
    load_fork(alloc, fork).err()
}

/// The program's fork, with one of its bytes replaced.
fn program_with(rt: &impl Abort, place: usize, byte: u8) -> [u8; 120] {
    must(rt, place < 120);
    let mut file = PROGRAM;
    file[place] = byte;
    file
}

/// What stands where in the program as it was loaded.
fn is_program(rt: &impl Abort, program: &Program) {
    has_places(
        rt,
        program,
        Places {
            a5: 0x1_0010,
            heap_lo: 0x1_0050,
            heap_hi: 0xC_0000,
            start_sp: 0x10_0000,
        },
    );
    starts_68k(rt, program, [0x1_0032, 0x1_0010, 0xF_FFFC]);
    // the jump table's entry, CODE 1 whole, and where the start returns to
    let entry = [0x00, 0x01, 0x4E, 0xF9, 0x00, 0x01, 0x00, 0x44];
    stands_at(rt, program, 0x1_0030, &entry);
    let code = [0x00, 0x00, 0x00, 0x01, 0x70, 0x48, 0xAA, 0x80, 0x4E, 0x75];
    stands_at(rt, program, 0x1_0040, &code);
    let gate = [0x00, 0x00, 0x10, 0x00];
    stands_at(rt, program, 0xF_FFFC, &gate);
    // what the gate page tells
    let told = [
        0x00, 0x01, 0x00, 0x32, 0x00, 0x00, 0x00, 0x00, 0x00, 0x01, 0x00, 0x10, 0x00, 0x10, 0x00,
        0x00,
    ];
    stands_at(rt, program, 0x1020, &told);
}

#[test]
fn loads_a_fork(rt: HostRuntime) {
    let program = program_of(&rt, rt.alloc(), &PROGRAM);
    is_program(&rt, &program);
}

/// Each row replaces one byte, and the fork is then refused so.
fn are_refused(rt: &impl Abort, alloc: Global, rows: &[(usize, u8, LoadError)]) {
    for (place, byte, why) in rows {
        let file = program_with(rt, *place, *byte);
        equal(rt, *place, refusal(alloc, &file), Some(*why));
    }
}

#[test]
fn refuses_forks(rt: HostRuntime) {
    let alloc = rt.alloc();
    let empty = Some(LoadError::Empty(File::Rsrc));
    equal(&rt, "no byte", refusal(alloc, &[]), empty);
    let short = Some(LoadError::Rsrc(RsrcError::Short(15)));
    equal(&rt, "15 bytes", refusal(alloc, &PROGRAM[..15]), short);
    are_refused(
        &rt,
        alloc,
        &[
            // where the data stands
            (0, 0xFF, LoadError::Rsrc(RsrcError::BadOffset(0))),
            // the first id
            (97, 1, LoadError::Rsrc(RsrcError::Twice(CODE, 1))),
            (97, 2, LoadError::NoCode(0)),
            // the attributes of CODE 1, and its id
            (112, 1, LoadError::Rsrc(RsrcError::Compressed(CODE, 1))),
            (108, 0xFF, LoadError::NoCode(1)),
            // the length of the jump table, and its entry's segment and words
            (31, 4, LoadError::JumpTable(0)),
            (41, 2, LoadError::JumpTable(16)),
            (42, 0xA8, LoadError::JumpTable(16)),
            // the size above A5
            (20, 1, LoadError::TooLarge(0x101_004A)),
        ],
    );
}

#[test]
fn refuses_the_far_model(rt: HostRuntime) {
    let mut file = program_with(&rt, 48, 0xFF);
    file[49] = 0xFF;
    let far = Some(LoadError::Far(1));
    equal(&rt, "the fork", refusal(rt.alloc(), &file), far);
}
