ghost use Rattle.std.specs.Prelude.{◌^◌, ◌≤◌, length};

use crate::equal::equal;
use crate::loaded::{Places, has_places, stands_at, starts_68k, starts_powerpc};
use mix_bits::Isa;
use mix_load::{File, FileBytes, Files, LoadError, Program, load};
use std::alloc::Global;
use std::process::Abort;

/// Loads a flat file into 128 KiB of RAM.
fn load_flat(alloc: Global, flat: &[u8], main: Isa) -> Result<Program, LoadError>
    requires { length flat.now ≤ 2 ^ 24 }
{
    let files = Files {
        flat: Some(FileBytes::of(flat.to_vec(alloc)?)),
        rsrc: None,
        pef: None,
    };
    load(alloc, &files, main, 128)
}

/// The program of a flat file.
fn program_of(rt: &impl Abort, alloc: Global, flat: &[u8], main: Isa) -> Program
    requires { length flat.now ≤ 2 ^ 24 }
{
    load_flat(alloc, flat, main).expect(rt, "no program")
}

/// Why a flat file of 68K code is refused.
fn refusal(alloc: Global, flat: &[u8]) -> Option<LoadError>
    requires { length flat.now ≤ 2 ^ 24 }
{
    load_flat(alloc, flat, Isa::M68).err()
}

/// What stands where in the program of 68K code as it was loaded.
fn is_68k_code(rt: &impl Abort, program: &Program) {
    has_places(
        rt,
        program,
        Places {
            a5: 0,
            heap_lo: 0x1_0010,
            heap_hi: 0x1_8000,
            start_sp: 0x2_0000,
        },
    );
    starts_68k(rt, program, [0x1_0000, 0, 0x1_FFFC]);
    let code = [0x70, 0x48, 0xAA, 0x80, 0x4E, 0x75, 0x00, 0x00];
    stands_at(rt, program, 0x1_0000, &code);
    let told = [0x00, 0x01, 0x00, 0x00, 0x00, 0x00, 0x00, 0x00];
    stands_at(rt, program, 0x1020, &told);
}

#[test]
fn loads_68k_code(rt: HostRuntime) {
    let file = [0x70, 0x48, 0xAA, 0x80, 0x4E, 0x75];
    let program = program_of(&rt, rt.alloc(), &file, Isa::M68);
    is_68k_code(&rt, &program);
}

/// The same of the program of PowerPC code.
fn is_powerpc_code(rt: &impl Abort, program: &Program) {
    equal(rt, "the stack", program.start_sp, 0x1_FFC0);
    starts_powerpc(rt, program, [0x1_0000, 0x1_FFC0, 0, 0x1010]);
    stands_at(rt, program, 0x1020, &[0; 8]);
}

#[test]
fn loads_powerpc_code(rt: HostRuntime) {
    let file = [0x4E, 0x80, 0x00, 0x20];
    let program = program_of(&rt, rt.alloc(), &file, Isa::Ppc);
    is_powerpc_code(&rt, &program);
}

/// A flat file that leaves the heap no byte.
fn fills_the_heap(rt: &impl Abort, alloc: Global, flat: &[u8])
    requires { length flat.now ≤ 2 ^ 24 }
{
    let program = program_of(rt, alloc, flat, Isa::M68);
    equal(rt, "the heap", program.heap_lo, program.heap_hi);
}

#[test]
fn a_flat_file_ends_below_the_stack(rt: HostRuntime) {
    let alloc = rt.alloc();
    let file = [0x4E; 0x8001];
    fills_the_heap(&rt, alloc, &file[..0x8000]);
    let large = Some(LoadError::TooLarge(0x1_8001));
    equal(&rt, "one byte more", refusal(alloc, &file), large);
    let empty = Some(LoadError::Empty(File::Flat));
    equal(&rt, "no byte", refusal(alloc, &[]), empty);
}
