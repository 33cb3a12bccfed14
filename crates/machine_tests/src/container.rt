ghost use Rattle.std.specs.Prelude.{◌^◌, ◌≤◌, length};

use crate::equal::{equal, must};
use crate::loaded::{Places, has_places, stands_at, starts_powerpc};
use mix_bits::Isa;
use mix_load::{File, FileBytes, Files, LoadError, Program, load};
use pef_head::PefError;
use pef_reloc::RelocError;
use std::alloc::Global;
use std::process::Abort;

/// A program that writes `H`: code, data that is relocated, and an import. The loader section stands at
/// 156, its library at 212, its symbol at 236, its relocation header at 240 and its strings at 256.
const PROGRAM: [u8; 272] = [
    // the header: Joy!, peff, pwpc, version 1, a date, three versions, 3 sections of which 2 are loaded
    0x4A, 0x6F, 0x79, 0x21, 0x70, 0x65, 0x66, 0x66, 0x70, 0x77, 0x70, 0x63, 0x00, 0x00, 0x00, 0x01,
    0xA0, 0xB0, 0xC0, 0xD0, 0x00, 0x00, 0x00, 0x00, 0x00, 0x00, 0x00, 0x00, 0x00, 0x00, 0x00, 0x00,
    0x00, 0x03, 0x00, 0x02, 0x00, 0x00, 0x00, 0x00,
    // code: 20 bytes at 124, aligned to 16
    0xFF, 0xFF, 0xFF, 0xFF, 0x00, 0x00, 0x00, 0x00, 0x00, 0x00, 0x00, 0x14, 0x00, 0x00, 0x00, 0x14,
    0x00, 0x00, 0x00, 0x14, 0x00, 0x00, 0x00, 0x7C, 0x00, 0x04, 0x04, 0x00,
    // data: 12 bytes at 144 of 32 in memory, aligned to 4
    0xFF, 0xFF, 0xFF, 0xFF, 0x00, 0x00, 0x00, 0x00, 0x00, 0x00, 0x00, 0x20, 0x00, 0x00, 0x00, 0x0C,
    0x00, 0x00, 0x00, 0x0C, 0x00, 0x00, 0x00, 0x90, 0x01, 0x01, 0x02, 0x00,
    // loader: 116 bytes at 156
    0xFF, 0xFF, 0xFF, 0xFF, 0x00, 0x00, 0x00, 0x00, 0x00, 0x00, 0x00, 0x00, 0x00, 0x00, 0x00, 0x00,
    0x00, 0x00, 0x00, 0x74, 0x00, 0x00, 0x00, 0x9C, 0x04, 0x04, 0x02, 0x00,
    // the code's bytes
    0x81, 0x82, 0x00, 0x00, 0x80, 0x0C, 0x00, 0x00, 0x7C, 0x09, 0x03, 0xA6, 0x38, 0x60, 0x00, 0x48,
    0x4E, 0x80, 0x04, 0x20,
    // the data's bytes
    0x00, 0x00, 0x00, 0x00, 0x00, 0x00, 0x00, 0x00, 0x00, 0x00, 0x00, 0x00,
    // main is in section 1 at 4; no init, no term; a library, a symbol and a relocation header; the
    // relocation area at 96 and the strings at 100
    0x00, 0x00, 0x00, 0x01, 0x00, 0x00, 0x00, 0x04, 0xFF, 0xFF, 0xFF, 0xFF, 0x00, 0x00, 0x00, 0x00,
    0xFF, 0xFF, 0xFF, 0xFF, 0x00, 0x00, 0x00, 0x00, 0x00, 0x00, 0x00, 0x01, 0x00, 0x00, 0x00, 0x01,
    0x00, 0x00, 0x00, 0x01, 0x00, 0x00, 0x00, 0x60, 0x00, 0x00, 0x00, 0x64, 0x00, 0x00, 0x00, 0x74,
    0x00, 0x00, 0x00, 0x00, 0x00, 0x00, 0x00, 0x00,
    // the library: its name at 0, one symbol from 0 on
    0x00, 0x00, 0x00, 0x00, 0x00, 0x00, 0x00, 0x00, 0x00, 0x00, 0x00, 0x00, 0x00, 0x00, 0x00, 0x01,
    0x00, 0x00, 0x00, 0x00, 0x00, 0x00, 0x00, 0x00,
    // the symbol: a transition vector, its name at 8
    0x02, 0x00, 0x00, 0x08,
    // the relocation header: section 1, 2 words from 0 on; and its words
    0x00, 0x01, 0x00, 0x00, 0x00, 0x00, 0x00, 0x02, 0x00, 0x00, 0x00, 0x00, 0x60, 0x00, 0x46, 0x00,
    // HostLib, PutByte
    0x48, 0x6F, 0x73, 0x74, 0x4C, 0x69, 0x62, 0x00, 0x50, 0x75, 0x74, 0x42, 0x79, 0x74, 0x65, 0x00,
];

/// Loads a container into 1 MiB of RAM.
fn load_container(alloc: Global, container: &[u8]) -> Result<Program, LoadError>
    requires { length container.now ≤ 2 ^ 24 }
{
    let files = Files {
        flat: None,
        rsrc: None,
        pef: Some(FileBytes::of(container.to_vec(alloc)?)),
    };
    load(alloc, &files, Isa::Ppc, 1024)
}

/// The program of a container.
fn program_of(rt: &impl Abort, alloc: Global, container: &[u8]) -> Program
    requires { length container.now ≤ 2 ^ 24 }
{
    load_container(alloc, container).expect(rt, "no program")
}

/// Why a container is refused.
fn refusal(alloc: Global, container: &[u8]) -> Option<LoadError>
    requires { length container.now ≤ 2 ^ 24 }
{
    load_container(alloc, container).err()
}

/// The program's container, with one of its bytes replaced.
fn program_with(rt: &impl Abort, place: usize, byte: u8) -> [u8; 272] {
    must(rt, place < 272);
    let mut file = PROGRAM;
    file[place] = byte;
    file
}

/// What stands where in the program as it was loaded.
fn is_program(rt: &impl Abort, program: &Program) {
    has_places(
        rt,
        program,
        Places {
            a5: 0,
            heap_lo: 0x1_0040,
            heap_hi: 0xC_0000,
            start_sp: 0xF_FFC0,
        },
    );
    starts_powerpc(rt, program, [0x1_0000, 0xF_FFC0, 0x1_0020, 0x1010]);
    stands_at(rt, program, 0x1_0000, &PROGRAM[124..144]);
    // the data: the import's vector, the main vector, and zeros behind them
    let data = [
        0x00, 0x00, 0x14, 0x48, 0x00, 0x01, 0x00, 0x00, 0x00, 0x01, 0x00, 0x20, 0x00, 0x00, 0x00,
        0x00,
    ];
    stands_at(rt, program, 0x1_0020, &data);
    // what the gate page tells the program
    let told = [
        0x00, 0x00, 0x00, 0x00, 0x00, 0x01, 0x00, 0x24, 0x00, 0x00, 0x00, 0x00, 0x00, 0x10, 0x00,
        0x00,
    ];
    stands_at(rt, program, 0x1020, &told);
    // the transition vector of PutByte
    let vector = [0x00, 0x00, 0x18, 0x24, 0x00, 0x00, 0x00, 0x00];
    stands_at(rt, program, 0x1448, &vector);
}

#[test]
fn loads_a_container(rt: HostRuntime) {
    let program = program_of(&rt, rt.alloc(), &PROGRAM);
    is_program(&rt, &program);
}

#[test]
fn a_weak_import_may_be_missing(rt: HostRuntime) {
    let mut file = program_with(&rt, 270, b's');
    let unresolved = Some(LoadError::Unresolved(0));
    equal(&rt, "the import", refusal(rt.alloc(), &file), unresolved);
    file[236] = 0x82;
    let program = program_of(&rt, rt.alloc(), &file);
    let data = [0x00, 0x00, 0x00, 0x00, 0x00, 0x01, 0x00, 0x00];
    stands_at(&rt, &program, 0x1_0020, &data);
}

/// Each row replaces one byte, and the container is then refused so.
fn are_refused(rt: &impl Abort, alloc: Global, rows: &[(usize, u8, LoadError)]) {
    for (place, byte, why) in rows {
        let file = program_with(rt, *place, *byte);
        equal(rt, *place, refusal(alloc, &file), Some(*why));
    }
}

#[test]
fn refuses_containers(rt: HostRuntime) {
    let alloc = rt.alloc();
    let empty = Some(LoadError::Empty(File::Pef));
    equal(&rt, "no byte", refusal(alloc, &[]), empty);
    let short = Some(LoadError::Pef(PefError::Short(39)));
    equal(&rt, "39 bytes", refusal(alloc, &PROGRAM[..39]), short);
    are_refused(
        &rt,
        alloc,
        &[
            (0, b'K', LoadError::Pef(PefError::Magic)),
            (8, b'm', LoadError::Pef(PefError::Architecture)),
            (15, 2, LoadError::Pef(PefError::Version)),
            // the alignment of the code
            (66, 13, LoadError::Pef(PefError::Section(0))),
            // the kind of the loader section
            (120, 5, LoadError::Pef(PefError::NoLoader)),
            // how many symbols there are
            (184, 0xFF, LoadError::Pef(PefError::Loader(236))),
            // the end of the symbol's name
            (271, b's', LoadError::Pef(PefError::Name(236))),
            // the section of the initialization routine
            (164, 0, LoadError::Pef(PefError::Init)),
            // the size of the data in memory
            (76, 1, LoadError::TooLarge(0x101_0040)),
            // the first relocation word
            (252, 0xB0, LoadError::Reloc(RelocError::Unsupported(0xB000))),
            // where main stands in its section
            (163, 25, LoadError::NoMain),
        ],
    );
}

#[test]
fn refuses_pattern_data(rt: HostRuntime) {
    // the kind of the data, and the first byte of its pattern
    let mut file = program_with(&rt, 92, 2);
    file[144] = 0xA0;
    let why = Some(LoadError::Reloc(RelocError::Pattern(0)));
    equal(&rt, "the pattern", refusal(rt.alloc(), &file), why);
}
